ghost use Rattle.std.specs.Prelude.{◌≡◌};

use int_domain::Domain;

/// A domain that a variable had before it was narrowed.
#[derive(Drop)]
pub struct Entry {
    pub(crate) var: u32,
    pub(crate) domain: Domain,
}

impl Entry {
    /// The variable.
    pub fn var(&self) -> u32
        ensures { result ≡ self.now.var }
    {
        self.var
    }
}
