ghost use Rattle.std.specs.Prelude.{◌≡◌};
ghost use Rattle.search_core.specs.Paths.{opposite};

/// A bound on one variable: `x <= at`, or `x > at` where `up`.
#[derive(Clone, Copy, Debug, Default, PartialEq, Eq)]
pub struct Decision {
    /// The variable's number in its model.
    pub var: u32,
    pub at: i64,
    pub up: bool,
}

impl Decision {
    /// The other side of the cut: the values that this decision doesn't allow.
    pub fn opposite(&self) -> Decision
        ensures { result ≡ opposite self.now }
    {
        Decision {
            var: self.var,
            at: self.at,
            up: !self.up,
        }
    }
}
