ghost use Rattle.std.specs.Prelude.{◌≡◌};

/// A rest that has more words than the limit of a call: how many, and that limit. Only [`project`](crate::project) makes
/// one, and there is no copy of it.
#[derive(Debug, Drop)]
pub struct Wide {
    words: u64,
    limit: u32,
}

impl Wide {
    pub(crate) fn new(words: u64, limit: u32) -> Wide
        ensures { result ≡ record { words = words; limit = limit } }
    {
        Wide { words, limit }
    }

    /// How many words the rest has.
    pub fn count(&self) -> u64
        ensures { result ≡ self.now.words }
    {
        self.words
    }

    /// The limit, in words.
    pub fn limit(&self) -> u32
        ensures { result ≡ self.now.limit }
    {
        self.limit
    }
}
