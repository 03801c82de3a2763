/// What a narrowing did.
#[derive(Clone, Copy, Debug, PartialEq, Eq)]
pub enum Narrow {
    /// Nothing went.
    Same,
    /// Some values went, and some stayed.
    Changed,
    /// Nothing would stay, and the domain is as it was.
    Empty,
}
