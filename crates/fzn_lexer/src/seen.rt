use crate::kind::Kind;

/// What stands at a place.
#[derive(Clone, Copy, Debug, PartialEq, Eq)]
pub enum Seen {
    /// A token of this kind.
    Known(Kind),
    /// The end of the input.
    End,
    /// A byte that begins no token.
    Bad,
}
