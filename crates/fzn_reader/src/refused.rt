use crate::code::Code;

/// A refusal: why, and the token that shows it.
#[derive(Clone, Copy, Debug, PartialEq, Eq)]
pub struct Refused {
    pub code: Code,
    /// The token's line, counted from 1.
    pub line: u32,
    /// How many bytes of the file stand before the token.
    pub from: u32,
    /// Where the token ends: how many bytes stand before what is behind it.
    pub to: u32,
}
