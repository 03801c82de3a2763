use crate::seen::Seen;

/// What stands at a place, and its span.
#[derive(Clone, Copy, Debug)]
pub struct Spot<'a> {
    /// Whether it is a token, the end of the input, or a byte that begins no token.
    pub seen: Seen,
    /// The bytes of a token. The end and a bad byte have none.
    pub text: &'a [u8],
    /// The line, counted from 1. That of the end is one more than the number of bytes 10 in the input.
    pub line: u32,
    /// How many bytes of the input stand before it.
    pub from: u32,
    /// Where its span ends: of a bad byte one behind `from`, and of the end `from` itself.
    pub to: u32,
}
