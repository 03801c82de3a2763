/// A byte at which no token begins, and which is neither white space nor the `%` of a comment.
#[derive(Clone, Copy, Debug, PartialEq, Eq)]
pub struct BadByte {
    /// Its line, counted from 1.
    pub line: u32,
    /// How many bytes of the input stand before it.
    pub from: u32,
}
