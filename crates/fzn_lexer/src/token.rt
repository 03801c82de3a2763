use crate::kind::Kind;

/// A token, and where it stands.
#[derive(Clone, Copy, Debug)]
pub struct Token<'a> {
    /// What it is.
    pub kind: Kind,
    /// Its bytes: the slice `from..to` of the input.
    pub text: &'a [u8],
    /// Its line, counted from 1.
    pub line: u32,
    /// Where it begins: how many bytes of the input stand before it.
    pub from: u32,
    /// Where it ends: how many bytes of the input there are up to and with its last.
    pub to: u32,
}
