/// What a token is, by its spelling (MiniZinc Handbook, the grammar of FlatZinc).
#[derive(Clone, Copy, Debug, PartialEq, Eq)]
pub enum Kind {
    /// A letter or `_`, then letters, digits and `_`: a name, or a reserved word.
    Word,
    /// An optional `-`, then decimal digits, or `0x` and hexadecimal digits, or `0o` and octal digits.
    Number,
    /// An optional `-`, digits, then `.` and digits, or an exponent, or both.
    Real,
    /// Bytes between two quotes on one line, in which a backslash takes the next byte with it.
    Text,
    /// One of `( ) [ ] { } , : :: ; = ..`.
    Mark,
}
