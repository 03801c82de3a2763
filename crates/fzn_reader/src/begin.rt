ghost use Rattle.std.specs.Prelude.{◌≡◌};
ghost use Rattle.fzn_reader.specs.Exprs.{begins, word_begins, mark_begins};

use crate::reader::{Reader, is_reserved};
use fzn_lexer::{Kind, Seen};

/// What begins at a token, where an expression may stand.
#[derive(Clone, Copy, Debug, PartialEq, Eq)]
pub enum Begin {
    /// A number, and perhaps a range behind it.
    Number,
    /// A real number, which has no place outside annotations.
    Real,
    /// `true` or `false`.
    Truth(bool),
    /// A name.
    Name,
    /// A set in braces.
    Brace,
    /// A list.
    Bracket,
    /// No expression.
    Other,
}

fn word_begins(word: &[u8]) -> Begin
    ensures { result ≡ word_begins word.now }
{
    if word == b"true".as_slice() {
        Begin::Truth(true)
    } else if word == b"false".as_slice() {
        Begin::Truth(false)
    } else if is_reserved(word) {
        Begin::Other
    } else {
        Begin::Name
    }
}

fn mark_begins(mark: &[u8]) -> Begin
    ensures { result ≡ mark_begins mark.now }
{
    if mark == b"{".as_slice() {
        Begin::Brace
    } else if mark == b"[".as_slice() {
        Begin::Bracket
    } else {
        Begin::Other
    }
}

/// What begins at the token in hand.
#[tactic(auto, unfolding(crate::specs::Exprs::begins))]
pub fn begins(reader: &Reader) -> Begin
    ensures { result ≡ begins reader.now }
{
    let here = reader.here();
    match here.seen {
        Seen::Known(Kind::Word) => word_begins(here.text),
        Seen::Known(Kind::Number) => Begin::Number,
        Seen::Known(Kind::Real) => Begin::Real,
        Seen::Known(Kind::Mark) => mark_begins(here.text),
        Seen::Known(Kind::Text) | Seen::End | Seen::Bad => Begin::Other,
    }
}
