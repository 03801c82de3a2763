ghost use Rattle.std.specs.Prelude.{◌≡◌};
ghost use Rattle.fzn_reader.specs.Annotations.{ann_begins};

use crate::begin::{Begin, begins};
use crate::reader::Reader;
use fzn_lexer::{Kind, Seen};

/// What begins at a token within an annotation.
#[derive(Clone, Copy, Debug, PartialEq, Eq)]
pub enum AnnBegin {
    /// A number, and perhaps a range behind it.
    Number,
    /// A text, a real number, `true` or `false`.
    Leaf,
    /// A name, and perhaps arguments behind it.
    Name,
    /// A set.
    Brace,
    /// A list.
    Bracket,
    /// Nothing that may stand there.
    Other,
}

/// What begins at the token in hand, within an annotation.
pub fn ann_begins(reader: &Reader) -> AnnBegin
    ensures { result ≡ ann_begins reader.now }
{
    match begins(reader) {
        Begin::Number => AnnBegin::Number,
        Begin::Real | Begin::Truth(_) => AnnBegin::Leaf,
        Begin::Name => AnnBegin::Name,
        Begin::Brace => AnnBegin::Brace,
        Begin::Bracket => AnnBegin::Bracket,
        Begin::Other => {
            if let Seen::Known(Kind::Text) = reader.here().seen {
                AnnBegin::Leaf
            } else {
                AnnBegin::Other
            }
        }
    }
}
