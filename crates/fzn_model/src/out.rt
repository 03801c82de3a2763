use crate::list::List;
use crate::term::Term;

/// An output: its name, the index ranges of its dimensions (none for a single variable, at most six), its terms row
/// after row, and whether a value prints as a Boolean: `true` exactly where it is 1.
#[derive(Debug, Drop)]
pub struct Out {
    pub name: List<u8>,
    pub dims: List<(i64, i64)>,
    pub terms: List<Term>,
    pub truth: bool,
}
