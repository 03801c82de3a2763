use crate::list::List;
use crate::term::Term;

/// Which variable of a search annotation is branched on first (MiniZinc Handbook, search annotations).
#[derive(Clone, Copy, Debug, PartialEq, Eq)]
pub enum VarBy {
    InputOrder,
    FirstFail,
    Smallest,
    Largest,
}

/// Which part of its domain comes first.
#[derive(Clone, Copy, Debug, PartialEq, Eq)]
pub enum ValAt {
    Min,
    Max,
    Split,
}

/// A search annotation: its variables, and how one of them and a part of its domain are chosen.
#[derive(Debug, Drop)]
pub struct Pick {
    pub vars: List<Term>,
    pub by: VarBy,
    pub at: ValAt,
}
