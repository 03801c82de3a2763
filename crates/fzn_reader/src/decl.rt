use fzn_model::{List, Runs, Term};

/// What a name stands for. A parameter is a constant term.
#[derive(Debug, Drop)]
pub enum Decl {
    /// An int.
    Int(Term),
    /// A bool: 0 is false and 1 is true.
    Bool(Term),
    /// A set of ints.
    Set(Runs),
    /// An array of ints, and whether it is one of parameters.
    Ints(bool, List<Term>),
    /// An array of bools, and whether it is one of parameters.
    Bools(bool, List<Term>),
    /// An array of sets, which no constraint takes.
    Sets,
}
