use crate::term::Term;

/// What is wanted of a solution: any, or one of least or greatest value of a term.
#[derive(Clone, Copy, Debug, PartialEq, Eq)]
pub enum Goal {
    Satisfy,
    Minimise(Term),
    Maximise(Term),
}
