use fzn_model::{Base, Con};

/// What is left of a constraint in a box.
#[derive(Debug, Drop)]
pub enum Reduced {
    /// It holds on every assignment of the box.
    Holds,
    /// On the assignments of the box it holds exactly where this one does.
    Is(Con),
}

/// What is left of a base: it holds on every assignment of the box, on none, or exactly where another base does.
#[derive(Debug, Drop)]
pub(crate) enum BaseForm {
    Holds,
    Fails,
    Is(Base),
}
