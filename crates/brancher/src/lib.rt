//! The choice of the next branching of a search.
//!
//! What it is for: where a box has open variables, [`choose`] picks one of them by the search annotations of the model,
//! and a number at which its domain is cut in two sides.
//!
//! What contracts see: a view as its box (`BoxView` of fzn_model), and a [`Cut`] as it is written.
//!
//! What it promises: exactly the cut of `IsChosen` in `specs/Branching.antt`; none exactly where all variables are
//! fixed; both sides of a cut have an assignment of the box.
//!
//! What it costs: no memory; one walk over each annotation up to the one that decides, and at most one over all variables.
//!
//! What it stands on: fzn_model.
#![tactic(auto)]

mod best;
mod choice;
mod cut;
mod view;

pub use choice::choose;
pub use cut::Cut;
