//! The rest of a box: a residual problem over the variables that are open there.
//!
//! What it is for: search projects its subproblem onto the variables that are open, and looks for a finished one that
//! dominates it. [`project`] makes that residual problem of a model and a view of the domains. [`reduce_global`], which
//! gives what is left of one constraint over lists, and its laws are those of rest_forms.
//!
//! What contracts see: a view as the list of its domains, a model and a residual problem as the records of their parts.
//! The rest of a box is `IsRestOfBox` in `specs/Projection.antt`; `specs/Projected.antt` says what a projection answers.
//!
//! What it promises: [`project`] answers with the rest and its offset, unless memory runs out; a rest that has more words
//! than the limit of the call is [`Wide`]. The solutions of the box that cost less than the bound are, on the open
//! variables, exactly those of the rest that cost less than the bound less the offset, and their costs differ by it
//! ([`rests_keep_solutions`]); a box has one rest ([`rests_are_unique`]).
//!
//! What it costs: one pass over the domains and over the constraints, and memory for what is left. Each variable's place
//! among the open ones stands in a table. Words are counted as the rest grows; beyond the limit each further constraint
//! that is left is counted and dropped.
//!
//! What it stands on: fzn_model for models, views and residual problems, rest_basic and rest_forms for what is left of a
//! constraint, rest_key for the counts of words.
#![tactic(auto)]

// What an answer is.
mod projected;
mod wide;

// The rest of a box: the open variables and their numbers, domains, constraints, cost, and whole.
mod cost;
mod domains;
mod labelled;
mod numbering;
mod renamed;
mod rest;

// What holds of rests.
mod laws;

pub use laws::{rests_are_unique, rests_keep_solutions};
pub use projected::Projected;
pub use rest::project;
pub use rest_forms::{
    global_forms_are_unique, global_forms_mean_the_same, global_forms_name_open_variables,
    global_forms_suit_the_box, reduce_global,
};
pub use wide::Wide;
