//! What is left of a constraint in a box, for bases, reified bases and arithmetic.
//!
//! What it is for: a residual problem is what is left of a model once domains have shrunk. [`reduce_plain`] gives what is
//! left of one constraint: fixed variables are their values, and what the bounds decide is left out. The crates above take
//! [`reduce_lin`], [`runs_of_values`] and the calls on terms for the other kinds.
//!
//! What contracts see: a view as the list of its domains, a term and a constraint as they are written, a set as its runs.
//! The form of a constraint is `plain_form` in `specs/Forms.antt`, one case a kind.
//!
//! What it promises: each call answers with its form, unless memory runs out. Of each constraint that keeps the limits of a
//! call and whose literals and truth terms are Booleans in the box: on each assignment of the box the form holds exactly
//! where the constraint does ([`forms_mean_the_same`]); it names open variables and constants alone
//! ([`forms_name_open_variables`]); and it keeps those limits too ([`forms_suit_the_box`]).
//!
//! What it costs: one pass over the constraint for each of its bounds and tests, and memory for what is left. The values
//! of a variable without a gap are one run, and a set is cut off at its bounds. Of a variable with gaps it goes over the
//! numbers between the bounds, at most 1,024, and looks each up in the set by halves.
//!
//! What it stands on: fzn_model for constraints and views.
#![tactic(auto)]

// What is left of a constraint.
mod reduced;

// Terms over a view, and their values as runs.
mod runs;
mod view;

// Bases, one kind a file.
mod clause;
mod lin;
mod member;

// Constraints.
mod arithmetic;
mod base;
mod plain;
mod reified;

// What holds of forms.
mod laws;

pub use base::{empty_clause, of_truth, reduce_lin};
pub use laws::{forms_mean_the_same, forms_name_open_variables, forms_suit_the_box};
pub use plain::reduce_plain;
pub use reduced::Reduced;
pub use runs::runs_of_values;
pub use view::{
    any_open_in, can_have, high_of, is_open_in, low_of, open_terms_in, size_of, substituted_in,
};
