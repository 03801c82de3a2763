//! What is left of a constraint over lists in a box.
//!
//! What it is for: a residual problem is what is left of a model once domains have shrunk. [`reduce_global`] gives what is
//! left of one constraint over lists, as `reduce_plain` of rest_basic does for the other kinds.
//!
//! What contracts see: a view as the list of its domains, a constraint as it is written. The form of a constraint over
//! lists is `IsGlobalForm` in `specs/Forms.antt`, one case a kind.
//!
//! What it promises: the call answers with the form, unless memory runs out. Of each constraint that keeps the limits of a
//! call: on each assignment of the box the form holds exactly where the constraint does ([`global_forms_mean_the_same`]); it
//! names open variables and constants alone ([`global_forms_name_open_variables`]); it keeps those limits too where the
//! constraint keeps the limits of a model ([`global_forms_suit_the_box`]); and it is the only one
//! ([`global_forms_are_unique`]).
//!
//! What it costs: one pass over the constraint for each of its tests and lists, with a look at the view for each term, and
//! memory for what is left. Sorted are the taken and fixed values of values that differ, each of which is then looked up in
//! the open members until one can have it; the moments where used amounts and fixed tasks begin and end; and the rows of a
//! table.
//!
//! What it stands on: fzn_model for constraints and views, rest_basic for terms and the other kinds.
#![tactic(auto)]

// Terms and their values, and sets of numbers.
mod numbers;
mod rising;
mod values;

// The greatest and the least of a list, and an element of a list.
mod element;
mod extremes;

// Values that differ.
mod all_different;

// Tables.
mod table;
mod table_row;

// Cumulative tasks: what is used as runs, and its greatest amount.
mod cumulative;
mod peak;
mod used_runs;

// A constraint of any of these kinds.
mod global;

// What holds of forms.
mod laws;

pub use global::reduce_global;
pub use laws::{
    global_forms_are_unique, global_forms_mean_the_same, global_forms_name_open_variables,
    global_forms_suit_the_box,
};
