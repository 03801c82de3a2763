//! A finite-domain model, and what it means.
//!
//! What it is for: the language of the whole solver. A model has variables with finite domains of whole numbers,
//! constraints, a goal, outputs and search annotations; an assignment is a list of values, one for each variable.
//!
//! What contracts see: [`List`] and [`Runs`] as lists, [`Model`] as the record of its parts, all else as it is written.
//!
//! What it promises: [`satisfies`] is true exactly on the solutions, and [`cost_of`] and [`top_of`] are the cost of an
//! assignment and one more than the greatest cost. The type `Model` keeps that variables are in range, that Booleans
//! lie within 0..1, and the limits: 100,000 variables, 400,000 constraints, lists of 2,000,000 members, numbers in
//! -1,000,000..1,000,000. A [`Rest`] keeps the same with more room, and one label for each constraint. The meaning of each constraint is `Holds` in `specs/Meaning.antt`, one case a kind.
//!
//! What it stands on: nothing but std.
#![tactic(auto)]

// Parts of which all is made.
mod list;
mod runs;
mod term;

// Constraints, one family a file: its type, and whether it holds.
mod all_different;
mod arithmetic;
mod base;
mod clause;
mod con;
mod cumulative;
mod element;
mod extremes;
mod lin;
mod member;
mod table;

// What a store of domains shows of itself.
mod box_view;

// A model, its solutions and their cost.
mod goal;
mod model;
mod out;
mod pick;
mod rest;

pub use base::Base;
pub use box_view::BoxView;
pub use clause::Clause;
pub use con::Con;
pub use cumulative::{CumTask, Used};
pub use goal::Goal;
pub use lin::{Lin, Rel};
pub use list::List;
pub use member::Member;
pub use model::{Model, cost_of, satisfies, top_of};
pub use out::Out;
pub use pick::{Pick, ValAt, VarBy};
pub use rest::Rest;
pub use runs::Runs;
pub use term::{LARGEST_VALUE, Term};
