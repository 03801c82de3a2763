//! Sets of numbers below a limit, from which members are taken one by one.
//!
//! What it is for: the variables whose domains changed, those whose old domains are saved, and the propagators that wait
//! for a run, the cheap ones before the dear ones ([`RankedSet`]).
//!
//! What contracts see: a mark for each number.
//!
//! What it promises: a number is in the set from its [`MarkSet::add`] on until it is taken out; none else is. A dear number
//! is taken out only where no cheap one is in the set.
//!
//! What it costs: only [`MarkSet::new`] and [`RankedSet::new`] take memory. Adding takes a constant number of steps, and so
//! do taking and clearing for each number that was added.
//!
//! What it stands on: nothing but std.
#![tactic(auto)]

mod mark_set;
mod marks;
mod ranked_set;
#[cfg(test)]
mod tests;

pub use mark_set::MarkSet;
pub use ranked_set::RankedSet;
