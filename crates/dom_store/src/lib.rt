//! The domains of all variables, with levels, and what a propagator promises.
//!
//! What it is for: search narrows one [`Store`], and takes narrowings back by levels; each propagator narrows it for one
//! constraint.
//!
//! What contracts see: a store as `Stored` (`specs/Stores.antt`): its box, the list of the variables' values; the boxes
//! that its levels keep; the box at the latest settling, now and at each level; a mark for each variable whose domain
//! changed since the marks were taken away; and how often a narrowing changed a domain.
//!
//! What it promises: each narrowing does to the domain of its variable what `int_domain` says, and leaves all else.
//! [`Store::pop_level`] gives back exactly the domains at the matching [`Store::push_level`], and the settling at it. Only
//! the variables of [`Store::unsettled`] may differ from the latest settling, and only a variable with a mark from what it
//! was when the marks were taken away. [`cut_below`], [`cut_above`], [`fix`] and [`drop_value`] narrow variables and
//! constants alike, each as a step of a pass (`specs/Steps.antt`). [`bound`] and [`cut`] read and narrow one bound of a
//! term, which an [`Extreme`] names (`specs/Extremes.antt`), and [`reach_of`] tells both bounds of a sum (`specs/Sums.antt`).
//! A [`Propagator`] removes only values that no assignment of the box with its constraint has, and its answers have the
//! causes of `specs/Propagation.antt`; what it leaves at `Kept` is, kind by kind, in `specs/Strength.antt`.
//!
//! A propagator crate writes one [`Pass`] over its constraint; [`pass_on`] makes passes until one removes nothing, and stops
//! early. Each loop of narrowings ends because the number of all values falls (`box_size`).
//!
//! What it costs: the first narrowing of a variable since a level or settling began copies its domain to a trail (176 bytes),
//! from which [`Store::pop_level`] puts it back; so a level costs what changed in it. [`Store::new`],
//! [`Store::push_level`] and [`Store::settle`] take memory for a copy of each domain at most, where the trail doesn't have
//! it yet; no narrowing takes any.
//!
//! What it stands on: int_domain for one domain, mark_set for the variables that changed, fzn_model for models, constraints
//! and boxes.
#![tactic(auto)]

// One domain, all domains at one moment, the trail of those that were narrowed, and the store with its levels.
mod domain;
mod domains;
mod entry;
mod level;
mod store;
mod trail;

// Terms, variables and constants alike: their bounds, their narrowings as steps of a pass, the same for a bound that is
// named, and the bounds of sums.
mod extreme;
mod sums;
mod terms;

// One pass over a constraint, how several make a run, and what each propagator promises.
mod pass;
mod propagator;
#[cfg(test)]
mod tests;

pub use entry::Entry;
pub use extreme::{Extreme, bound, cut, opposite};
pub use int_domain::Narrow;
pub use pass::{Pass, Passed, pass_on};
pub use propagator::{Propagator, Ran};
pub use store::{Store, recall_domains};
pub use sums::{Reach, product, reach_of};
pub use terms::{can_have, cut_above, cut_below, drop_value, fix, greatest, is_wide, least};
