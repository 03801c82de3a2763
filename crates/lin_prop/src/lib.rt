//! Propagation of linear relations: a sum of coefficients times terms that is at most, equal to, or different from a
//! number.
//!
//! What it is for: [`LinProp`] narrows a store for one such relation.
//!
//! What contracts see: a propagator as its constraint.
//!
//! What it promises: the promise of every propagator (`dom_store`, `specs/Propagation.antt`), with the strength of linear
//! relations: at most, each term's greatest and the least of all others together; equal to, the same both ways; different
//! from, the one value of the last open term. Variables may stand twice, and coefficients may be 0. Sums are kept in 64 bits,
//! which they fit by the limits on lists and numbers, and only the number that they are set against in 128.
//!
//! What it costs: a pass walks once over the terms, for both directions, where no term rises by more than the sum's slack,
//! and else once more to cut them; it divides only for terms that are cut, and takes no memory. For a sum that is to differ it
//! stops at the second open term. A run that removes nothing is one pass.
//!
//! What it stands on: dom_store for the store and the bounds of sums, fzn_model for constraints.
#![tactic(auto)]

// From the bounds of a sum to a whole pass, for each kind of relation.
mod capped;
mod different;
mod open_terms;
mod scaled;

// The propagator.
mod lin_prop;

pub use lin_prop::LinProp;
