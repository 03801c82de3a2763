//! Propagation of products, sizes, divisions, and of the greatest or the least of a list.
//!
//! What it is for: search calls an [`ArithProp`] for each of these constraints whenever one of its domains changed.
//!
//! What contracts see: a propagator as its constraint.
//!
//! What it promises: after `Kept`, the result of a product lies within the four products of the bounds of the factors; a
//! size lies within the sizes of the numbers between the bounds of its argument; the result of a division of two fixed
//! terms is fixed; the greatest of a list is at least each low and at most some high of the members, each of which is at
//! most its high, and the least the other way round. Where all terms are fixed, the constraint holds. The factors, and the
//! arguments of sizes and divisions, are not narrowed.
//!
//! What it costs: a pass reads each bound of a product, a size or a division once; a pass over a list walks it three times.
//! Only [`ArithProp::new`] takes memory.
//!
//! What it stands on: dom_store for domains and runs of passes, fzn_model for constraints.
#![tactic(auto)]

// The bounds of terms, and the term of a list whose bound is the least or the greatest.
mod bounds;

// One pass over each kind.
mod abs;
mod division;
mod extremes;
mod times;

// The propagator of all of them.
mod arith_prop;

pub use arith_prop::ArithProp;
