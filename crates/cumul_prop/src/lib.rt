//! Propagation of one kind of constraint: tasks that share a capacity, beside amounts of it that are used up.
//!
//! What it is for: [`CumulProp`] narrows a store for `Con::CumulUsed(tasks, used, capacity)`. At each whole moment the used
//! amounts and what the tasks use add up to at most the capacity; starts, lengths, uses and the capacity may be variables,
//! and no length and no use is negative.
//!
//! What contracts see: the propagator as its constraint.
//!
//! What it promises: what each `Propagator` does. Where it answers `Kept`, what is used for sure fits at each moment that is
//! looked at, and each task of some length and use fits at its first and at its last start (`CumulIsStrong` of dom_store).
//! Where all terms are fixed, the constraint holds. A first start that doesn't fit because of a moment goes at once to where
//! the first of the amounts ends that are used there; a last start goes back to where its task ends at that moment.
//!
//! What it costs: a pass over n tasks and used amounts takes a number of steps that grows with the square of n, and less
//! where few tasks have a compulsory part. The memory for the compulsory parts, for what is used where they begin, and for
//! what the starts can be, stays for later passes. A run makes passes until one removes nothing.
//!
//! What it stands on: dom_store for stores and terms, fzn_model for constraints.
#![tactic(auto)]

// What is used for sure: compulsory parts, and how much is used at which moments.
mod parts;
mod profile;

// Where a task fits, and what its start can be.
mod fits;
mod limits;

// The parts of a pass, and a whole pass.
mod narrow;
mod pass_cumulative;
mod signs;
mod starts;

// The propagator.
mod cumul_prop;

pub use cumul_prop::CumulProp;
