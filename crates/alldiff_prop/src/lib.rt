//! Propagation of one kind of constraint: the values of a list of terms differ in pairs, and none is among taken numbers.
//!
//! What it is for: [`AllDiffProp`] narrows a store for `Con::AllDiffExcept(members, taken)`. The taken numbers may have any
//! order and repeat. A term that stands twice among the members is two members: no assignment has the constraint then, which
//! is found out at the latest where all members are fixed.
//!
//! What contracts see: the propagator as its constraint, with the taken numbers as they were given.
//!
//! What it promises: what each `Propagator` does. Where it answers `Kept`, no bound of a member is taken; an interval from
//! the least value of a member to the greatest of a member has at most as many members within it as numbers that aren't
//! taken, and where exactly as many, both bounds of each other member lie outside (`AllDiffIsStrong` of dom_store: the Hall
//! intervals). Where all members are fixed, the constraint holds.
//!
//! What it costs: the taken numbers twice, once as given and once in order. A pass over `n` members with `t` taken numbers
//! sorts the members' bounds once by where they end, and looks along them once for each least value: `n * n * log(t + 1)`
//! steps, few each. Only from a least value from which something has to go it sorts again, and searches: `n * log(n)` steps
//! for each of these. The memory for the bounds grows with `n` and stays for later passes; where memory runs out, it answers
//! so, and what it removed until then no assignment with the constraint has. A pass that drops a taken bound looks for no
//! intervals. A run makes passes until one removes nothing.
//!
//! What it stands on: dom_store for stores and terms, fzn_model for constraints; its proofs, int_domain for ranges of numbers.
#![tactic(auto)]

// Numbers in order, and the taken ones.
mod rising;
mod taken;

// One term is narrowed.
mod strict;

// The bounds of all members, and whether they leave full intervals alone.
mod spans;
mod sweep;

// The parts of a pass, and a whole pass.
mod fulls;
mod highs;
mod narrow;
mod pass_all_different;
mod untaken;

// The propagator.
mod alldiff_prop;

pub use alldiff_prop::AllDiffProp;
