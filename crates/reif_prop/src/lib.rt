//! Propagation of one kind of constraint: a base, which is a linear relation, a clause or a member of a set, holds exactly
//! where a term has a value.
//!
//! What it is for: [`ReifProp`] narrows a store for `Con::Reif(base, term, flag)`. The base holds exactly where the term is 1
//! (flag true), or exactly where it is 0 (flag false).
//!
//! What contracts see: the propagator as its constraint.
//!
//! What it promises: what each `Propagator` does. At `Kept`, the term is fixed where the bounds show that the base holds or
//! fails; where it says that the base fails, all literals of a clause are false, and no value of a member that is looked at
//! is in the set (`ReifIsOwed` of dom_store). Where all terms are fixed, the constraint holds. What a base must do where it
//! has to hold, and a linear one where it has to fail, is the work of other propagators.
//!
//! What it costs: no memory but that of the base. A pass looks at the term first. Where that is open, the base is judged: a
//! sum in one walk, and a second one only where its least is the number of an equation; a clause in one walk to its first true
//! literal; a member by the gaps and the runs of its set, in each to the first value of the variable. Where the term says that
//! the base holds, a pass looks only whether the bounds show that it fails; where it says that the base fails, only whether
//! those of a sum show that it holds, and it narrows the literals and values that are left.
//!
//! What it stands on: dom_store for stores, terms and the bounds of sums, fzn_model for constraints.
#![tactic(auto)]

// One term at one value.
mod at;

// What the bounds show of a base, and what is done where it has to fail: one file for each kind.
mod clause;
mod linear;
mod member;
mod values;
mod verdict;

// All bases, a whole pass, and the propagator.
mod judge;
mod pass_reified;
mod reif_prop;

pub use reif_prop::ReifProp;
