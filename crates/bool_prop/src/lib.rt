//! Propagation of clauses, and of terms that lie in a constant set.
//!
//! What it is for: one [`ClauseProp`] narrows a store for one clause, or for one term that lies in a constant set.
//!
//! What contracts see: a propagator as its constraint.
//!
//! What it promises: what each propagator does. At `Kept`, the clause has a true literal or two open ones; of the term,
//! each value of a variable with a bitmap, each bound of one without, and a constant, lies in the set.
//!
//! What it costs: a pass over a clause reads each list up to its second open literal; where it found one or none in all,
//! it reads them once more. A pass over a member takes two binary searches in the set, and one more for each value of a
//! variable with a bitmap. No pass takes memory.
//!
//! What it stands on: dom_store for stores and passes in a row, fzn_model for constraints.
#![tactic(auto)]

// One pass over each kind.
mod clause;
mod member;
mod neighbours;

// The propagator of both, with constraints of its own.
mod clause_prop;

pub use clause_prop::ClauseProp;
