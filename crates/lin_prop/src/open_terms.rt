//! The open terms of a sum, and what the others add up to.
ghost use Rattle.std.specs.Prelude.{◌≡◌, ◌<◌, ◌≤◌, ◌*◌, ◌+ℤ◌, length, unsigned_abs};
ghost use Rattle.fzn_model.specs.Values.{largest};
ghost use Rattle.fzn_model.specs.Limits.{SumInLimits};
ghost use Rattle.lin_prop.specs.Different.{IsStretch};

use dom_store::{Store, greatest, least, product};
use fzn_model::Term;

/// Fixed terms of a sum, one after another, up to an open one or to the end.
#[derive(Clone, Copy)]
pub struct Stretch {
    /// The place of the open term, or the number of all terms.
    pub end: usize,
    /// What the fixed ones add up to.
    pub sum: i64,
}

/// The fixed terms from a place on.
#[tactic(auto, using(crate::proofs::Opening::between_none, crate::proofs::Opening::between_more, crate::proofs::Opening::open_here))]
pub fn stretch_from(store: &Store, terms: &[(i64, Term)], from: usize) -> Stretch
    requires limits { SumInLimits (length store.now.box) terms.now }
    requires from { from ≤ length terms.now }
    ensures stretch { IsStretch store.now.box terms.now from result }
    ensures small { unsigned_abs result.sum ≤ largest * largest * length terms.now }
{
    let mut sum: i64 = 0;
    for i in from..terms.len() {
        let low = least(store, terms[i].1);
        if low != greatest(store, terms[i].1) {
            return Stretch { end: i, sum };
        }
        sum += product(&terms[i], low);
    }
    Stretch {
        end: terms.len(),
        sum,
    }
}
