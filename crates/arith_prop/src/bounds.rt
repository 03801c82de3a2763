//! The bounds of a term, and the term of a list whose bound is the least or the greatest.
ghost use Rattle.std.specs.Prelude.{◌≡◌, length, IsTrue, IsFalse};
ghost use Rattle.fzn_model.specs.Limits.{TermIn, IsValue, ListInLimits};
ghost use Rattle.fzn_model.specs.Boxes.{IsBox};
ghost use Rattle.dom_store.specs.Extremes.{bound_of, Bounds};
ghost use Rattle.arith_prop.specs.Corners.{hull_of};
ghost use Rattle.arith_prop.specs.Extremes.{IsFurther, IsFurthest};

use dom_store::{Extreme, Store, bound, greatest, least};
use fzn_model::Term;

/// The least value of a term, and its greatest.
pub(crate) fn hull(store: &Store, term: Term) -> (i64, i64)
    requires { TermIn (length store.now.box) term }
    ensures value { result ≡ hull_of store.now.box term }
    ensures range { IsValue result.0 × IsValue result.1 }
    ensures well_formed { IsBox store.now.box }
{
    (least(store, term), greatest(store, term))
}

/// Whether the bound of the second term is within that of the first: at least it, or at most.
fn is_further(store: &Store, first: Term, second: Term, extreme: Extreme, bounds: Extreme) -> bool
    requires first { TermIn (length store.now.box) first }
    requires second { TermIn (length store.now.box) second }
    ensures yes { IsTrue result → Bounds extreme (bound_of bounds first store.now.box) (bound_of bounds second store.now.box) }
    ensures no { IsFalse result → Bounds extreme (bound_of bounds second store.now.box) (bound_of bounds first store.now.box) }
{
    match extreme {
        Extreme::Least => bound(store, first, bounds) <= bound(store, second, bounds),
        Extreme::Greatest => bound(store, second, bounds) <= bound(store, first, bounds),
    }
}

/// That of two terms with the lesser or the greater bound.
#[tactic(auto, using(crate::proofs::Bounding::first_further, crate::proofs::Bounding::second_further))]
fn further(store: &Store, first: Term, second: Term, extreme: Extreme, bounds: Extreme) -> Term
    requires first { TermIn (length store.now.box) first }
    requires second { TermIn (length store.now.box) second }
    ensures { IsFurther store.now.box extreme bounds first second result }
{
    if is_further(store, first, second, extreme, bounds) {
        first
    } else {
        second
    }
}

/// A term of the list with the least or the greatest bound.
#[tactic(auto, using(crate::proofs::Bounding::furthest_start))]
pub(crate) fn furthest(store: &Store, terms: &[Term], extreme: Extreme, bounds: Extreme) -> Term
    requires { ListInLimits (length store.now.box) terms.now }
    ensures bound { IsFurthest store.now.box extreme bounds (length terms.now) terms.now result }
    ensures inside { TermIn (length store.now.box) result }
{
    let mut best = terms[0];
    for term in terms {
        best = further(store, best, *term, extreme, bounds);
    }
    best
}
