//! The values that a term has, against a set.
ghost use Rattle.std.specs.Prelude.{◌≡◌, ◌↔◌, ◌+◌, ◌≤◌, ◌≤ℤ◌, ◌+ℤ◌, ℤ, pos, All, IsTrue, length};
ghost use Rattle.std.specs.Int.{int_min, int_max};
ghost use Rattle.fzn_model.specs.Sets.{AreRuns};
ghost use Rattle.fzn_model.specs.Boxes.{IsBox};
ghost use Rattle.fzn_model.specs.Limits.{IsValue, TermIn};
ghost use Rattle.fzn_model.specs.Bounds.{term_low, term_high, TermHas};
ghost use Rattle.reif_prop.specs.Values.{HasWithin, IsFreeOf, HasInGap, IsPast, IsBefore, AllInside, AllOutside};

use dom_store::{Store, can_have, greatest, least};
use fzn_model::Term;

/// The least value of a term, or a number where that is greater.
pub(crate) fn first_from(store: &Store, x: Term, low: &i64) -> i64
    requires term { TermIn (length store.now.box) x }
    ensures value { result ≡ int_max low.now (term_low store.now.box x) }
    ensures well_formed { IsBox store.now.box }
{
    (*low).max(least(store, x))
}

/// One more than the greatest value of a term, or than a number where that is less.
pub(crate) fn end_by(store: &Store, x: Term, high: &i64) -> i64
    requires term { TermIn (length store.now.box) x }
    ensures value { result ≡ (int_min high.now (term_high store.now.box x) +ℤ pos 1) }
    ensures well_formed { IsBox store.now.box }
{
    (*high).min(greatest(store, x)) + 1
}

/// Whether a term can have a value from `low` to `high`. Where its values have no gap, the first number tells.
fn has_within(store: &Store, x: Term, low: &i64, high: &i64) -> bool
    requires term { TermIn (length store.now.box) x }
    ensures { IsTrue result ↔ HasWithin store.now.box x low.now high.now }
{
    let first = first_from(store, x, low);
    let end = end_by(store, x, high);
    for value in first..end {
        if can_have(store, x, value) {
            return true;
        }
    }
    false
}

/// The first number of a term that is in the gap before a place of a set, or above it.
fn gap_low(store: &Store, x: Term, set: &[(i64, i64)], place: usize) -> i64
    requires term { TermIn (length store.now.box) x }
    requires set { All (λ run. IsValue run.0 × IsValue run.1) set.now }
    requires place { place ≤ length set.now }
    ensures { (v : ℤ) → TermHas store.now.box x v → (IsPast set.now place v ↔ (result ≤ℤ v)) }
{
    if place == 0 {
        return least(store, x);
    }
    set[place - 1].1 + 1
}

/// The last number of a term that is in the gap before a place of a set, or below it.
fn gap_high(store: &Store, x: Term, set: &[(i64, i64)], place: usize) -> i64
    requires term { TermIn (length store.now.box) x }
    requires set { All (λ run. IsValue run.0 × IsValue run.1) set.now }
    requires place { place ≤ length set.now }
    ensures { (v : ℤ) → TermHas store.now.box x v → (IsBefore set.now place v ↔ (v ≤ℤ result)) }
{
    if place == set.len() {
        return greatest(store, x);
    }
    set[place].0 - 1
}

/// Whether a term can have a value in the gap before a place of a set.
fn has_in_gap(store: &Store, x: Term, set: &[(i64, i64)], place: usize) -> bool
    requires term { TermIn (length store.now.box) x }
    requires set { All (λ run. IsValue run.0 × IsValue run.1) set.now }
    requires place { place ≤ length set.now }
    ensures { IsTrue result ↔ HasInGap store.now.box x set.now place }
{
    let low = gap_low(store, x, set, place);
    let high = gap_high(store, x, set, place);
    has_within(store, x, &low, &high)
}

/// Whether all values of a term are in a set.
#[tactic(auto, using(crate::proofs::Finding::gap_outside, crate::proofs::Finding::gaps_none, crate::proofs::Finding::gaps_more, crate::proofs::Finding::gaps_all))]
pub(crate) fn are_inside(store: &Store, x: Term, set: &[(i64, i64)]) -> bool
    requires term { TermIn (length store.now.box) x }
    requires set { All (λ run. IsValue run.0 × IsValue run.1) set.now }
    requires runs { AreRuns set.now }
    ensures { IsTrue result ↔ AllInside store.now.box x set.now }
{
    for place in 0..set.len() + 1 {
        if has_in_gap(store, x, set, place) {
            return false;
        }
    }
    true
}

/// Whether a term can have no number of a run.
#[tactic(auto, unfolding(crate::specs::Values::IsFreeOf))]
fn is_free_of(store: &Store, x: Term, run: &(i64, i64)) -> bool
    requires { TermIn (length store.now.box) x }
    ensures { IsTrue result ↔ IsFreeOf store.now.box x run.now }
{
    !has_within(store, x, &run.0, &run.1)
}

/// Whether a term can have no number of all runs.
fn is_free_of_all(store: &Store, x: Term, set: &[(i64, i64)]) -> bool
    requires { TermIn (length store.now.box) x }
    ensures { IsTrue result ↔ All (IsFreeOf store.now.box x) set.now }
{
    set.iter().all(|run| is_free_of(store, x, run))
}

/// Whether no value of a term is in a set.
#[tactic(auto, using(crate::proofs::Finding::runs_outside, crate::proofs::Finding::outside_runs))]
pub(crate) fn are_outside(store: &Store, x: Term, set: &[(i64, i64)]) -> bool
    requires term { TermIn (length store.now.box) x }
    ensures { IsTrue result ↔ AllOutside store.now.box x set.now }
{
    is_free_of_all(store, x, set)
}
