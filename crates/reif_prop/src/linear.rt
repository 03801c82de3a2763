//! What the bounds show of a linear relation, each from one walk over its sum.
ghost use Rattle.std.specs.Prelude.{◌≡◌, ◌↔◌, ◌⊎◌, ◌≤ℤ◌, ◌<ℤ◌, length, IsTrue};
ghost use Rattle.fzn_model.specs.declared.lin.Rel.TheVariants.{Le, Eq, Ne};
ghost use Rattle.fzn_model.specs.Limits.{TermIn, SumInLimits};
ghost use Rattle.fzn_model.specs.Bounds.{IsFixed, sum_low, sum_high};
ghost use Rattle.dom_store.specs.Strength.{SumIsFixed, LinIsShown, LinIsRefuted};
ghost use Rattle.dom_store.specs.Steps.{Step};
ghost use Rattle.reif_prop.specs.Parts.{relation, IsOver};
ghost use Rattle.reif_prop.specs.Failing.{Fails};
ghost use Rattle.reif_prop.specs.Judging.{IsJudged, IsTested, HasFailed};

use crate::verdict::{Verdict, opposite};
use dom_store::{Passed, Reach, Store, greatest, least, reach_of};
use fzn_model::{Rel, Term};

/// Whether a term has one value.
fn is_fixed(store: &Store, term: Term) -> bool
    requires { TermIn (length store.now.box) term }
    ensures { IsTrue result ↔ IsFixed store.now.box term }
{
    least(store, term) == greatest(store, term)
}

/// Whether no term of a sum is open.
#[tactic(auto, unfolding(dom_store::specs::Strength::SumIsFixed))]
fn are_fixed(store: &Store, parts: &[(i64, Term)]) -> bool
    requires { SumInLimits (length store.now.box) parts.now }
    ensures { IsTrue result ↔ SumIsFixed store.now.box parts.now }
{
    parts.iter().all(|part| is_fixed(store, part.1))
}

/// Whether a sum is at most a number for sure.
fn is_at_most(reach: &Reach, r: &i128) -> bool
    ensures { IsTrue result ↔ (reach.now.high ≤ℤ r.now) }
{
    i128::from(reach.high) <= *r
}

/// Whether a sum is above a number for sure.
fn is_above(reach: &Reach, r: &i128) -> bool
    ensures { IsTrue result ↔ (r.now <ℤ reach.now.low) }
{
    *r < i128::from(reach.low)
}

/// Whether a sum is below a number for sure.
fn is_below(reach: &Reach, r: &i128) -> bool
    ensures { IsTrue result ↔ (reach.now.high <ℤ r.now) }
{
    i128::from(reach.high) < *r
}

/// Whether the least of a sum is the number.
fn is_number(reach: &Reach, r: &i128) -> bool
    ensures { IsTrue result ↔ (reach.now.low ≡ r.now) }
{
    i128::from(reach.low) == *r
}

/// Whether a sum is different from a number for sure.
fn is_apart(reach: &Reach, r: &i128) -> bool
    ensures { IsTrue result ↔ ((r.now <ℤ reach.now.low) ⊎ (reach.now.high <ℤ r.now)) }
{
    is_above(reach, r) || is_below(reach, r)
}

/// Whether a sum of fixed terms is the number; most sums have another least, and aren't looked through.
fn is_exactly(store: &Store, parts: &[(i64, Term)], reach: &Reach, r: &i128) -> bool
    requires { SumInLimits (length store.now.box) parts.now }
    ensures { IsTrue result ↔ (SumIsFixed store.now.box parts.now × (reach.now.low ≡ r.now)) }
{
    is_number(reach, r) && are_fixed(store, parts)
}

/// What is shown of a sum that is to be at most a number.
#[tactic(auto, using(crate::proofs::Bounding::most_shown, crate::proofs::Bounding::most_refuted, crate::proofs::Bounding::most_unknown))]
fn judge_at_most(store: &Store, parts: &[(i64, Term)], r: &i128) -> Verdict
    requires { SumInLimits (length store.now.box) parts.now }
    ensures { IsJudged store.now.box (relation Le parts.now r.now) result }
{
    let reach = reach_of(store, parts);
    if is_at_most(&reach, r) {
        return Verdict::Shown;
    }
    if is_above(&reach, r) {
        return Verdict::Refuted;
    }
    Verdict::Unknown
}

/// What is shown of a sum that is to be equal to a number.
#[tactic(auto, using(crate::proofs::Bounding::equal_shown, crate::proofs::Bounding::equal_refuted, crate::proofs::Bounding::equal_unknown))]
fn judge_equal(store: &Store, parts: &[(i64, Term)], r: &i128) -> Verdict
    requires { SumInLimits (length store.now.box) parts.now }
    ensures { IsJudged store.now.box (relation Eq parts.now r.now) result }
{
    let reach = reach_of(store, parts);
    if is_apart(&reach, r) {
        return Verdict::Refuted;
    }
    if is_exactly(store, parts, &reach, r) {
        return Verdict::Shown;
    }
    Verdict::Unknown
}

/// What is shown of a linear relation.
pub(crate) fn judge_linear(store: &Store, rel: Rel, parts: &[(i64, Term)], r: &i128) -> Verdict
    requires { SumInLimits (length store.now.box) parts.now }
    ensures { IsJudged store.now.box (relation rel parts.now r.now) result }
{
    match rel {
        Rel::Le => judge_at_most(store, parts, r),
        Rel::Eq => judge_equal(store, parts, r),
        Rel::Ne => opposite(judge_equal(store, parts, r)),
    }
}

/// Whether the least of a sum is above a number.
#[tactic(auto, using(crate::proofs::Bounding::sum_above))]
fn sum_is_above(store: &Store, parts: &[(i64, Term)], r: &i128) -> bool
    requires { SumInLimits (length store.now.box) parts.now }
    ensures { IsTrue result ↔ (r.now <ℤ sum_low store.now.box parts.now) }
{
    is_above(&reach_of(store, parts), r)
}

/// Whether the greatest of a sum is at most a number.
#[tactic(auto, using(crate::proofs::Bounding::sum_at_most))]
fn sum_is_at_most(store: &Store, parts: &[(i64, Term)], r: &i128) -> bool
    requires { SumInLimits (length store.now.box) parts.now }
    ensures { IsTrue result ↔ (sum_high store.now.box parts.now ≤ℤ r.now) }
{
    is_at_most(&reach_of(store, parts), r)
}

/// Whether a sum is different from a number for sure.
#[tactic(auto, using(crate::proofs::Bounding::sum_apart))]
fn sum_is_apart(store: &Store, parts: &[(i64, Term)], r: &i128) -> bool
    requires { SumInLimits (length store.now.box) parts.now }
    ensures { IsTrue result ↔ ((r.now <ℤ sum_low store.now.box parts.now) ⊎ (sum_high store.now.box parts.now <ℤ r.now)) }
{
    is_apart(&reach_of(store, parts), r)
}

/// Whether the least of a sum is the number.
#[tactic(auto, using(crate::proofs::Bounding::sum_number))]
fn sum_is_number(store: &Store, parts: &[(i64, Term)], r: &i128) -> bool
    requires { SumInLimits (length store.now.box) parts.now }
    ensures { IsTrue result ↔ (sum_low store.now.box parts.now ≡ r.now) }
{
    is_number(&reach_of(store, parts), r)
}

/// Whether no term of a sum is open, and the sum is the number; an open term ends the search.
fn sum_is_exactly(store: &Store, parts: &[(i64, Term)], r: &i128) -> bool
    requires { SumInLimits (length store.now.box) parts.now }
    ensures { IsTrue result ↔ (SumIsFixed store.now.box parts.now × (sum_low store.now.box parts.now ≡ r.now)) }
{
    are_fixed(store, parts) && sum_is_number(store, parts, r)
}

/// Whether the bounds show that a linear relation holds.
fn is_shown(store: &Store, rel: Rel, parts: &[(i64, Term)], r: &i128) -> bool
    requires { SumInLimits (length store.now.box) parts.now }
    ensures { IsTrue result ↔ LinIsShown store.now.box rel parts.now r.now }
{
    match rel {
        Rel::Le => sum_is_at_most(store, parts, r),
        Rel::Eq => sum_is_exactly(store, parts, r),
        Rel::Ne => sum_is_apart(store, parts, r),
    }
}

/// Whether they show that it fails.
fn is_refuted(store: &Store, rel: Rel, parts: &[(i64, Term)], r: &i128) -> bool
    requires { SumInLimits (length store.now.box) parts.now }
    ensures { IsTrue result ↔ LinIsRefuted store.now.box rel parts.now r.now }
{
    match rel {
        Rel::Le => sum_is_above(store, parts, r),
        Rel::Eq => sum_is_apart(store, parts, r),
        Rel::Ne => sum_is_exactly(store, parts, r),
    }
}

/// Whether a linear relation that has to hold can't.
#[tactic(auto, using(crate::proofs::Testing::linear_tested))]
pub(crate) fn linear_fails(store: &Store, rel: Rel, parts: &[(i64, Term)], r: &i128) -> bool
    requires { SumInLimits (length store.now.box) parts.now }
    ensures { IsTested store.now.box (relation rel parts.now r.now) result }
{
    is_refuted(store, rel, parts, r)
}

/// Whether a linear relation that has to fail can; to narrow for its opposite is the work of another propagator.
#[tactic(auto, using(crate::proofs::Testing::linear_none, crate::proofs::Testing::linear_idle))]
pub(crate) fn deny_linear(store: &mut Store, rel: Rel, parts: &[(i64, Term)], r: &i128) -> Passed
    requires { IsOver store.old.box (relation rel parts.now r.now) }
    ensures { Step (HasFailed (relation rel parts.now r.now)) (Fails (relation rel parts.now r.now)) store.old store.new result }
{
    if is_shown(store, rel, parts, r) {
        return Passed::Empty;
    }
    Passed::Done
}
