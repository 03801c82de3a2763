//! One term of a sum that has to be at most a number.
ghost use Rattle.std.specs.Prelude.{◌≡◌, ◌+◌, ◌≤ℤ◌, ◌<ℤ◌, ◌+ℤ◌, ◌-ℤ◌, ◌*ℤ◌, ◌*◌, pos, length, unsigned_abs, IsTrue, IsFalse};
ghost use Rattle.fzn_model.specs.Values.{largest};
ghost use Rattle.fzn_model.specs.Limits.{IsValue, IsNear, TermIn};
ghost use Rattle.fzn_model.specs.Bounds.{term_low, term_high, scaled_low};
ghost use Rattle.dom_store.specs.Steps.{NarrowsTerm, IsAtLeast, IsAtMost, LowIs, HighIs};
ghost use Rattle.lin_prop.specs.Signed.{signed};
ghost use Rattle.dom_store.specs.Sums.{RisesWithin};
ghost use Rattle.lin_prop.specs.Capped.{ScaledIsAtMost};

use dom_store::{Passed, Store, cut_above, cut_below, greatest, least};
use fzn_model::{LARGEST_VALUE, Term};

/// More than any domain is wide.
const WIDE: i64 = 2 * LARGEST_VALUE + 1;

/// A coefficient, or its negative.
fn factor(negated: bool, scaled: &(i64, Term)) -> i64
    requires { IsValue scaled.now.0 }
    ensures value { result ≡ (signed negated scaled.now).0 }
    ensures small { IsValue result }
{
    if negated { -scaled.0 } else { scaled.0 }
}

/// Whether the product rises with the term, or stays.
fn rises(negated: bool, scaled: &(i64, Term)) -> bool
    requires { IsValue scaled.now.0 }
    ensures up { IsTrue result → pos 0 ≤ℤ (signed negated scaled.now).0 }
    ensures down { IsFalse result → (signed negated scaled.now).0 <ℤ pos 0 }
{
    factor(negated, scaled) >= 0
}

/// How often the second number goes into the first.
#[tactic(auto, using(crate::proofs::Quotients::quotient))]
fn quotient(slack: i64, size: i64) -> i64
    requires slack { pos 0 ≤ℤ slack }
    requires size { pos 0 <ℤ size }
    ensures low { pos 0 ≤ℤ result }
    ensures fits { (size *ℤ result) ≤ℤ slack }
    ensures next { slack <ℤ (size *ℤ (result +ℤ pos 1)) }
{
    slack / size
}

/// The same, but at most as often as any domain is wide.
#[tactic(auto, using(crate::proofs::Quotients::fewer))]
fn times_in(slack: i64, size: i64) -> i64
    requires slack { pos 0 ≤ℤ slack }
    requires size { pos 0 <ℤ size }
    ensures low { pos 0 ≤ℤ result }
    ensures high { result ≤ℤ pos (2 * largest + 1) }
    ensures fits { (size *ℤ result) ≤ℤ slack }
    ensures next { result <ℤ pos (2 * largest + 1) → slack <ℤ (size *ℤ (result +ℤ pos 1)) }
{
    let count = quotient(slack, size);
    if count >= WIDE {
        return WIDE;
    }
    count
}

/// Cuts a term above so many steps from its least value.
fn cut_above_steps(store: &mut Store, term: Term, least: &i64, steps: i64) -> Passed
    requires term { TermIn (length store.old.box) term }
    requires least { least.now ≡ term_low store.old.box term }
    requires value { IsValue least.now }
    requires low { pos 0 ≤ℤ steps }
    requires high { steps ≤ℤ pos (2 * largest + 1) }
    ensures { NarrowsTerm (IsAtMost (term_low store.old.box term +ℤ steps)) (HighIs term (term_low store.old.box term +ℤ steps)) term store.old store.new result }
{
    let high = *least + steps;
    cut_above(store, term, &high)
}

/// Cuts a term below so many steps from its greatest value.
fn cut_below_steps(store: &mut Store, term: Term, greatest: &i64, steps: i64) -> Passed
    requires term { TermIn (length store.old.box) term }
    requires greatest { greatest.now ≡ term_high store.old.box term }
    requires value { IsValue greatest.now }
    requires low { pos 0 ≤ℤ steps }
    requires high { steps ≤ℤ pos (2 * largest + 1) }
    ensures { NarrowsTerm (IsAtLeast (term_high store.old.box term -ℤ steps)) (LowIs term (term_high store.old.box term -ℤ steps)) term store.old store.new result }
{
    let low = *greatest - steps;
    cut_below(store, term, &low)
}

/// The size of a coefficient.
fn size_of(scaled: &(i64, Term)) -> i64
    requires { IsValue scaled.now.0 }
    ensures value { result ≡ pos (unsigned_abs scaled.now.0) }
    ensures range { pos 0 ≤ℤ result }
    ensures small { IsValue result }
{
    scaled.0.abs()
}

/// How far a value is above another.
fn width_of(low: &i64, high: &i64) -> i64
    requires low { IsValue low.now }
    requires high { IsValue high.now }
    ensures value { result ≡ high.now -ℤ low.now }
    ensures small { IsNear result }
{
    *high - *low
}

/// A size times a width.
fn times(size: i64, width: i64) -> i64
    requires size { IsValue size }
    requires width { IsNear width }
    ensures { result ≡ size *ℤ width }
{
    size * width
}

/// How far a coefficient times a term rises between two values of the term.
fn rise_of(scaled: &(i64, Term), low: &i64, high: &i64) -> i64
    requires factor { IsValue scaled.now.0 }
    requires low { IsValue low.now }
    requires high { IsValue high.now }
    ensures { result ≡ pos (unsigned_abs scaled.now.0) *ℤ (high.now -ℤ low.now) }
{
    times(size_of(scaled), width_of(low, high))
}

/// Whether that is at most so much.
fn is_covered(scaled: &(i64, Term), low: &i64, high: &i64, slack: &i64) -> bool
    requires factor { IsValue scaled.now.0 }
    requires low { IsValue low.now }
    requires high { IsValue high.now }
    ensures yes { IsTrue result → (pos (unsigned_abs scaled.now.0) *ℤ (high.now -ℤ low.now)) ≤ℤ slack.now }
    ensures no { IsFalse result → slack.now <ℤ (pos (unsigned_abs scaled.now.0) *ℤ (high.now -ℤ low.now)) }
{
    rise_of(scaled, low, high) <= *slack
}

/// Narrows a term so that its coefficient times it rises from its least by at most so much. Where its bounds are near
/// enough, nothing is divided.
#[tactic(auto, using(crate::proofs::Scaling::some_size))]
pub fn cap_scaled(store: &mut Store, negated: bool, scaled: &(i64, Term), slack: &i64) -> Passed
    requires factor { IsValue scaled.now.0 }
    requires term { TermIn (length store.old.box) scaled.now.1 }
    requires slack { pos 0 ≤ℤ slack.now }
    ensures { NarrowsTerm (ScaledIsAtMost (signed negated scaled.now) (slack.now +ℤ scaled_low store.old.box (signed negated scaled.now))) (RisesWithin slack.now (signed negated scaled.now)) scaled.now.1 store.old store.new result }
{
    let low = least(store, scaled.1);
    let high = greatest(store, scaled.1);
    if is_covered(scaled, &low, &high, slack) {
        return Passed::Done;
    }
    let size = size_of(scaled);
    let steps = times_in(*slack, size);
    if rises(negated, scaled) {
        cut_above_steps(store, scaled.1, &low, steps)
    } else {
        cut_below_steps(store, scaled.1, &high, steps)
    }
}
