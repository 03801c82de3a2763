//! A whole sum that has to be at most a number.
ghost use Rattle.std.specs.Prelude.{◌≤◌, ◌≤ℤ◌, ◌+ℤ◌, ◌-ℤ◌, ◌≡◌, ◌^◌, pos, length, unsigned_abs};
ghost use Rattle.fzn_model.specs.Limits.{SumInLimits};
ghost use Rattle.fzn_model.specs.Boxes.{IsBox};
ghost use Rattle.fzn_model.specs.Bounds.{sum_low};
ghost use Rattle.dom_store.specs.Steps.{Step};
ghost use Rattle.lin_prop.specs.Signed.{signed_all};
ghost use Rattle.dom_store.specs.Sums.{IsReach};
ghost use Rattle.lin_prop.specs.Capped.{SumIsAtMost, IsLow, low_by, SlackMeans};

use crate::scaled::cap_scaled;
use dom_store::{Passed, Reach, Store, reach_of, recall_domains};
use fzn_model::Term;

/// What the slack of a sum, how far its least is below a number, asks for.
#[derive(Clone, Copy)]
pub enum Slack {
    /// The least is above the number.
    Over,
    /// No term can rise too far.
    Ample,
    /// Each term may rise from its least by at most so much, and some term can rise further.
    Scarce(i64),
}

/// How far the least of a sum, or of its negative, is below a number.
fn left_below(negated: bool, reach: &Reach, most: &i128) -> i128
    requires { unsigned_abs most.now ≤ 2 ^ 101 }
    ensures { result ≡ most.now -ℤ low_by negated reach.now }
{
    if negated {
        *most + i128::from(reach.high)
    } else {
        *most - i128::from(reach.low)
    }
}

/// What so much slack asks for, where no term rises by more than `rise`.
fn slack_for(left: &i128, rise: &i64) -> Slack
    ensures { SlackMeans left.now rise.now result }
{
    if *left < 0 {
        return Slack::Over;
    }
    if *left >= i128::from(*rise) {
        return Slack::Ample;
    }
    Slack::Scarce(*left as i64)
}

/// What the slack of a sum, or of its negative, asks for.
pub fn slack_of(negated: bool, reach: &Reach, most: &i128) -> Slack
    requires { unsigned_abs most.now ≤ 2 ^ 101 }
    ensures { SlackMeans (most.now -ℤ low_by negated reach.now) reach.now.rise result }
{
    let left = left_below(negated, reach, most);
    slack_for(&left, &reach.rise)
}

/// Narrows each term of a sum whose least is so far below a number.
pub fn cap_terms(
    store: &mut Store,
    negated: bool,
    terms: &[(i64, Term)],
    most: &i128,
    slack: &i64,
) -> Passed
    requires limits { SumInLimits (length store.old.box) terms.now }
    requires slack { pos 0 ≤ℤ slack.now }
    requires sum { (slack.now +ℤ sum_low store.old.box (signed_all negated terms.now)) ≡ most.now }
    requires well_formed { IsBox store.old.box }
    ensures { Step (IsLow (signed_all negated terms.now) most.now) (SumIsAtMost (signed_all negated terms.now) most.now) store.old store.new result }
{
    for scaled in terms {
        match cap_scaled(store, negated, scaled, slack) {
            Passed::Empty => return Passed::Empty,
            Passed::Done => {}
        }
    }
    Passed::Done
}

/// Narrows each term of a sum, or of its negative, that has to be at most a number, where its reach is known.
#[tactic(auto, using(crate::proofs::Capping::reach_exceeds, crate::proofs::Capping::reach_ample, crate::proofs::Capping::reach_leaves))]
pub fn cap_within(
    store: &mut Store,
    negated: bool,
    terms: &[(i64, Term)],
    reach: &Reach,
    most: &i128,
) -> Passed
    requires limits { SumInLimits (length store.old.box) terms.now }
    requires most { unsigned_abs most.now ≤ 2 ^ 101 }
    requires reach { IsReach store.old.box terms.now reach.now }
    requires well_formed { IsBox store.old.box }
    ensures { Step (IsLow (signed_all negated terms.now) most.now) (SumIsAtMost (signed_all negated terms.now) most.now) store.old store.new result }
{
    match slack_of(negated, reach, most) {
        Slack::Over => Passed::Empty,
        Slack::Ample => Passed::Done,
        Slack::Scarce(slack) => cap_terms(store, negated, terms, most, &slack),
    }
}

/// Narrows each term of a sum, or of its negative, that has to be at most a number.
pub fn cap_sum(store: &mut Store, negated: bool, terms: &[(i64, Term)], most: &i128) -> Passed
    requires limits { SumInLimits (length store.old.box) terms.now }
    requires most { unsigned_abs most.now ≤ 2 ^ 101 }
    ensures { Step (IsLow (signed_all negated terms.now) most.now) (SumIsAtMost (signed_all negated terms.now) most.now) store.old store.new result }
{
    recall_domains(store);
    let reach = reach_of(store, terms);
    cap_within(store, negated, terms, &reach, most)
}
