//! What the bounds show of a member of a set, and what is done where it has to be outside.
ghost use Rattle.std.specs.Prelude.{◌≡◌, ◌↔◌, ◌≤ℤ◌, ◌+ℤ◌, pos, IsTrue, length};
ghost use Rattle.fzn_model.specs.declared.base.Base.TheVariants as base;
ghost use Rattle.fzn_model.specs.Sets.{IsWithin, AreRuns};
ghost use Rattle.fzn_model.specs.Boxes.{IsBox};
ghost use Rattle.fzn_model.specs.Limits.{IsValue, TermIn, MemberInLimits};
ghost use Rattle.dom_store.specs.Bases.{member_of};
ghost use Rattle.reif_prop.specs.Parts.{IsOver};
ghost use Rattle.dom_store.specs.Steps.{Step, Gives, IsNot, IsGone};
ghost use Rattle.reif_prop.specs.Failing.{Fails};
ghost use Rattle.reif_prop.specs.Judging.{IsJudged, IsTested, HasFailed};
ghost use Rattle.reif_prop.specs.Denying.{Misses, BoundIsOff, number_beside, AreOff, EachIsOff, RunIsOff, IsDenied};

use crate::values::{are_inside, are_outside, end_by, first_from};
use crate::verdict::Verdict;
use dom_store::{Extreme, Passed, Store, bound, can_have, cut, drop_value, is_wide};
use fzn_model::Term;

/// What is shown of a member of a set.
#[tactic(auto, unfolding(crate::specs::Judging::IsJudged, crate::specs::Values::AllInside, crate::specs::Values::AllOutside))]
pub(crate) fn judge_member(store: &Store, x: Term, set: &[(i64, i64)]) -> Verdict
    requires kept { MemberInLimits (length store.now.box) (member_of x set.now) }
    requires runs { AreRuns set.now }
    ensures { IsJudged store.now.box (base.Member (member_of x set.now)) result }
{
    if are_inside(store, x, set) {
        return Verdict::Shown;
    }
    if are_outside(store, x, set) {
        return Verdict::Refuted;
    }
    Verdict::Unknown
}

/// Whether a member of a set that has to be one can't; a value in the set ends the search.
#[tactic(auto, using(crate::proofs::Testing::member_tested))]
pub(crate) fn member_fails(store: &Store, x: Term, set: &[(i64, i64)]) -> bool
    requires over { IsOver store.now.box (base.Member (member_of x set.now)) }
    requires runs { AreRuns set.now }
    ensures { IsTested store.now.box (base.Member (member_of x set.now)) result }
{
    are_outside(store, x, set)
}

/// Whether a number is in a run.
#[tactic(auto, unfolding(fzn_model::specs::Sets::IsWithin))]
fn is_within(run: &(i64, i64), value: &i64) -> bool
    ensures { IsTrue result ↔ IsWithin run.now value.now }
{
    run.0 <= *value && *value <= run.1
}

/// The number after a run, or before it.
fn number_beside(extreme: Extreme, run: &(i64, i64)) -> i64
    requires low { IsValue run.now.0 }
    requires high { IsValue run.now.1 }
    ensures { result ≡ number_beside extreme run.now }
{
    match extreme {
        Extreme::Least => run.1 + 1,
        Extreme::Greatest => run.0 - 1,
    }
}

/// Raises the least value of a term past a run that has it, or lowers the greatest below the run.
fn leave_at(store: &mut Store, x: Term, extreme: Extreme, run: &(i64, i64)) -> Passed
    requires term { TermIn (length store.old.box) x }
    requires low { IsValue run.now.0 }
    requires high { IsValue run.now.1 }
    ensures { Step (BoundIsOff extreme x run.now) (Misses x run.now) store.old store.new result }
{
    let number = bound(store, x, extreme);
    if is_within(run, &number) {
        return cut(store, x, extreme, &number_beside(extreme, run));
    }
    Passed::Done
}

/// Drops a number from a term, which may not have it.
#[tactic(auto, using(crate::proofs::Members::gone_idle))]
fn drop_number(store: &mut Store, x: Term, value: i64) -> Passed
    requires { TermIn (length store.old.box) x }
    ensures { Step (IsGone x value) (Gives (IsNot value) x) store.old store.new result }
{
    if !can_have(store, x, value) {
        return Passed::Done;
    }
    drop_value(store, x, &value)
}

/// Drops each number of a run from `first` to below `end` from a term.
fn drop_from(store: &mut Store, x: Term, run: &(i64, i64), first: i64, end: i64) -> Passed
    requires well_formed { IsBox store.old.box }
    requires term { TermIn (length store.old.box) x }
    requires first { run.now.0 ≤ℤ first }
    requires end { end ≤ℤ (run.now.1 +ℤ pos 1) }
    ensures { Step (AreOff x first end) (Misses x run.now) store.old store.new result }
{
    for value in first..end {
        match drop_number(store, x, value) {
            Passed::Empty => return Passed::Empty,
            Passed::Done => {}
        }
    }
    Passed::Done
}

/// Drops each number of a run from a term, unless that is a variable without a bitmap.
fn drop_each(store: &mut Store, x: Term, run: &(i64, i64)) -> Passed
    requires term { TermIn (length store.old.box) x }
    ensures { Step (EachIsOff x run.now) (Misses x run.now) store.old store.new result }
{
    if is_wide(store, x) {
        return Passed::Done;
    }
    let first = first_from(store, x, &run.0);
    let end = end_by(store, x, &run.1);
    drop_from(store, x, run, first, end)
}

/// Drops what a term has of a run: its bounds, and each of its values where it has a bitmap.
fn drop_run(store: &mut Store, x: Term, run: &(i64, i64)) -> Passed
    requires term { TermIn (length store.old.box) x }
    requires low { IsValue run.now.0 }
    requires high { IsValue run.now.1 }
    ensures { Step (RunIsOff x run.now) (Misses x run.now) store.old store.new result }
{
    match leave_at(store, x, Extreme::Least, run) {
        Passed::Empty => return Passed::Empty,
        Passed::Done => {}
    }
    match leave_at(store, x, Extreme::Greatest, run) {
        Passed::Empty => return Passed::Empty,
        Passed::Done => {}
    }
    drop_each(store, x, run)
}

/// Drops what a term has of a set.
fn deny_member(store: &mut Store, x: Term, set: &[(i64, i64)]) -> Passed
    requires { IsOver store.old.box (base.Member (member_of x set.now)) }
    ensures { Step (IsDenied (base.Member (member_of x set.now))) (Fails (base.Member (member_of x set.now))) store.old store.new result }
{
    for run in set {
        match drop_run(store, x, run) {
            Passed::Empty => return Passed::Empty,
            Passed::Done => {}
        }
    }
    Passed::Done
}

/// Drops what a term has of a set that it has to be outside.
#[tactic(auto, using(crate::proofs::Testing::member_step))]
pub(crate) fn deny_values(store: &mut Store, x: Term, set: &[(i64, i64)]) -> Passed
    requires { IsOver store.old.box (base.Member (member_of x set.now)) }
    ensures { Step (HasFailed (base.Member (member_of x set.now))) (Fails (base.Member (member_of x set.now))) store.old store.new result }
{
    deny_member(store, x, set)
}
