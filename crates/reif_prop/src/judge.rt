//! What the bounds show of a base, and what is done where it has to fail.
ghost use Rattle.reif_prop.specs.Parts.{IsOver};
ghost use Rattle.dom_store.specs.Steps.{Step};
ghost use Rattle.reif_prop.specs.Failing.{Fails};
ghost use Rattle.reif_prop.specs.Judging.{IsJudged, IsTested, HasFailed};

use crate::clause::{clause_fails, deny_literals, judge_clause};
use crate::linear::{deny_linear, judge_linear, linear_fails};
use crate::member::{deny_values, judge_member, member_fails};
use crate::verdict::Verdict;
use dom_store::{Passed, Store};
use fzn_model::Base;

/// What the bounds show of a base.
pub(crate) fn judge(store: &Store, base: &Base) -> Verdict
    requires { IsOver store.now.box base.now }
    ensures { IsJudged store.now.box base.now result }
{
    match base {
        Base::Lin(lin) => judge_linear(store, lin.rel, lin.terms.as_slice(), &lin.r),
        Base::Clause(clause) => judge_clause(store, clause.pos.as_slice(), clause.neg.as_slice()),
        Base::Member(member) => judge_member(store, member.x, member.set.runs.as_slice()),
    }
}

/// Whether a base that has to hold can't.
pub(crate) fn base_fails(store: &Store, base: &Base) -> bool
    requires { IsOver store.now.box base.now }
    ensures { IsTested store.now.box base.now result }
{
    match base {
        Base::Lin(lin) => linear_fails(store, lin.rel, lin.terms.as_slice(), &lin.r),
        Base::Clause(clause) => clause_fails(store, clause.pos.as_slice(), clause.neg.as_slice()),
        Base::Member(member) => member_fails(store, member.x, member.set.runs.as_slice()),
    }
}

/// Narrows for a base that has to fail; what a linear one is owed is the work of another propagator.
pub(crate) fn deny(store: &mut Store, base: &Base) -> Passed
    requires { IsOver store.old.box base.now }
    ensures { Step (HasFailed base.now) (Fails base.now) store.old store.new result }
{
    match base {
        Base::Lin(lin) => deny_linear(store, lin.rel, lin.terms.as_slice(), &lin.r),
        Base::Clause(clause) => deny_literals(store, clause.pos.as_slice(), clause.neg.as_slice()),
        Base::Member(member) => deny_values(store, member.x, member.set.runs.as_slice()),
    }
}
