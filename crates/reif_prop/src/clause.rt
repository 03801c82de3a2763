//! What the bounds show of a clause, and what is done where it has to fail.
ghost use Rattle.std.specs.Prelude.{◌≡◌, ◌↔◌, ◌⊎◌, pos, true, false, cond, All, Any, IsTrue, IsFalse, length};
ghost use Rattle.fzn_model.specs.declared.base.Base.TheVariants as base;
ghost use Rattle.fzn_model.specs.Boxes.{IsBox};
ghost use Rattle.reif_prop.specs.declared.verdict.Verdict.TheVariants as Verdict;
ghost use Rattle.fzn_model.specs.Limits.{TermIn, ClauseInLimits};
ghost use Rattle.fzn_model.specs.Bounds.{IsAt};
ghost use Rattle.dom_store.specs.Strength.{AllFalse};
ghost use Rattle.dom_store.specs.Bases.{clause_of};
ghost use Rattle.reif_prop.specs.Parts.{IsOver};
ghost use Rattle.dom_store.specs.Steps.{Step, Gives, Is, ValueIs};
ghost use Rattle.reif_prop.specs.Failing.{Fails};
ghost use Rattle.reif_prop.specs.Judging.{IsJudged, ListIsJudged, IsTested, HasFailed};
ghost use Rattle.reif_prop.specs.Denying.{AllHave, FirstAre, IsDenied};

use crate::at::is_at;
use crate::verdict::Verdict;
use dom_store::{Passed, Store, fix};
use fzn_model::Term;

/// Whether some term of a list has the value alone.
fn some_is_at(store: &Store, terms: &[Term], value: &i64) -> bool
    requires { All (TermIn (length store.now.box)) terms.now }
    ensures { IsTrue result ↔ Any (λ t. IsAt store.now.box t value.now) terms.now }
{
    terms.iter().any(|term| is_at(store, *term, value))
}

/// Whether all terms of a list have the value alone.
fn all_are_at(store: &Store, terms: &[Term], value: &i64) -> bool
    requires { All (TermIn (length store.now.box)) terms.now }
    ensures { IsTrue result ↔ All (λ t. IsAt store.now.box t value.now) terms.now }
{
    terms.iter().all(|term| is_at(store, *term, value))
}

/// Whether all literals are false.
#[tactic(auto, unfolding(dom_store::specs::Strength::AllFalse))]
fn are_false(store: &Store, pos: &[Term], neg: &[Term]) -> bool
    requires { ClauseInLimits (length store.now.box) (clause_of pos.now neg.now) }
    ensures { IsTrue result ↔ AllFalse store.now.box (clause_of pos.now neg.now) }
{
    all_are_at(store, pos, &0) && all_are_at(store, neg, &1)
}

/// What no true literal shows, by whether some literal isn't false.
fn verdict_of(unsure: bool) -> Verdict
    ensures { result ≡ cond unsure Verdict.Unknown Verdict.Refuted }
{
    if unsure {
        Verdict::Unknown
    } else {
        Verdict::Refuted
    }
}

/// Whether some term so far does not have the value alone.
fn opens(store: &Store, term: Term, value: &i64, unsure: bool) -> bool
    requires { TermIn (length store.now.box) term }
    ensures yes { IsTrue result → (unsure ≡ true) ⊎ (IsAt store.now.box term value.now → ⊥) }
    ensures no { IsFalse result → (unsure ≡ false) × IsAt store.now.box term value.now }
{
    unsure || !is_at(store, term, value)
}

/// What one walk over a list of literals shows: that one has the value alone, that all have the other, or neither.
#[tactic(auto, using(crate::proofs::Listing::some_at, crate::proofs::Listing::judged_by))]
fn judge_list(store: &Store, terms: &[Term], value: &i64, other: &i64) -> Verdict
    requires { All (TermIn (length store.now.box)) terms.now }
    ensures { ListIsJudged store.now.box terms.now value.now other.now result }
{
    let mut unsure = false;
    for term in terms {
        if is_at(store, *term, value) {
            return Verdict::Shown;
        }
        unsure = opens(store, *term, other, unsure);
    }
    verdict_of(unsure)
}

/// What is shown of a clause with an open literal.
#[tactic(auto, using(crate::proofs::Listing::open_shown, crate::proofs::Listing::open_unknown))]
fn judge_open(store: &Store, ones: &[Term], zeros: &[Term]) -> Verdict
    requires kept { ClauseInLimits (length store.now.box) (clause_of ones.now zeros.now) }
    requires open { ListIsJudged store.now.box ones.now (pos 1) (pos 0) Verdict.Unknown }
    ensures { IsJudged store.now.box (base.Clause (clause_of ones.now zeros.now)) result }
{
    if some_is_at(store, zeros, &0) {
        return Verdict::Shown;
    }
    Verdict::Unknown
}

/// What is shown of a clause.
#[tactic(auto, using(crate::proofs::Listing::first_shown, crate::proofs::Listing::then_judged))]
pub(crate) fn judge_clause(store: &Store, pos: &[Term], neg: &[Term]) -> Verdict
    requires { ClauseInLimits (length store.now.box) (clause_of pos.now neg.now) }
    ensures { IsJudged store.now.box (base.Clause (clause_of pos.now neg.now)) result }
{
    match judge_list(store, pos, &1, &0) {
        Verdict::Shown => Verdict::Shown,
        Verdict::Refuted => judge_list(store, neg, &0, &1),
        Verdict::Unknown => judge_open(store, pos, neg),
    }
}

/// Whether a clause that has to hold can't; a literal that isn't false ends the search.
#[tactic(auto, using(crate::proofs::Testing::clause_tested))]
pub(crate) fn clause_fails(store: &Store, pos: &[Term], neg: &[Term]) -> bool
    requires { IsOver store.now.box (base.Clause (clause_of pos.now neg.now)) }
    ensures { IsTested store.now.box (base.Clause (clause_of pos.now neg.now)) result }
{
    are_false(store, pos, neg)
}

/// Keeps one value of a term, which may have no other.
#[tactic(auto, using(crate::proofs::Clauses::at_idle))]
fn fix_once(store: &mut Store, term: Term, value: &i64) -> Passed
    requires well_formed { IsBox store.old.box }
    requires term { TermIn (length store.old.box) term }
    ensures { Step (ValueIs term value.now) (Gives (Is value.now) term) store.old store.new result }
{
    if is_at(store, term, value) {
        return Passed::Done;
    }
    fix(store, term, value)
}

/// Keeps one value of all terms of a list.
fn fix_all(store: &mut Store, terms: &[Term], value: &i64) -> Passed
    requires well_formed { IsBox store.old.box }
    requires terms { All (TermIn (length store.old.box)) terms.now }
    ensures { Step (FirstAre terms.now value.now (length terms.now)) (AllHave terms.now value.now) store.old store.new result }
{
    for term in terms {
        match fix_once(store, *term, value) {
            Passed::Empty => return Passed::Empty,
            Passed::Done => {}
        }
    }
    Passed::Done
}

/// Makes all literals of a clause false.
fn deny_clause(store: &mut Store, pos: &[Term], neg: &[Term]) -> Passed
    requires { IsOver store.old.box (base.Clause (clause_of pos.now neg.now)) }
    ensures { Step (IsDenied (base.Clause (clause_of pos.now neg.now))) (Fails (base.Clause (clause_of pos.now neg.now))) store.old store.new result }
{
    match fix_all(store, pos, &0) {
        Passed::Empty => return Passed::Empty,
        Passed::Done => {}
    }
    fix_all(store, neg, &1)
}

/// Makes all literals of a clause false that has to fail.
#[tactic(auto, using(crate::proofs::Testing::clause_step))]
pub(crate) fn deny_literals(store: &mut Store, pos: &[Term], neg: &[Term]) -> Passed
    requires { IsOver store.old.box (base.Clause (clause_of pos.now neg.now)) }
    ensures { Step (HasFailed (base.Clause (clause_of pos.now neg.now))) (Fails (base.Clause (clause_of pos.now neg.now))) store.old store.new result }
{
    deny_clause(store, pos, neg)
}
