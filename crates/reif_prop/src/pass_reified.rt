//! A whole pass.
ghost use Rattle.std.specs.Prelude.{◌≡◌, ◌↔◌, IsTrue, not, length};
ghost use Rattle.fzn_model.specs.declared.con.Con.TheVariants as con;
ghost use Rattle.fzn_model.specs.Meaning.{bit, Holds};
ghost use Rattle.fzn_model.specs.Limits.{TermIn};
ghost use Rattle.fzn_model.specs.Boxes.{IsBox};
ghost use Rattle.fzn_model.specs.Bounds.{IsAt};
ghost use Rattle.fzn_model.specs.Booleans.{FitsBox};
ghost use Rattle.dom_store.specs.Narrowing.{Prunes};
ghost use Rattle.dom_store.specs.Passes.{Concludes};
ghost use Rattle.dom_store.specs.Steps.{Step, Gives, Is, ValueIs};
ghost use Rattle.dom_store.specs.Strength.{ConIsOwed};

use crate::at::is_at;
use crate::judge::{base_fails, deny, judge};
use crate::verdict::Verdict;
use dom_store::{Passed, Store, fix, recall_domains};
use fzn_model::{Base, Term};

/// The number of a truth value.
fn bit(flag: bool) -> i64
    ensures { result ≡ bit flag }
{
    i64::from(flag)
}

/// Fixes a term to a truth value.
fn fix_bit(store: &mut Store, term: Term, flag: bool) -> Passed
    requires { TermIn (length store.old.box) term }
    ensures { Step (ValueIs term (bit flag)) (Gives (Is (bit flag)) term) store.old store.new result }
{
    fix(store, term, &bit(flag))
}

/// Whether a term is fixed to a truth value.
fn is_bit(store: &Store, term: Term, flag: bool) -> bool
    requires { TermIn (length store.now.box) term }
    ensures { IsTrue result ↔ IsAt store.now.box term (bit flag) }
{
    is_at(store, term, &bit(flag))
}

/// Fixes an open term where the bounds show that the base holds or fails.
#[tactic(auto, using(crate::proofs::Owing::unknown_idle, crate::proofs::Owing::over_base, crate::proofs::Owing::term_in))]
fn fix_term(store: &mut Store, base: &Base, term: Term, flag: bool) -> Passed
    requires well_formed { IsBox store.old.box }
    requires fits_box { FitsBox store.old.box (con.Reif base.now term flag) }
    requires not_must { IsAt store.old.box term (bit flag) → ⊥ }
    requires not_denied { IsAt store.old.box term (bit (not flag)) → ⊥ }
    ensures { Step (ConIsOwed (con.Reif base.now term flag)) (Holds (con.Reif base.now term flag)) store.old store.new result }
{
    match judge(store, base) {
        Verdict::Shown => fix_bit(store, term, flag),
        Verdict::Refuted => fix_bit(store, term, !flag),
        Verdict::Unknown => Passed::Done,
    }
}

/// Looks whether the base can hold, where the term says that it does; to narrow for it is the work of another propagator.
#[tactic(auto, using(crate::proofs::Owing::must_none, crate::proofs::Owing::must_idle, crate::proofs::Owing::over_base))]
fn keep_base(store: &mut Store, base: &Base, term: Term, flag: bool) -> Passed
    requires well_formed { IsBox store.old.box }
    requires fits_box { FitsBox store.old.box (con.Reif base.now term flag) }
    requires must { IsAt store.old.box term (bit flag) }
    ensures { Step (ConIsOwed (con.Reif base.now term flag)) (Holds (con.Reif base.now term flag)) store.old store.new result }
{
    if base_fails(store, base) {
        return Passed::Empty;
    }
    Passed::Done
}

/// Narrows for the base where the term says that it fails.
#[tactic(auto, using(crate::proofs::Owing::failed_step, crate::proofs::Owing::over_base))]
fn deny_base(store: &mut Store, base: &Base, term: Term, flag: bool) -> Passed
    requires well_formed { IsBox store.old.box }
    requires fits_box { FitsBox store.old.box (con.Reif base.now term flag) }
    requires denied { IsAt store.old.box term (bit (not flag)) }
    ensures { Step (ConIsOwed (con.Reif base.now term flag)) (Holds (con.Reif base.now term flag)) store.old store.new result }
{
    deny(store, base)
}

/// Narrows by what the term says of the base, and by what the bounds show of the base where the term is open.
#[tactic(auto, using(crate::proofs::Owing::term_in))]
fn narrow_reified(store: &mut Store, base: &Base, term: Term, flag: bool) -> Passed
    requires { FitsBox store.old.box (con.Reif base.now term flag) }
    ensures { Step (ConIsOwed (con.Reif base.now term flag)) (Holds (con.Reif base.now term flag)) store.old store.new result }
{
    recall_domains(store);
    if is_bit(store, term, flag) {
        return keep_base(store, base, term, flag);
    }
    if is_bit(store, term, !flag) {
        return deny_base(store, base, term, flag);
    }
    fix_term(store, base, term, flag)
}

/// One pass over a base that holds exactly where a term has a value.
#[tactic(auto, using(dom_store::proofs::Stepping::step_concludes))]
pub(crate) fn pass_reified(store: &mut Store, base: &Base, term: Term, flag: bool) -> Passed
    requires { FitsBox store.old.box (con.Reif base.now term flag) }
    ensures prunes { Prunes (Holds (con.Reif base.now term flag)) store.old store.new }
    ensures means { Concludes (con.Reif base.now term flag) store.old.box store.new.box result }
{
    narrow_reified(store, base, term, flag)
}
