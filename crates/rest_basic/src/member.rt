//! Members of a set.

ghost use Rattle.std.specs.Prelude.{◌≡◌, ◌↔◌, ◌≤ℤ◌, IfOk, IsTrue, length};
ghost use Rattle.fzn_model.specs.Boxes.{IsDomain};
ghost use Rattle.fzn_model.specs.Grouping.{runs_of};
ghost use Rattle.fzn_model.specs.Limits.{TermIn};
ghost use Rattle.rest_basic.specs.Forms.{term_values, set_left, form_of_member};
ghost use Rattle.rest_basic.specs.Gathered.{HasRunOver};
ghost use Rattle.rest_basic.specs.Negating.{FormIsNegatable};

use crate::reduced::BaseForm;
use crate::runs::{bounds_of, runs_of_values, set_left};
use fzn_model::{Base, BoxView, Member, Runs, Term};
use std::alloc::{AllocError, Global};

/// Whether the runs are the same.
fn are_same(runs: &[(i64, i64)], others: &[(i64, i64)]) -> bool
    ensures { IsTrue result ↔ (runs.now ≡ others.now) }
{
    runs == others
}

/// Whether the sets are the same.
fn same_set(set: &Runs, other: &Runs) -> bool
    ensures { IsTrue result ↔ (set.now ≡ other.now) }
{
    are_same(set.runs.as_slice(), other.runs.as_slice())
}

/// The form of a member of a set, by what is left of the set and the values of the term.
#[tactic(auto, using(crate::proofs::MemberForm::form_holds, crate::proofs::MemberForm::form_fails, crate::proofs::MemberForm::form_left))]
fn form_by<V: BoxView>(x: Term, set: &Runs, left: Runs, values: &Runs, view: &V) -> BaseForm
    requires term { TermIn (length (V.shape view.now)) x }
    requires left { left ≡ set_left (V.shape view.now) set.now x }
    requires values { values.now ≡ runs_of (term_values (V.shape view.now) x) }
    requires well_formed { IsDomain (term_values (V.shape view.now) x) }
    ensures form { result ≡ form_of_member (V.shape view.now) x set.now }
    ensures turn { FormIsNegatable result }
{
    if same_set(&left, values) {
        return BaseForm::Holds;
    }
    if left.is_empty() {
        return BaseForm::Fails;
    }
    BaseForm::Is(Base::Member(Member { x, set: left }))
}

/// Whether the run has all numbers between the bounds.
fn encloses(run: &(i64, i64), bounds: &(i64, i64)) -> bool
    ensures { IsTrue result ↔ ((run.now.0 ≤ℤ bounds.now.0) × (bounds.now.1 ≤ℤ run.now.1)) }
{
    run.0 <= bounds.0 && bounds.1 <= run.1
}

/// Whether the first of these runs that ends at the lower bound or above it has all numbers between the bounds.
fn is_enclosed(set: &Runs, bounds: &(i64, i64)) -> bool
    ensures { IsTrue result → HasRunOver set.now bounds.now.0 bounds.now.1 }
{
    let runs = set.runs.as_slice();
    let place = set.first_reaching(&bounds.0);
    place < runs.len() && encloses(&runs[place], bounds)
}

/// The form of a member of a set that has some value of the term, and doesn't have one run over all of them.
fn form_between<V: BoxView>(
    alloc: Global,
    x: Term,
    set: &Runs,
    left: Runs,
    view: &V,
) -> Result<BaseForm, AllocError>
    requires term { TermIn (length (V.shape view.now)) x }
    requires left { left ≡ set_left (V.shape view.now) set.now x }
    requires well_formed { IsDomain (term_values (V.shape view.now) x) }
    ensures form { IfOk result (λ f. f ≡ form_of_member (V.shape view.now) x set.now) }
    ensures turn { IfOk result FormIsNegatable }
{
    let values = runs_of_values(alloc, x, view)?;
    Ok(form_by(x, set, left, &values, view))
}

/// The form of a member of a set. Takes no memory where one run of the set has all numbers between the bounds, nor where
/// the set has no value of a term without a gap.
#[tactic(auto, using(crate::proofs::MemberForm::enclosed_form, crate::proofs::MemberForm::empty_form))]
pub(crate) fn form_of_member<V: BoxView>(
    alloc: Global,
    x: Term,
    set: &Runs,
    view: &V,
) -> Result<BaseForm, AllocError>
    requires { TermIn (length (V.shape view.now)) x }
    ensures form { IfOk result (λ f. f ≡ form_of_member (V.shape view.now) x set.now) }
    ensures turn { IfOk result FormIsNegatable }
{
    let bounds = bounds_of(x, view);
    if is_enclosed(set, &bounds) {
        return Ok(BaseForm::Holds);
    }
    let left = set_left(alloc, x, set, view)?;
    if left.is_empty() {
        return Ok(BaseForm::Fails);
    }
    form_between(alloc, x, set, left, view)
}
