//! Reified bases.

ghost use Rattle.std.specs.Prelude.{◌≡◌, IfOk, length};
ghost use Rattle.fzn_model.specs.Limits.{BaseInLimits, TermIn, of_call};
ghost use Rattle.rest_basic.specs.Forms.{negated_base, negated_form, truth_is, open_reif_form, reif_form};
ghost use Rattle.rest_basic.specs.Negating.{BaseIsNegatable, FormIsNegatable};

use crate::base::{empty_clause, form_of, of_form};
use crate::reduced::{BaseForm, Reduced};
use crate::view::{is_open_in, low_of};
use fzn_model::{Base, BoxView, Con, Lin, List, Rel, Term};
use std::alloc::{AllocError, Global};

/// The negation of a base, of which `truth`, a constant, is not the value of the flag.
fn negated_base(alloc: Global, base: Base, truth: Term, flag: bool) -> Result<Con, AllocError>
    requires { BaseIsNegatable base }
    ensures { IfOk result (λ con. con ≡ negated_base base truth flag) }
{
    match base {
        Base::Lin(lin) => Ok(Con::Base(Base::Lin(lin.opposite(alloc)?))),
        other => Ok(Con::Reif(other, truth, flag)),
    }
}

/// What is left of a base that has to fail.
fn negated_form(
    alloc: Global,
    form: BaseForm,
    truth: Term,
    flag: bool,
) -> Result<Reduced, AllocError>
    requires { FormIsNegatable form }
    ensures { IfOk result (λ left. left ≡ negated_form form truth flag) }
{
    match form {
        BaseForm::Holds => Ok(Reduced::Is(empty_clause(alloc))),
        BaseForm::Fails => Ok(Reduced::Holds),
        BaseForm::Is(base) => Ok(Reduced::Is(negated_base(alloc, base, truth, flag)?)),
    }
}

/// That the term has the value of the flag.
fn truth_is(alloc: Global, truth: Term, flag: bool) -> Result<Reduced, AllocError>
    ensures { IfOk result (λ left. left ≡ truth_is truth flag) }
{
    let mut terms = List::new(alloc);
    terms.push((1, truth))?;
    Ok(Reduced::Is(Con::Base(Base::Lin(Lin {
        rel: Rel::Eq,
        terms,
        r: i128::from(flag),
    }))))
}

/// What is left of a reified base whose truth term is open.
fn open_reif_form(
    alloc: Global,
    form: BaseForm,
    truth: Term,
    flag: bool,
) -> Result<Reduced, AllocError>
    ensures { IfOk result (λ left. left ≡ open_reif_form form truth flag) }
{
    match form {
        BaseForm::Holds => truth_is(alloc, truth, flag),
        BaseForm::Fails => truth_is(alloc, truth, !flag),
        BaseForm::Is(base) => Ok(Reduced::Is(Con::Reif(base, truth, flag))),
    }
}

/// What is left of a reified base.
#[tactic(auto, unfolding(crate::specs::Forms::reif_form))]
pub(crate) fn form_of_reif<V: BoxView>(
    alloc: Global,
    base: &Base,
    truth: Term,
    flag: bool,
    view: &V,
) -> Result<Reduced, AllocError>
    requires base { BaseInLimits of_call (length (V.shape view.now)) base.now }
    requires truth { TermIn (length (V.shape view.now)) truth }
    ensures { IfOk result (λ left. left ≡ reif_form (V.shape view.now) base.now truth flag) }
{
    let form = form_of(alloc, base, view)?;
    if is_open_in(truth, view) {
        return open_reif_form(alloc, form, truth, flag);
    }
    let value = low_of(truth, view);
    if value == i64::from(flag) {
        return Ok(of_form(alloc, form));
    }
    negated_form(alloc, form, Term::Const(value), flag)
}
