//! Bases.

ghost use Rattle.std.specs.Prelude.{◌≡◌, IfOk, length};
ghost use Rattle.fzn_model.specs.Limits.{BaseInLimits, SumInLimits, of_call};
ghost use Rattle.rest_basic.specs.Forms.{empty_clause, form_of, form_of_lin, of_form, of_truth};
ghost use Rattle.rest_basic.specs.Negating.{FormIsNegatable};

use crate::clause::form_of_clause;
use crate::lin::form_of_lin;
use crate::member::form_of_member;
use crate::reduced::{BaseForm, Reduced};
use fzn_model::{Base, BoxView, Clause, Con, List, Rel, Term};
use std::alloc::{AllocError, Global};

/// The constraint that never holds. Takes no memory.
pub fn empty_clause(alloc: Global) -> Con
    ensures { result ≡ empty_clause }
{
    Con::Base(Base::Clause(Clause {
        pos: List::new(alloc),
        neg: List::new(alloc),
    }))
}

/// What is left where all terms are fixed: nothing where the constraint holds, else the empty clause. Takes no memory.
pub fn of_truth(alloc: Global, truth: bool) -> Reduced
    ensures { result ≡ of_truth truth }
{
    if truth {
        Reduced::Holds
    } else {
        Reduced::Is(empty_clause(alloc))
    }
}

/// The form of a base.
pub(crate) fn form_of<V: BoxView>(
    alloc: Global,
    base: &Base,
    view: &V,
) -> Result<BaseForm, AllocError>
    requires { BaseInLimits of_call (length (V.shape view.now)) base.now }
    ensures form { IfOk result (λ f. f ≡ form_of (V.shape view.now) base.now) }
    ensures turn { IfOk result FormIsNegatable }
{
    match base {
        Base::Lin(lin) => form_of_lin(alloc, lin.rel, lin.terms.as_slice(), lin.r, view),
        Base::Clause(clause) => form_of_clause(
            alloc,
            clause.pos.as_slice(),
            clause.neg.as_slice(),
            view,
        ),
        Base::Member(member) => form_of_member(alloc, member.x, &member.set, view),
    }
}

/// What is left of a base that has to hold.
pub(crate) fn of_form(alloc: Global, form: BaseForm) -> Reduced
    ensures { result ≡ of_form form }
{
    match form {
        BaseForm::Holds => Reduced::Holds,
        BaseForm::Fails => Reduced::Is(empty_clause(alloc)),
        BaseForm::Is(base) => Reduced::Is(Con::Base(base)),
    }
}

/// What is left of a linear relation: that the sum of the terms, each with its coefficient, is at most, equal to or other
/// than `r`. The one error is that memory runs out.
pub fn reduce_lin<V: BoxView>(
    alloc: Global,
    rel: Rel,
    terms: &[(i64, Term)],
    r: i128,
    view: &V,
) -> Result<Reduced, AllocError>
    requires { SumInLimits (length (V.shape view.now)) terms.now }
    ensures { IfOk result (λ left. left ≡ of_form (form_of_lin (V.shape view.now) rel terms.now r)) }
{
    Ok(of_form(alloc, form_of_lin(alloc, rel, terms, r, view)?))
}
