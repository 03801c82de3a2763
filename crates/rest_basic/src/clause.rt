//! Clauses.

ghost use Rattle.std.specs.Prelude.{◌≡◌, IfOk, All, length};
ghost use Rattle.fzn_model.specs.Limits.{TermIn, ClauseInLimits};
ghost use Rattle.rest_basic.specs.Forms.{is_at, any_at, form_of_clause};
ghost use Rattle.rest_basic.specs.Negating.{FormIsNegatable};

use crate::reduced::BaseForm;
use crate::view::{any_open_in, high_of, low_of, open_terms_in};
use fzn_model::{Base, BoxView, Clause, Term};
use std::alloc::{AllocError, Global};

/// Whether the term has this one value.
#[tactic(auto, unfolding(crate::specs::Forms::is_at))]
fn is_at<V: BoxView>(term: Term, value: i64, view: &V) -> bool
    requires { TermIn (length (V.shape view.now)) term }
    ensures { result ≡ is_at (V.shape view.now) value term }
{
    low_of(term, view) == value && high_of(term, view) == value
}

/// Whether some term of a list has this one value.
#[tactic(auto, unfolding(crate::specs::Forms::any_at))]
fn any_at<V: BoxView>(terms: &[Term], value: i64, view: &V) -> bool
    requires { All (TermIn (length (V.shape view.now))) terms.now }
    ensures { result ≡ any_at (V.shape view.now) value terms.now }
{
    terms.iter().any(|term| is_at(*term, value, view))
}

/// The form of a clause.
#[tactic(auto, unfolding(crate::specs::Forms::form_of_clause))]
pub(crate) fn form_of_clause<V: BoxView>(
    alloc: Global,
    pos: &[Term],
    neg: &[Term],
    view: &V,
) -> Result<BaseForm, AllocError>
    requires pos { All (TermIn (length (V.shape view.now))) pos.now }
    requires neg { All (TermIn (length (V.shape view.now))) neg.now }
    ensures form { IfOk result (λ f. f ≡ form_of_clause (V.shape view.now) pos.now neg.now) }
    ensures turn { IfOk result FormIsNegatable }
{
    if any_at(pos, 1, view) || any_at(neg, 0, view) {
        return Ok(BaseForm::Holds);
    }
    if any_open_in(pos, view) || any_open_in(neg, view) {
        return Ok(BaseForm::Is(Base::Clause(Clause {
            pos: open_terms_in(alloc, pos, view)?,
            neg: open_terms_in(alloc, neg, view)?,
        })));
    }
    Ok(BaseForm::Fails)
}
