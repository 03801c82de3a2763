//! Terms and their values.

ghost use Rattle.std.specs.Prelude.{◌≡◌, ◌∷◌, ◌++◌, [], IfOk, OnOk, All, length};
ghost use Rattle.fzn_model.specs.Limits.{TermIn};
ghost use Rattle.rest_forms.specs.Forms.{fixed_values, term_has};

use fzn_model::{BoxView, Term};
use rest_basic::{can_have, is_open_in, low_of};
use std::alloc::{AllocError, Global};

/// Whether the term can have the value.
pub(crate) fn term_has<V: BoxView>(term: Term, value: &i64, view: &V) -> bool
    requires { TermIn (length (V.shape view.now)) term }
    ensures { result ≡ term_has (V.shape view.now) value.now term }
{
    can_have(term, *value, view)
}

/// Adds a number at the end.
pub(crate) fn push(list: &mut Vec<i64>, number: &i64) -> Result<(), AllocError>
    ensures { OnOk result (list.new.items ≡ list.old.items ++ number.now ∷ []) }
{
    list.push(*number)?;
    Ok(())
}

/// The values of the terms that have one alone, in order.
#[tactic(auto, unfolding(crate::specs::Forms::fixed_values))]
pub(crate) fn fixed_values<V: BoxView>(
    alloc: Global,
    terms: &[Term],
    view: &V,
) -> Result<Vec<i64>, AllocError>
    requires { All (TermIn (length (V.shape view.now))) terms.now }
    ensures { IfOk result (λ values. values.items ≡ fixed_values (V.shape view.now) terms.now) }
{
    let mut values = Vec::new(alloc);
    for term in terms {
        if !is_open_in(*term, view) {
            values.push(low_of(*term, view))?;
        }
    }
    Ok(values)
}
