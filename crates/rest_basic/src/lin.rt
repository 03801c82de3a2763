//! Linear relations.

ghost use Rattle.std.specs.Prelude.{◌≡◌, ◌≤◌, ◌*◌, ◌^◌, ◌*ℤ◌, unsigned_abs, IfOk, All, length};
ghost use Rattle.fzn_model.specs.declared.lin.Rel.TheVariants as rel;
ghost use Rattle.fzn_model.specs.Values.{largest};
ghost use Rattle.fzn_model.specs.Limits.{IsValue, TermIn, SumInLimits};
ghost use Rattle.fzn_model.specs.Bounds.{scaled_low, scaled_high, sum_low, sum_high};
ghost use Rattle.rest_basic.specs.Forms.{fixed_product, fixed_sum, open_linear_terms, some_open, left_of, form_of_le, form_of_eq, form_of_ne, form_of_lin};
ghost use Rattle.rest_basic.specs.Negating.{FormIsNegatable};

use crate::reduced::BaseForm;
use crate::view::{high_of, is_open_in, low_of};
use fzn_model::{Base, BoxView, Lin, List, Rel, Term};
use std::alloc::{AllocError, Global};

/// The least and the greatest of a sum, and the sum of its fixed terms.
#[derive(Clone, Copy)]
struct Sums {
    low: i128,
    high: i128,
    fixed: i128,
}

/// Coefficient times value.
fn product(factor: i64, value: i64) -> i128
    requires factor { IsValue factor }
    requires value { IsValue value }
    ensures value { result ≡ factor *ℤ value }
    ensures small { unsigned_abs result ≤ largest * largest }
{
    i128::from(factor) * i128::from(value)
}

/// The least and the greatest value of one term of a sum, and its value where it is fixed, else 0.
fn sums_of_term<V: BoxView>(term: &(i64, Term), view: &V) -> Sums
    requires factor { IsValue term.now.0 }
    requires term { TermIn (length (V.shape view.now)) term.now.1 }
    ensures low { result.low ≡ scaled_low (V.shape view.now) term.now }
    ensures high { result.high ≡ scaled_high (V.shape view.now) term.now }
    ensures fixed { result.fixed ≡ fixed_product (V.shape view.now) term.now }
    ensures small_low { unsigned_abs result.low ≤ largest * largest }
    ensures small_high { unsigned_abs result.high ≤ largest * largest }
    ensures small_fixed { unsigned_abs result.fixed ≤ largest * largest }
{
    let low = product(term.0, low_of(term.1, view));
    let high = product(term.0, high_of(term.1, view));
    let fixed = if is_open_in(term.1, view) { 0 } else { low };
    Sums {
        low: low.min(high),
        high: low.max(high),
        fixed,
    }
}

/// These of a whole sum.
#[tactic(auto, unfolding(crate::specs::Forms::fixed_sum))]
fn sums_of<V: BoxView>(terms: &[(i64, Term)], view: &V) -> Sums
    requires { SumInLimits (length (V.shape view.now)) terms.now }
    ensures low { result.low ≡ sum_low (V.shape view.now) terms.now }
    ensures high { result.high ≡ sum_high (V.shape view.now) terms.now }
    ensures fixed { result.fixed ≡ fixed_sum (V.shape view.now) terms.now }
    ensures small_low { unsigned_abs result.low ≤ 2 ^ 61 }
    ensures small_high { unsigned_abs result.high ≤ 2 ^ 61 }
    ensures small_fixed { unsigned_abs result.fixed ≤ 2 ^ 61 }
{
    let mut low: i128 = 0;
    let mut high: i128 = 0;
    let mut fixed: i128 = 0;
    for term in terms {
        let sums = sums_of_term(term, view);
        low += sums.low;
        high += sums.high;
        fixed += sums.fixed;
    }
    Sums { low, high, fixed }
}

/// Whether the term of some term has several values.
#[tactic(auto, unfolding(crate::specs::Forms::some_open))]
fn some_open<V: BoxView>(terms: &[(i64, Term)], view: &V) -> bool
    requires { SumInLimits (length (V.shape view.now)) terms.now }
    ensures { result ≡ some_open (V.shape view.now) terms.now }
{
    terms.iter().any(|term| is_open_in(term.1, view))
}

/// The terms whose term has several values, in order.
#[tactic(auto, unfolding(crate::specs::Forms::open_linear_terms))]
fn open_linear_terms<V: BoxView>(
    alloc: Global,
    terms: &[(i64, Term)],
    view: &V,
) -> Result<List<(i64, Term)>, AllocError>
    requires { SumInLimits (length (V.shape view.now)) terms.now }
    ensures value { IfOk result (λ left. left ≡ open_linear_terms (V.shape view.now) terms.now) }
    ensures factors { IfOk result (λ left. All (λ t. IsValue t.0) left) }
{
    let mut left = List::new(alloc);
    for term in terms {
        if is_open_in(term.1, view) {
            left.push(*term)?;
        }
    }
    Ok(left)
}

/// The open terms, against the number less the sum of the fixed ones.
#[tactic(auto, unfolding(crate::specs::Forms::left_of))]
fn left_of<V: BoxView>(
    alloc: Global,
    rel: Rel,
    terms: &[(i64, Term)],
    r: i128,
    fixed: i128,
    view: &V,
) -> Result<BaseForm, AllocError>
    requires kept { SumInLimits (length (V.shape view.now)) terms.now }
    requires fixed { fixed ≡ fixed_sum (V.shape view.now) terms.now }
    requires small { unsigned_abs r ≤ 2 ^ 62 }
    requires small_fixed { unsigned_abs fixed ≤ 2 ^ 61 }
    ensures form { IfOk result (λ f. f ≡ left_of (V.shape view.now) rel terms.now r) }
    ensures turn { IfOk result FormIsNegatable }
{
    Ok(BaseForm::Is(Base::Lin(Lin {
        rel,
        terms: open_linear_terms(alloc, terms, view)?,
        r: r - fixed,
    })))
}

/// The form of a linear relation, by the bounds of its sum and by whether some term is open.
#[tactic(auto, unfolding(crate::specs::Forms::form_of_le, crate::specs::Forms::form_of_eq, crate::specs::Forms::form_of_ne))]
pub(crate) fn form_of_lin<V: BoxView>(
    alloc: Global,
    rel: Rel,
    terms: &[(i64, Term)],
    r: i128,
    view: &V,
) -> Result<BaseForm, AllocError>
    requires { SumInLimits (length (V.shape view.now)) terms.now }
    ensures form { IfOk result (λ f. f ≡ form_of_lin (V.shape view.now) rel terms.now r) }
    ensures turn { IfOk result FormIsNegatable }
{
    let sums = sums_of(terms, view);
    let outside = r < sums.low || sums.high < r;
    match rel {
        Rel::Le if sums.high <= r => Ok(BaseForm::Holds),
        Rel::Le if r < sums.low => Ok(BaseForm::Fails),
        Rel::Eq if outside => Ok(BaseForm::Fails),
        Rel::Eq if !some_open(terms, view) => Ok(BaseForm::Holds),
        Rel::Ne if outside => Ok(BaseForm::Holds),
        Rel::Ne if !some_open(terms, view) => Ok(BaseForm::Fails),
        rel => left_of(alloc, rel, terms, r, sums.fixed, view),
    }
}
