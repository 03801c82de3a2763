//! A whole sum that has to differ from a number.
ghost use Rattle.std.specs.Prelude.{◌≡◌, ◌≢◌, ◌≤◌, ◌<◌, ◌*◌, ◌^◌, ◌*ℤ◌, ◌-ℤ◌, pos, length, unsigned_abs, int_div, IsTrue, IsFalse, IfSome, IfNone};
ghost use Rattle.fzn_model.specs.Values.{largest};
ghost use Rattle.fzn_model.specs.Limits.{IsValue, SumInLimits};
ghost use Rattle.fzn_model.specs.Boxes.{IsBox};
ghost use Rattle.dom_store.specs.Steps.{Step};
ghost use Rattle.lin_prop.specs.Different.{Differs, IsApart, Excludes, IsOneOpen, IsStretch, LeavesFor};

use crate::open_terms::{Stretch, stretch_from};
use dom_store::{Passed, Store, drop_value, recall_domains};
use fzn_model::{LARGEST_VALUE, Term};

/// The greatest product of a coefficient and a value.
const FAR: i64 = LARGEST_VALUE * LARGEST_VALUE;

/// The quotient, rounded towards zero.
fn quotient_of(product: &i64, factor: &i64) -> i64
    requires some { factor.now ≢ pos 0 }
    requires product { unsigned_abs product.now ≤ largest * largest }
    ensures { result ≡ int_div product.now factor.now }
{
    *product / *factor
}

/// Whether a number is a value of the language.
fn is_value(value: &i64) -> bool
    ensures value { IsTrue result → IsValue value.now }
    ensures none { IsFalse result → IsValue value.now → ⊥ }
{
    value.unsigned_abs() <= LARGEST_VALUE.unsigned_abs()
}

/// Whether a factor gives the product with a value.
fn gives(factor: &i64, value: &i64, product: &i64) -> bool
    requires factor { IsValue factor.now }
    requires value { IsValue value.now }
    ensures value { IsTrue result → (value.now *ℤ factor.now) ≡ product.now }
    ensures none { IsFalse result → (value.now *ℤ factor.now) ≡ product.now → ⊥ }
{
    *value * *factor == *product
}

/// The value that gives this product with a factor, where there is one.
#[tactic(auto, using(crate::proofs::Quotients::excluded_range, crate::proofs::Quotients::excluded_product))]
fn divided(product: &i64, factor: &i64) -> Option<i64>
    requires factor { IsValue factor.now }
    requires some { factor.now ≢ pos 0 }
    requires product { unsigned_abs product.now ≤ largest * largest }
    ensures some { IfSome result (λ value. (factor.now *ℤ value) ≡ product.now) }
    ensures none { IfNone result (Excludes factor.now product.now) }
{
    let value = quotient_of(product, factor);
    if !is_value(&value) {
        return None;
    }
    if !gives(factor, &value, product) {
        return None;
    }
    Some(value)
}

/// Whether a product is none of a coefficient and a value.
fn is_far(product: &i128) -> bool
    ensures far { IsTrue result → largest * largest < unsigned_abs product.now }
    ensures near { IsFalse result → unsigned_abs product.now ≤ largest * largest }
{
    product.unsigned_abs() > FAR.unsigned_abs().into()
}

/// A product of a coefficient and a value, in fewer bits.
fn narrowed(product: &i128) -> i64
    requires { unsigned_abs product.now ≤ largest * largest }
    ensures value { result ≡ product.now }
    ensures small { unsigned_abs result ≤ largest * largest }
{
    *product as i64
}

/// The value that gives this number with a factor, where there is one.
#[tactic(auto, using(crate::proofs::Quotients::excluded_far))]
fn value_for(left: &i128, factor: &i64) -> Option<i64>
    requires factor { IsValue factor.now }
    requires some { factor.now ≢ pos 0 }
    ensures some { IfSome result (λ value. (factor.now *ℤ value) ≡ left.now) }
    ensures none { IfNone result (Excludes factor.now left.now) }
{
    if is_far(left) {
        return None;
    }
    let product = narrowed(left);
    divided(&product, factor)
}

/// What the other terms leave of a number.
fn left_of(r: &i128, front: &i64, back: &i64) -> i128
    requires number { unsigned_abs r.now ≤ 2 ^ 100 }
    requires front { unsigned_abs front.now ≤ 2 ^ 63 }
    requires back { unsigned_abs back.now ≤ 2 ^ 63 }
    ensures { result ≡ (r.now -ℤ front.now) -ℤ back.now }
{
    *r - i128::from(*front) - i128::from(*back)
}

/// Drops the value of the one open term that would make the sum equal to the number.
#[tactic(auto, using(crate::proofs::Differing::idle_zero))]
fn avoid_at(store: &mut Store, terms: &[(i64, Term)], at: usize, r: &i128, left: &i128) -> Passed
    requires limits { SumInLimits (length store.old.box) terms.now }
    requires open { IsOneOpen store.old.box terms.now at }
    requires left { LeavesFor store.old.box terms.now at r.now left.now }
    requires well_formed { IsBox store.old.box }
    ensures { Step (IsApart terms.now r.now) (Differs terms.now r.now) store.old store.new result }
{
    let scaled = &terms[at];
    if scaled.0 == 0 {
        return Passed::Done;
    }
    let Some(value) = value_for(left, &scaled.0) else {
        return Passed::Done;
    };
    drop_value(store, scaled.1, &value)
}

/// Whether two numbers are equal.
fn are_equal(sum: &i64, r: &i128) -> bool
    ensures value { IsTrue result → sum.now ≡ r.now }
    ensures none { IsFalse result → sum.now ≡ r.now → ⊥ }
{
    i128::from(*sum) == *r
}

/// What is done where no term of a sum is open.
#[tactic(auto, using(crate::proofs::Differing::fixed_none, crate::proofs::Differing::idle_fixed))]
fn compare_fixed(store: &mut Store, terms: &[(i64, Term)], front: &Stretch, r: &i128) -> Passed
    requires limits { SumInLimits (length store.old.box) terms.now }
    requires well_formed { IsBox store.old.box }
    requires front { IsStretch store.old.box terms.now 0 front.now }
    requires all { front.now.end ≡ length terms.now }
    ensures { Step (IsApart terms.now r.now) (Differs terms.now r.now) store.old store.new result }
{
    if are_equal(&front.sum, r) {
        Passed::Empty
    } else {
        Passed::Done
    }
}

/// Narrows the first open term of a sum, where it is the last one.
#[tactic(auto, using(crate::proofs::Differing::idle_more))]
fn avoid_after(store: &mut Store, terms: &[(i64, Term)], front: &Stretch, r: &i128) -> Passed
    requires limits { SumInLimits (length store.old.box) terms.now }
    requires number { unsigned_abs r.now ≤ 2 ^ 100 }
    requires well_formed { IsBox store.old.box }
    requires front { IsStretch store.old.box terms.now 0 front.now }
    requires open { front.now.end < length terms.now }
    ensures { Step (IsApart terms.now r.now) (Differs terms.now r.now) store.old store.new result }
{
    let back = stretch_from(store, terms, front.end + 1);
    if back.end < terms.len() {
        return Passed::Done;
    }
    let left = left_of(r, &front.sum, &back.sum);
    avoid_at(store, terms, front.end, r, &left)
}

/// Narrows the last open term of a sum that has to differ from a number.
pub fn separate_sum(store: &mut Store, terms: &[(i64, Term)], r: &i128) -> Passed
    requires limits { SumInLimits (length store.old.box) terms.now }
    requires number { unsigned_abs r.now ≤ 2 ^ 100 }
    ensures { Step (IsApart terms.now r.now) (Differs terms.now r.now) store.old store.new result }
{
    recall_domains(store);
    let front = stretch_from(store, terms, 0);
    if front.end < terms.len() {
        return avoid_after(store, terms, &front, r);
    }
    compare_fixed(store, terms, &front, r)
}
