//! Products, absolute values, quotients and remainders.

ghost use Rattle.std.specs.Prelude.{◌≡◌, ◌*ℤ◌, ◌∷◌, [], pos, int_div, length};
ghost use Rattle.fzn_model.specs.declared.con.Con.TheVariants as con;
ghost use Rattle.fzn_model.specs.Limits.{TermIn};
ghost use Rattle.rest_basic.specs.Forms.{any_open, times_is, abs_is, div_is, mod_is, arith_form};

use crate::base::of_truth;
use crate::reduced::Reduced;
use crate::view::{any_open_in, low_of, substituted_in};
use fzn_model::{BoxView, Con, Term};
use std::alloc::Global;

/// The product.
fn product(a: i64, b: i64) -> i128
    ensures { result ≡ a *ℤ b }
{
    i128::from(a) * i128::from(b)
}

/// The quotient, rounded towards zero.
fn quotient(a: i64, b: i64) -> i128
    requires { b ≡ pos 0 → ⊥ }
    ensures { result ≡ int_div a b }
{
    i128::from(a) / i128::from(b)
}

/// Whether `a * b = c`.
fn times_is(a: i64, b: i64, c: i64) -> bool
    ensures { result ≡ times_is a b c }
{
    product(a, b) == i128::from(c)
}

/// Whether `b` is `a` without its sign.
fn abs_is(a: i64, b: i64) -> bool
    ensures { result ≡ abs_is a b }
{
    i128::from(b) == i128::from(a.unsigned_abs())
}

/// Whether `b` isn't 0 and `c` is `a / b`, rounded towards zero.
fn div_is(a: i64, b: i64, c: i64) -> bool
    ensures { result ≡ div_is a b c }
{
    b != 0 && i128::from(c) == quotient(a, b)
}

/// Whether `b` isn't 0 and `c` is what that division leaves.
fn mod_is(a: i64, b: i64, c: i64) -> bool
    ensures { result ≡ mod_is a b c }
{
    b != 0 && c == a.wrapping_rem(b)
}

/// The form of a product.
#[tactic(auto, unfolding(crate::specs::Forms::arith_form))]
pub(crate) fn form_of_times<V: BoxView>(
    alloc: Global,
    a: Term,
    b: Term,
    c: Term,
    view: &V,
) -> Reduced
    requires a { TermIn (length (V.shape view.now)) a }
    requires b { TermIn (length (V.shape view.now)) b }
    requires c { TermIn (length (V.shape view.now)) c }
    ensures { result ≡ arith_form (V.shape view.now) (con.Times a b c) }
{
    if any_open_in(&[a, b, c], view) {
        return Reduced::Is(Con::Times(
            substituted_in(a, view),
            substituted_in(b, view),
            substituted_in(c, view),
        ));
    }
    of_truth(
        alloc,
        times_is(low_of(a, view), low_of(b, view), low_of(c, view)),
    )
}

/// The form of an absolute value.
#[tactic(auto, unfolding(crate::specs::Forms::arith_form))]
pub(crate) fn form_of_abs<V: BoxView>(alloc: Global, a: Term, b: Term, view: &V) -> Reduced
    requires a { TermIn (length (V.shape view.now)) a }
    requires b { TermIn (length (V.shape view.now)) b }
    ensures { result ≡ arith_form (V.shape view.now) (con.Abs a b) }
{
    if any_open_in(&[a, b], view) {
        return Reduced::Is(Con::Abs(substituted_in(a, view), substituted_in(b, view)));
    }
    of_truth(alloc, abs_is(low_of(a, view), low_of(b, view)))
}

/// The form of a quotient.
#[tactic(auto, unfolding(crate::specs::Forms::arith_form))]
pub(crate) fn form_of_div<V: BoxView>(alloc: Global, a: Term, b: Term, c: Term, view: &V) -> Reduced
    requires a { TermIn (length (V.shape view.now)) a }
    requires b { TermIn (length (V.shape view.now)) b }
    requires c { TermIn (length (V.shape view.now)) c }
    ensures { result ≡ arith_form (V.shape view.now) (con.Div a b c) }
{
    if any_open_in(&[a, b, c], view) {
        return Reduced::Is(Con::Div(
            substituted_in(a, view),
            substituted_in(b, view),
            substituted_in(c, view),
        ));
    }
    of_truth(
        alloc,
        div_is(low_of(a, view), low_of(b, view), low_of(c, view)),
    )
}

/// The form of a remainder.
#[tactic(auto, unfolding(crate::specs::Forms::arith_form))]
pub(crate) fn form_of_mod<V: BoxView>(alloc: Global, a: Term, b: Term, c: Term, view: &V) -> Reduced
    requires a { TermIn (length (V.shape view.now)) a }
    requires b { TermIn (length (V.shape view.now)) b }
    requires c { TermIn (length (V.shape view.now)) c }
    ensures { result ≡ arith_form (V.shape view.now) (con.Mod a b c) }
{
    if any_open_in(&[a, b, c], view) {
        return Reduced::Is(Con::Mod(
            substituted_in(a, view),
            substituted_in(b, view),
            substituted_in(c, view),
        ));
    }
    of_truth(
        alloc,
        mod_is(low_of(a, view), low_of(b, view), low_of(c, view)),
    )
}
