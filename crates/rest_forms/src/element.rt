//! An element of a list.

ghost use Rattle.std.specs.Prelude.{◌≡◌, ◌∷◌, [], ◌<◌, ◌≤◌, ℕ, suc, pos, negsuc, if◌then◌else◌, IfOk, IfSome, IfNone, All, length};
ghost use Rattle.fzn_model.specs.declared.term.Term.TheVariants as term;
ghost use Rattle.fzn_model.specs.declared.lin.Rel.TheVariants as rel;
ghost use Rattle.fzn_model.specs.Limits.{IsValue, TermIn, TermsIn};
ghost use Rattle.rest_basic.specs.Forms.{substituted};
ghost use Rattle.rest_forms.specs.Forms.{term_has, members_from, member_form, element_form};

use crate::values::term_has;
use fzn_model::{BoxView, Con, List, Rel, Term};
use rest_basic::{Reduced, empty_clause, is_open_in, low_of, reduce_lin, substituted_in};
use std::alloc::{AllocError, Global};

/// Whether the index can have a place.
fn can_be_at<V: BoxView>(i: Term, place: usize, view: &V) -> bool
    requires i { TermIn (length (V.shape view.now)) i }
    requires place { place ≤ 2000000 }
    ensures { result ≡ term_has (V.shape view.now) (pos place) i }
{
    let number = place as i64;
    term_has(i, &number, view)
}

/// The member at a place, or 0 where the index can't have the place.
fn member_at<V: BoxView>(x: Term, i: Term, place: usize, view: &V) -> Term
    requires x { TermIn (length (V.shape view.now)) x }
    requires i { TermIn (length (V.shape view.now)) i }
    requires place { place ≤ 2000000 }
    ensures { result ≡ (if term_has (V.shape view.now) (pos place) i then substituted (V.shape view.now) x else term.Const (pos 0)) }
{
    if can_be_at(i, place, view) {
        substituted_in(x, view)
    } else {
        Term::Const(0)
    }
}

/// The members, 0 where the index can't have the place.
#[tactic(auto, using(crate::proofs::FixedIndex::members_more, crate::proofs::FixedIndex::members_end))]
fn members<V: BoxView>(
    alloc: Global,
    i: Term,
    xs: &[Term],
    view: &V,
) -> Result<List<Term>, AllocError>
    requires i { TermIn (length (V.shape view.now)) i }
    requires xs { TermsIn (length (V.shape view.now)) xs.now }
    ensures { IfOk result (λ left. left ≡ members_from (V.shape view.now) i 1 xs.now) }
{
    let mut left = Vec::with_capacity(alloc, xs.len())?;
    for (at, x) in xs.iter().enumerate() {
        left.push(member_at(*x, i, at + 1, view))?;
    }
    Ok(List::from_vec(left))
}

/// The place in a list of an index that counts from 1.
fn place_of(number: &i64, count: usize) -> Option<usize>
    requires { count ≤ 2000000 }
    ensures some { IfSome result (λ k. (k < count) × (number.now ≡ pos (suc k))) }
    ensures none { IfNone result ((k : ℕ) → k < count → number.now ≡ pos (suc k) → ⊥) }
{
    if *number >= 1 && *number <= count as i64 {
        Some((*number - 1) as usize)
    } else {
        None
    }
}

/// The terms of a sum that is 0 where two terms are equal.
fn difference(x: Term, c: Term) -> [(i64, Term); 2]
    ensures { result ≡ (pos 1, x) ∷ (negsuc 0, c) ∷ [] }
{
    [(1, x), (-1, c)]
}

/// The member of a fixed index has the value of the chosen term.
#[tactic(auto, using(crate::proofs::FixedIndex::equality_kept, crate::proofs::FixedIndex::member_some, crate::proofs::FixedIndex::member_none))]
fn form_of_member<V: BoxView>(
    alloc: Global,
    number: &i64,
    xs: &[Term],
    c: Term,
    view: &V,
) -> Result<Reduced, AllocError>
    requires xs { TermsIn (length (V.shape view.now)) xs.now }
    requires c { TermIn (length (V.shape view.now)) c }
    ensures { IfOk result (λ left. left ≡ member_form (V.shape view.now) number.now xs.now c) }
{
    match place_of(number, xs.len()) {
        Some(place) => reduce_lin(alloc, Rel::Eq, &difference(xs[place], c), 0, view),
        None => Ok(Reduced::Is(empty_clause(alloc))),
    }
}

/// The form of an element of a list.
#[tactic(auto, unfolding(crate::specs::Forms::element_form))]
pub(crate) fn form_of_element<V: BoxView>(
    alloc: Global,
    i: Term,
    xs: &[Term],
    c: Term,
    view: &V,
) -> Result<Reduced, AllocError>
    requires i { TermIn (length (V.shape view.now)) i }
    requires xs { TermsIn (length (V.shape view.now)) xs.now }
    requires c { TermIn (length (V.shape view.now)) c }
    ensures { IfOk result (λ left. left ≡ element_form (V.shape view.now) i xs.now c) }
{
    if is_open_in(i, view) {
        let left = members(alloc, i, xs, view)?;
        return Ok(Reduced::Is(Con::Element(i, left, substituted_in(c, view))));
    }
    form_of_member(alloc, &low_of(i, view), xs, c, view)
}
