//! Numbers in order.

ghost use Rattle.std.specs.Prelude.{◌≡◌, ◌↔◌, ◌<ℤ◌, ◌++◌, IfOk, IsTrue, All, filter, length};
ghost use Rattle.std.specs.Ordering.{int_cmp};
ghost use Rattle.std.specs.List.Sorted.{IsPermutation, IsStrictlySortedBy};
ghost use Rattle.fzn_model.specs.Limits.{TermIn};
ghost use Rattle.rest_forms.specs.Numbers.{RiseUpTo, some_has};

use crate::values::{push, term_has};
use fzn_model::{BoxView, List, Term};
use std::alloc::{AllocError, Global};

/// The numbers of two lists, in order.
pub(crate) fn in_order(
    alloc: Global,
    numbers: &[i64],
    others: &[i64],
) -> Result<Vec<i64>, AllocError>
    ensures { IfOk result (λ all. IsPermutation (numbers.now ++ others.now) all.items) }
{
    let mut all = Vec::from_slice(alloc, numbers)?;
    all.extend_from_slice(others)?;
    all.sort_unstable();
    Ok(all)
}

/// Whether the first number is less than the second.
fn is_less(number: &i64, other: &i64) -> bool
    ensures { IsTrue result ↔ (number.now <ℤ other.now) }
{
    *number < *other
}

/// Whether each number is less than the next.
#[tactic(auto, using(crate::proofs::SortedTaken::rise_none, crate::proofs::SortedTaken::rise_more, crate::proofs::SortedTaken::rise_all))]
pub(crate) fn are_rising(numbers: &[i64]) -> bool
    ensures { IsTrue result → IsStrictlySortedBy int_cmp numbers.now }
{
    for at in 1..numbers.len() {
        if !is_less(&numbers[at - 1], &numbers[at]) {
            return false;
        }
    }
    true
}

/// Whether some term can have the number.
fn some_has<V: BoxView>(terms: &[Term], number: &i64, view: &V) -> bool
    requires { All (TermIn (length (V.shape view.now))) terms.now }
    ensures { result ≡ some_has (V.shape view.now) terms.now number.now }
{
    terms.iter().any(|term| term_has(*term, number, view))
}

/// The numbers that some term can have, in order.
pub(crate) fn had_of<V: BoxView>(
    alloc: Global,
    terms: &[Term],
    numbers: &[i64],
    view: &V,
) -> Result<List<i64>, AllocError>
    requires { All (TermIn (length (V.shape view.now))) terms.now }
    ensures { IfOk result (λ had. had ≡ filter (some_has (V.shape view.now) terms.now) numbers.now) }
{
    let mut had = Vec::new(alloc);
    for number in numbers {
        if some_has(terms, number, view) {
            push(&mut had, number)?;
        }
    }
    Ok(List::from_vec(had))
}
