//! The greatest and the least of a list.

ghost use Rattle.std.specs.Prelude.{◌≡◌, ◌∷◌, ◌++◌, IfOk, OnOk, All, length, fold};
ghost use Rattle.std.specs.Ordering.{int_eq};
ghost use Rattle.std.specs.List.{list_any, list_all};
ghost use Rattle.std.specs.Option.{option_to_list};
ghost use Rattle.fzn_model.specs.Limits.{TermIn};
ghost use Rattle.rest_basic.specs.Forms.{any_open, open_terms};
ghost use Rattle.rest_forms.specs.Forms.{fixed_values, pick_by, is_within, one_constant, members_of_extreme, is_extreme, extreme_con, extreme_form};

use crate::values::fixed_values;
use fzn_model::{BoxView, Con, List, Term};
use rest_basic::{
    Reduced, any_open_in, is_open_in, low_of, of_truth, open_terms_in, substituted_in,
};
use std::alloc::{AllocError, Global};

/// Which member of a list a constraint speaks of.
#[derive(Clone, Copy)]
pub(crate) enum Extreme {
    Greatest,
    Least,
}

/// Whether the term, or one of a list, has several values.
#[tactic(auto, unfolding(rest_basic::specs::Forms::any_open))]
fn one_open<V: BoxView>(term: Term, terms: &[Term], view: &V) -> bool
    requires term { TermIn (length (V.shape view.now)) term }
    requires terms { All (TermIn (length (V.shape view.now))) terms.now }
    ensures { result ≡ any_open (V.shape view.now) (term ∷ terms.now) }
{
    is_open_in(term, view) || any_open_in(terms, view)
}

/// The greater of two numbers, or the lesser.
fn pick_by<'a>(extreme: Extreme, a: &'a i64, b: &'a i64) -> &'a i64
    ensures { result.now ≡ pick_by extreme a.now b.now }
{
    match extreme {
        Extreme::Greatest => if *a < *b { b } else { a },
        Extreme::Least => if *b < *a { b } else { a },
    }
}

/// The greatest or the least of a number and some others.
fn extreme_from<'a>(extreme: Extreme, first: &'a i64, others: &'a [i64]) -> &'a i64
    ensures { result.now ≡ fold (pick_by extreme) first.now others.now }
{
    let mut best = first;
    for value in others {
        best = pick_by(extreme, best, value);
    }
    best
}

/// The greatest or the least of some numbers, where there are any.
fn extreme_of(extreme: Extreme, values: &[i64]) -> Option<Term>
    ensures { option_to_list result ≡ one_constant (pick_by extreme) values.now }
{
    let (first, others) = values.split_first()?;
    Some(Term::Const(*extreme_from(extreme, first, others)))
}

/// Whether the number is among some numbers.
fn is_among(number: &i64, values: &[i64]) -> bool
    ensures { result ≡ list_any (int_eq number.now) values.now }
{
    values.iter().any(|value| *number == *value)
}

/// Whether the value is at most the number, or at least.
fn is_within(extreme: Extreme, value: &i64, number: &i64) -> bool
    ensures { result ≡ is_within extreme value.now number.now }
{
    match extreme {
        Extreme::Greatest => *value <= *number,
        Extreme::Least => *number <= *value,
    }
}

/// Whether all values are at most the number, or at least.
fn are_within(extreme: Extreme, values: &[i64], number: &i64) -> bool
    ensures { result ≡ list_all (λ y. is_within extreme y number.now) values.now }
{
    values.iter().all(|value| is_within(extreme, value, number))
}

/// Whether the number is the greatest or the least of some numbers.
fn is_extreme(extreme: Extreme, number: &i64, values: &[i64]) -> bool
    ensures { result ≡ is_extreme extreme number.now values.now }
{
    is_among(number, values) && are_within(extreme, values, number)
}

/// The open terms of a list, and a constant where there is one.
fn with_constant<V: BoxView>(
    alloc: Global,
    terms: &[Term],
    constant: Option<Term>,
    view: &V,
) -> Result<List<Term>, AllocError>
    requires { All (TermIn (length (V.shape view.now))) terms.now }
    ensures { IfOk result (λ members. members ≡ open_terms (V.shape view.now) terms.now ++ option_to_list constant) }
{
    let mut members = open_terms_in(alloc, terms, view)?;
    if let Some(term) = constant {
        members.push(term)?;
    }
    Ok(members)
}

/// The constraint that `m` is the greatest or the least of the members.
fn extreme_con(extreme: Extreme, m: Term, members: List<Term>) -> Con
    ensures { result ≡ extreme_con extreme m members }
{
    match extreme {
        Extreme::Greatest => Con::Greatest(m, members),
        Extreme::Least => Con::Least(m, members),
    }
}

/// The form of the constraint that `m` is the greatest or the least of `xs`.
#[tactic(auto, unfolding(crate::specs::Forms::extreme_form, crate::specs::Forms::members_of_extreme))]
pub(crate) fn form_of_extreme<V: BoxView>(
    alloc: Global,
    extreme: Extreme,
    m: Term,
    xs: &[Term],
    view: &V,
) -> Result<Reduced, AllocError>
    requires m { TermIn (length (V.shape view.now)) m }
    requires xs { All (TermIn (length (V.shape view.now))) xs.now }
    ensures { IfOk result (λ left. left ≡ extreme_form extreme (V.shape view.now) m xs.now) }
{
    let values = fixed_values(alloc, xs, view)?;
    if one_open(m, xs, view) {
        let constant = extreme_of(extreme, values.as_slice());
        let members = with_constant(alloc, xs, constant, view)?;
        return Ok(Reduced::Is(extreme_con(extreme, substituted_in(m, view), members)));
    }
    Ok(of_truth(
        alloc,
        is_extreme(extreme, &low_of(m, view), values.as_slice()),
    ))
}
