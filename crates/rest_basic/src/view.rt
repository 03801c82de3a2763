//! Terms over a view of a box.

ghost use Rattle.std.specs.Prelude.{◌≡◌, ◌↔◌, IfOk, IsTrue, All, Contains, length};
ghost use Rattle.fzn_model.specs.Boxes.{IsDomain};
ghost use Rattle.fzn_model.specs.Limits.{IsValue, TermIn};
ghost use Rattle.fzn_model.specs.Bounds.{term_low, term_high, is_open};
ghost use Rattle.rest_basic.specs.Forms.{substituted, open_terms, any_open, term_values};

use fzn_model::{BoxView, List, Term};
use std::alloc::{AllocError, Global};

/// The least value of a term in the box, which is a value of the language.
#[tactic(auto, using(crate::proofs::Values::low_is_value, crate::proofs::Values::alone, crate::proofs::Values::variable_domain), unfolding(crate::specs::Forms::term_values))]
pub fn low_of<V: BoxView>(term: Term, view: &V) -> i64
    requires { TermIn (length (V.shape view.now)) term }
    ensures value { result ≡ term_low (V.shape view.now) term }
    ensures range { IsValue result }
    ensures well_formed { IsDomain (term_values (V.shape view.now) term) }
{
    match term {
        Term::Const(value) => value,
        Term::Var(var) => view.low(var),
    }
}

/// The greatest value of a term in the box, which is a value of the language.
#[tactic(auto, using(crate::proofs::Values::high_is_value))]
pub fn high_of<V: BoxView>(term: Term, view: &V) -> i64
    requires { TermIn (length (V.shape view.now)) term }
    ensures value { result ≡ term_high (V.shape view.now) term }
    ensures range { IsValue result }
{
    match term {
        Term::Const(value) => value,
        Term::Var(var) => view.high(var),
    }
}

/// Whether the term is open: it has several values in the box.
pub fn is_open_in<V: BoxView>(term: Term, view: &V) -> bool
    requires { TermIn (length (V.shape view.now)) term }
    ensures { result ≡ is_open (V.shape view.now) term }
{
    low_of(term, view) < high_of(term, view)
}

/// The term, or the constant of its value where it has one alone.
#[tactic(auto, unfolding(crate::specs::Forms::substituted))]
pub fn substituted_in<V: BoxView>(term: Term, view: &V) -> Term
    requires { TermIn (length (V.shape view.now)) term }
    ensures { result ≡ substituted (V.shape view.now) term }
{
    if is_open_in(term, view) {
        term
    } else {
        Term::Const(low_of(term, view))
    }
}

/// Whether the term can have the value in the box.
#[tactic(auto, using(crate::proofs::Values::has_alone), unfolding(crate::specs::Forms::term_values))]
pub fn can_have<V: BoxView>(term: Term, value: i64, view: &V) -> bool
    requires { TermIn (length (V.shape view.now)) term }
    ensures { IsTrue result ↔ Contains (term_values (V.shape view.now) term) value }
{
    match term {
        Term::Const(only) => value == only,
        Term::Var(var) => view.has(var, value),
    }
}

/// How many values the term has in the box.
#[tactic(auto, unfolding(crate::specs::Forms::term_values))]
pub fn size_of<V: BoxView>(term: Term, view: &V) -> u64
    requires { TermIn (length (V.shape view.now)) term }
    ensures { result ≡ length (term_values (V.shape view.now) term) }
{
    match term {
        Term::Const(_) => 1,
        Term::Var(var) => view.size(var),
    }
}

/// Whether some term of a list is open.
#[tactic(auto, unfolding(crate::specs::Forms::any_open))]
pub fn any_open_in<V: BoxView>(terms: &[Term], view: &V) -> bool
    requires { All (TermIn (length (V.shape view.now))) terms.now }
    ensures { result ≡ any_open (V.shape view.now) terms.now }
{
    terms.iter().any(|term| is_open_in(*term, view))
}

/// The open terms of a list, in order. The one error is that memory runs out.
#[tactic(auto, unfolding(crate::specs::Forms::open_terms))]
pub fn open_terms_in<V: BoxView>(
    alloc: Global,
    terms: &[Term],
    view: &V,
) -> Result<List<Term>, AllocError>
    requires { All (TermIn (length (V.shape view.now))) terms.now }
    ensures { IfOk result (λ open_ones. open_ones ≡ open_terms (V.shape view.now) terms.now) }
{
    let mut left = List::new(alloc);
    for term in terms {
        if is_open_in(*term, view) {
            left.push(*term)?;
        }
    }
    Ok(left)
}
