ghost use Rattle.std.specs.Prelude.{◌≡◌, ◌↔◌, ◌<◌, All, Any, IsTrue, length, pos};
ghost use Rattle.fzn_model.specs.Boxes.{IsBox};
ghost use Rattle.fzn_model.specs.Limits.{TermIn, ClauseInLimits};
ghost use Rattle.fzn_model.specs.Bounds.{IsAt, is_open};
ghost use Rattle.dom_store.specs.Strength.{HasTrue, ConIsOwed};
ghost use Rattle.dom_store.specs.Bases.{clause_of};
ghost use Rattle.bool_prop.specs.Parts.{clause_con};
ghost use Rattle.bool_prop.specs.Opens.{opens, Finds, IsLast};
ghost use Rattle.dom_store.specs.Steps.{Step};
ghost use Rattle.fzn_model.specs.Meaning.{Holds};

use dom_store::{Passed, Store, fix, greatest, least, recall_domains};
use fzn_model::Term;

/// The open terms of a list.
#[derive(Clone, Copy)]
pub(crate) enum Open {
    /// There is none.
    None,
    /// One place alone has one.
    One(Term),
    /// Two places or more have one.
    More,
}

/// The open literals of a clause.
#[derive(Clone, Copy)]
pub(crate) enum Literals {
    /// There is none.
    None,
    /// One place alone has one, which the value makes true.
    One(Term, i64),
    /// Two places or more have one.
    More,
}

/// Whether a term has more than one value.
fn is_open(store: &Store, term: Term) -> bool
    requires { TermIn (length store.now.box) term }
    ensures { result ≡ is_open store.now.box term }
{
    least(store, term) < greatest(store, term)
}

/// Whether a term has the value alone.
fn is_at(store: &Store, term: Term, value: i64) -> bool
    requires { TermIn (length store.now.box) term }
    ensures { IsTrue result ↔ IsAt store.now.box term value }
{
    least(store, term) == value && greatest(store, term) == value
}

/// Whether some term of a list has the value alone.
fn some_is_at(store: &Store, terms: &[Term], value: i64) -> bool
    requires { All (TermIn (length store.now.box)) terms.now }
    ensures { IsTrue result ↔ Any (λ t. IsAt store.now.box t value) terms.now }
{
    terms.iter().any(|term| is_at(store, *term, value))
}

/// Whether some literal is true.
#[tactic(auto, unfolding(dom_store::specs::Strength::HasTrue))]
fn has_true(store: &Store, pos: &[Term], neg: &[Term]) -> bool
    requires { ClauseInLimits (length store.now.box) (clause_of pos.now neg.now) }
    ensures { IsTrue result ↔ HasTrue store.now.box (clause_of pos.now neg.now) }
{
    some_is_at(store, pos, 1) || some_is_at(store, neg, 0)
}

/// The open terms of a list.
#[tactic(auto, using(crate::proofs::Clauses::none_yet, crate::proofs::Clauses::open_more, crate::proofs::Clauses::open_again, crate::proofs::Clauses::open_not, crate::proofs::Clauses::open_end))]
fn open_terms(store: &Store, terms: &[Term]) -> Open
    requires { All (TermIn (length store.now.box)) terms.now }
    ensures { result ≡ opens store.now.box terms.now }
{
    let mut found = Open::None;
    for term in terms {
        if is_open(store, *term) {
            match found {
                Open::None => found = Open::One(*term),
                _ => return Open::More,
            }
        }
    }
    found
}

/// The open literals of a clause. The count of variables is asked for what the store keeps of their domains.
#[tactic(auto, using(crate::proofs::Clauses::finds_none, crate::proofs::Clauses::finds_positive, crate::proofs::Clauses::finds_negative, crate::proofs::Clauses::finds_more))]
fn open_literals(store: &Store, pos: &[Term], neg: &[Term]) -> Literals
    requires { ClauseInLimits (length store.now.box) (clause_of pos.now neg.now) }
    ensures finds { Finds store.now.box (clause_of pos.now neg.now) result }
    ensures well_formed { IsBox store.now.box }
{
    recall_domains(store);
    match open_terms(store, pos) {
        Open::None => match open_terms(store, neg) {
            Open::None => Literals::None,
            Open::One(term) => Literals::One(term, 0),
            Open::More => Literals::More,
        },
        Open::One(term) => match open_terms(store, neg) {
            Open::None => Literals::One(term, 1),
            Open::One(_) | Open::More => Literals::More,
        },
        Open::More => Literals::More,
    }
}

/// Looks for a true literal, where none is open.
#[tactic(auto, using(crate::proofs::Clauses::true_left, crate::proofs::Clauses::closed_left))]
fn pass_closed(store: &Store, pos: &[Term], neg: &[Term]) -> Passed
    requires well_formed { IsBox store.now.box }
    requires kept { ClauseInLimits (length store.now.box) (clause_of pos.now neg.now) }
    requires closed { Finds store.now.box (clause_of pos.now neg.now) Literals.None }
    ensures { Step (ConIsOwed (clause_con (clause_of pos.now neg.now))) (Holds (clause_con (clause_of pos.now neg.now))) store.now store.now result }
{
    if has_true(store, pos, neg) {
        return Passed::Done;
    }
    Passed::Empty
}

/// Makes the only open literal true, where no literal is.
#[tactic(auto, using(crate::proofs::Clauses::true_left))]
fn pass_last(store: &mut Store, pos: &[Term], neg: &[Term], term: Term, value: i64) -> Passed
    requires well_formed { IsBox store.old.box }
    requires kept { ClauseInLimits (length store.old.box) (clause_of pos.now neg.now) }
    requires last { IsLast store.old.box (clause_of pos.now neg.now) term value }
    ensures { Step (ConIsOwed (clause_con (clause_of pos.now neg.now))) (Holds (clause_con (clause_of pos.now neg.now))) store.old store.new result }
{
    if has_true(store, pos, neg) {
        return Passed::Done;
    }
    fix(store, term, &value)
}

/// One pass over a clause: where no literal is true and one place alone has an open one, makes that true.
#[tactic(auto, using(crate::proofs::Clauses::more_left, crate::proofs::Clauses::last_found))]
pub(crate) fn pass_clause(store: &mut Store, pos: &[Term], neg: &[Term]) -> Passed
    requires { ClauseInLimits (length store.old.box) (clause_of pos.now neg.now) }
    ensures { Step (ConIsOwed (clause_con (clause_of pos.now neg.now))) (Holds (clause_con (clause_of pos.now neg.now))) store.old store.new result }
{
    match open_literals(store, pos, neg) {
        Literals::None => pass_closed(store, pos, neg),
        Literals::One(term, value) => pass_last(store, pos, neg, term, value),
        Literals::More => Passed::Done,
    }
}
