//! Whether each member of a list is in another. Each is looked for behind the place where the one before was found, and
//! only then from the start: lists in the same order are gone over once.

ghost use Rattle.std.specs.Prelude.{◌↔◌, IsTrue};
ghost use Rattle.rest_key.specs.Weaker.{IsAmong, AreAmong};

use fzn_model::Term;

/// Whether the term is one of the others; where it is, `next` becomes a place to look for the next one from.
#[tactic(auto, using(crate::proofs::EqualParts::term_decides), unfolding(crate::specs::Weaker::IsAmong))]
fn is_term_among(term: Term, others: &[Term], next: &mut usize) -> bool
    ensures { IsTrue result ↔ IsAmong others.now term }
{
    for k in *next..others.len() {
        if others[k] == term {
            *next = k + 1;
            return true;
        }
    }
    others.contains(&term)
}

/// Whether the number is one of the others; where it is, `next` becomes a place to look for the next one from.
#[tactic(auto, unfolding(crate::specs::Weaker::IsAmong))]
fn is_number_among(number: i64, others: &[i64], next: &mut usize) -> bool
    ensures { IsTrue result ↔ IsAmong others.now number }
{
    for k in *next..others.len() {
        if others[k] == number {
            *next = k + 1;
            return true;
        }
    }
    others.contains(&number)
}

/// Whether each of the first terms is one of the second. A step for each term where they stand in the same order; else as
/// many as there are pairs, at most.
#[tactic(auto, unfolding(crate::specs::Weaker::AreAmong))]
pub(crate) fn are_terms_among(terms: &[Term], others: &[Term]) -> bool
    ensures { IsTrue result ↔ AreAmong terms.now others.now }
{
    let mut next = 0;
    for term in terms {
        if !is_term_among(*term, others, &mut next) {
            return false;
        }
    }
    true
}

/// Whether each of the first numbers is one of the second. A step for each number where they stand in the same order; else
/// as many as there are pairs, at most.
#[tactic(auto, unfolding(crate::specs::Weaker::AreAmong))]
pub(crate) fn are_numbers_among(numbers: &[i64], others: &[i64]) -> bool
    ensures { IsTrue result ↔ AreAmong numbers.now others.now }
{
    let mut next = 0;
    for number in numbers {
        if !is_number_among(*number, others, &mut next) {
            return false;
        }
    }
    true
}
