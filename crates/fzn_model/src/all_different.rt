ghost use Rattle.std.specs.Prelude.{◌↔◌, IsTrue, length};
ghost use Rattle.fzn_model.specs.Meaning.{val, HasValue, AreDistinct, IsFree, AreUntaken};
ghost use Rattle.fzn_model.specs.Limits.{TermIn, TermsIn};

use crate::clause::has_value;
use crate::term::Term;

fn is_shared(term: Term, others: &[Term], values: &[i64]) -> bool
    requires term { TermIn (length values.now) term }
    requires others { TermsIn (length values.now) others.now }
    ensures { IsTrue result ↔ HasValue others.now (val term values.now) values.now }
{
    has_value(others, term.value(values), values)
}

#[tactic(auto, using(crate::proofs::Distinct::distinct_more, crate::proofs::Distinct::distinct_fails, crate::proofs::Distinct::terms_front), unfolding(crate::specs::Meaning::AreDistinct))]
fn are_distinct(terms: &[Term], values: &[i64]) -> bool
    requires { TermsIn (length values.now) terms.now }
    ensures { IsTrue result ↔ AreDistinct terms.now values.now }
{
    for (i, term) in terms.iter().enumerate() {
        if is_shared(*term, &terms[..i], values) {
            return false;
        }
    }
    true
}

#[tactic(auto, unfolding(crate::specs::Meaning::IsFree))]
fn is_free(term: Term, taken: &[i64], values: &[i64]) -> bool
    requires { TermIn (length values.now) term }
    ensures { IsTrue result ↔ IsFree taken.now (val term values.now) }
{
    !taken.contains(&term.value(values))
}

#[tactic(auto, unfolding(crate::specs::Meaning::AreUntaken))]
fn none_taken(terms: &[Term], taken: &[i64], values: &[i64]) -> bool
    requires { TermsIn (length values.now) terms.now }
    ensures { IsTrue result ↔ AreUntaken terms.now taken.now values.now }
{
    terms.iter().all(|term| is_free(*term, taken, values))
}

/// Whether the values differ in pairs and none is taken.
pub(crate) fn all_different_holds(terms: &[Term], taken: &[i64], values: &[i64]) -> bool
    requires { TermsIn (length values.now) terms.now }
    ensures { IsTrue result ↔ (AreDistinct terms.now values.now × AreUntaken terms.now taken.now values.now) }
{
    are_distinct(terms, values) && none_taken(terms, taken, values)
}
