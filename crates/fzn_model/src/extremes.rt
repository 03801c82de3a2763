ghost use Rattle.std.specs.Prelude.{◌↔◌, ◌≤ℤ◌, IsTrue, length};
ghost use Rattle.fzn_model.specs.Meaning.{val, HasValue, AreAtMost, AreAtLeast};
ghost use Rattle.fzn_model.specs.Limits.{TermIn, TermsIn};

use crate::clause::has_value;
use crate::term::Term;

#[tactic(auto, unfolding(crate::specs::Meaning::AreAtMost))]
fn none_above(terms: &[Term], most: i64, values: &[i64]) -> bool
    requires { TermsIn (length values.now) terms.now }
    ensures { IsTrue result ↔ AreAtMost terms.now most values.now }
{
    terms.iter().all(|term| term.value(values) <= most)
}

#[tactic(auto, unfolding(crate::specs::Meaning::AreAtLeast))]
fn none_below(terms: &[Term], least: i64, values: &[i64]) -> bool
    requires { TermsIn (length values.now) terms.now }
    ensures { IsTrue result ↔ AreAtLeast terms.now least values.now }
{
    terms.iter().all(|term| least <= term.value(values))
}

/// Whether `m` is the greatest value of the terms.
pub(crate) fn greatest_holds(m: Term, terms: &[Term], values: &[i64]) -> bool
    requires m { TermIn (length values.now) m }
    requires terms { TermsIn (length values.now) terms.now }
    ensures { IsTrue result ↔ (HasValue terms.now (val m values.now) values.now × AreAtMost terms.now (val m values.now) values.now) }
{
    let most = m.value(values);
    has_value(terms, most, values) && none_above(terms, most, values)
}

/// Whether `m` is the least value of the terms.
pub(crate) fn least_holds(m: Term, terms: &[Term], values: &[i64]) -> bool
    requires m { TermIn (length values.now) m }
    requires terms { TermsIn (length values.now) terms.now }
    ensures { IsTrue result ↔ (HasValue terms.now (val m values.now) values.now × AreAtLeast terms.now (val m values.now) values.now) }
{
    let least = m.value(values);
    has_value(terms, least, values) && none_below(terms, least, values)
}
