ghost use Rattle.std.specs.Prelude.{◌↔◌, IsTrue, length};
ghost use Rattle.fzn_model.specs.Meaning.{HoldsElement};
ghost use Rattle.fzn_model.specs.Limits.{TermIn, TermsIn};

use crate::term::Term;

/// Whether the index, from 1, is that of a term with the value of `c`.
pub(crate) fn element_holds(index: Term, terms: &[Term], c: Term, values: &[i64]) -> bool
    requires index { TermIn (length values.now) index }
    requires terms { TermsIn (length values.now) terms.now }
    requires c { TermIn (length values.now) c }
    ensures { IsTrue result ↔ HoldsElement index terms.now c values.now }
{
    let at = index.value(values);
    if at < 1 {
        return false;
    }
    match terms.get((at - 1) as usize) {
        Some(term) => term.value(values) == c.value(values),
        None => false,
    }
}
