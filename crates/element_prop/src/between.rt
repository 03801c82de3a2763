//! A term that has to lie between two numbers.
ghost use Rattle.std.specs.Prelude.{◌≡◌, ◌≤ℤ◌, length};
ghost use Rattle.fzn_model.specs.Limits.{TermIn};
ghost use Rattle.fzn_model.specs.Boxes.{IsBox};
ghost use Rattle.fzn_model.specs.Bounds.{term_low, term_high};
ghost use Rattle.dom_store.specs.Narrowing.{Prunes};
ghost use Rattle.element_prop.specs.Between.{LiesBetween, LiesNever};

use dom_store::{Passed, Store, cut_above, cut_below};
use fzn_model::Term;

/// Keeps the values of a term that lie between two numbers.
pub fn limit(store: &mut Store, term: Term, low: &i64, high: &i64) -> Passed
    requires term { TermIn (length store.old.box) term }
    requires well_formed { IsBox store.old.box }
    ensures prunes { Prunes (LiesBetween term low.now high.now) store.old store.new }
    ensures low { result ≡ Passed.Done → low.now ≤ℤ term_low store.new.box term }
    ensures high { result ≡ Passed.Done → term_high store.new.box term ≤ℤ high.now }
    ensures none { result ≡ Passed.Empty → LiesNever store.old.box term low.now high.now }
    ensures is { IsBox store.new.box }
{
    if let Passed::Empty = cut_below(store, term, low) {
        return Passed::Empty;
    }
    if let Passed::Empty = cut_above(store, term, high) {
        return Passed::Empty;
    }
    Passed::Done
}
