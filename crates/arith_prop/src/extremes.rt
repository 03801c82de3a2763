//! One pass over the greatest or the least of a list, the result. Of each term, one bound lies on the side of the extreme
//! (the greatest value for the greatest), and one on the other side.
ghost use Rattle.std.specs.Prelude.{length};
ghost use Rattle.fzn_model.specs.Limits.{TermIn, ListInLimits};
ghost use Rattle.fzn_model.specs.Meaning.{Holds};
ghost use Rattle.dom_store.specs.Steps.{Step};
ghost use Rattle.arith_prop.specs.Passes.{IsPass};
ghost use Rattle.arith_prop.specs.Parts.{extreme_con};
ghost use Rattle.arith_prop.specs.Extremes.{Limits, ReachesEach, IsReached, MembersAreBounded};

use crate::bounds::furthest;
use dom_store::{Extreme, Passed, Store, bound, cut, opposite, recall_domains};
use fzn_model::Term;

/// Keeps the values of a term that are within the bound of another.
fn limit(store: &mut Store, term: Term, other: Term, extreme: Extreme) -> Passed
    requires term { TermIn (length store.old.box) term }
    requires other { TermIn (length store.old.box) other }
    ensures { Limits extreme other term store.old store.new result }
{
    let number = bound(store, other, extreme);
    cut(store, term, extreme, &number)
}

/// Narrows the result to what some member reaches for sure: the greatest to at least the greatest least value.
fn reach_each(store: &mut Store, extreme: Extreme, m: Term, terms: &[Term]) -> Passed
    requires result { TermIn (length store.old.box) m }
    requires members { ListInLimits (length store.old.box) terms.now }
    ensures { Step (ReachesEach extreme m terms.now) (Holds (extreme_con extreme m terms.now)) store.old store.new result }
{
    let other = opposite(extreme);
    let best = furthest(store, terms, extreme, other);
    limit(store, m, best, other)
}

/// Narrows the result to what some member can reach: the greatest to at most the greatest value of any.
fn keep_reached(store: &mut Store, extreme: Extreme, m: Term, terms: &[Term]) -> Passed
    requires result { TermIn (length store.old.box) m }
    requires members { ListInLimits (length store.old.box) terms.now }
    ensures { Step (IsReached extreme m terms.now) (Holds (extreme_con extreme m terms.now)) store.old store.new result }
{
    let best = furthest(store, terms, extreme, extreme);
    limit(store, m, best, extreme)
}

/// Narrows each member to the bound of the result: at most the greatest value of the greatest.
fn limit_members(store: &mut Store, extreme: Extreme, m: Term, terms: &[Term]) -> Passed
    requires result { TermIn (length store.old.box) m }
    requires members { ListInLimits (length store.old.box) terms.now }
    ensures { Step (MembersAreBounded extreme m terms.now (length terms.now)) (Holds (extreme_con extreme m terms.now)) store.old store.new result }
{
    recall_domains(store);
    for term in terms {
        match limit(store, *term, m, extreme) {
            Passed::Empty => return Passed::Empty,
            Passed::Done => {}
        }
    }
    Passed::Done
}

/// One pass over the greatest or the least of a list: narrows it to the bounds of the members, and those to its own.
pub(crate) fn pass_extreme(store: &mut Store, extreme: Extreme, m: Term, terms: &[Term]) -> Passed
    requires result { TermIn (length store.old.box) m }
    requires members { ListInLimits (length store.old.box) terms.now }
    ensures { IsPass (extreme_con extreme m terms.now) store.old store.new result }
{
    match reach_each(store, extreme, m, terms) {
        Passed::Empty => return Passed::Empty,
        Passed::Done => {}
    }
    match keep_reached(store, extreme, m, terms) {
        Passed::Empty => return Passed::Empty,
        Passed::Done => {}
    }
    limit_members(store, extreme, m, terms)
}
