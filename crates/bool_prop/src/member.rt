ghost use Rattle.std.specs.Prelude.{length};
ghost use Rattle.fzn_model.specs.Sets.{AreRuns};
ghost use Rattle.fzn_model.specs.Boxes.{IsBox};
ghost use Rattle.fzn_model.specs.Limits.{TermIn};
ghost use Rattle.fzn_model.specs.Meaning.{Holds};
ghost use Rattle.dom_store.specs.Steps.{Step};
ghost use Rattle.dom_store.specs.Bases.{member_of};
ghost use Rattle.bool_prop.specs.Parts.{member_con};
ghost use Rattle.bool_prop.specs.Inside.{BoundIsIn, ValueIsIn, ValuesAreIn, EachIsIn};
ghost use Rattle.dom_store.specs.Strength.{ConIsOwed};

use crate::neighbours::near_in;
use dom_store::{
    Extreme, Passed, Store, bound, can_have, cut, drop_value, greatest, is_wide, least,
};
use fzn_model::{Runs, Term};

/// Cuts a term to the number of the set that is next to one of its bounds.
#[tactic(auto, using(crate::proofs::Members::none_near))]
fn cut_to_near(store: &mut Store, x: Term, extreme: Extreme, set: &Runs) -> Passed
    requires term { TermIn (length store.old.box) x }
    requires set { AreRuns set.now }
    ensures { Step (BoundIsIn extreme (member_of x set.now)) (Holds (member_con (member_of x set.now))) store.old store.new result }
{
    let number = bound(store, x, extreme);
    match near_in(set, extreme, &number) {
        Some(near) => cut(store, x, extreme, &near),
        None => Passed::Empty,
    }
}

/// Drops a value that is not in the set.
fn drop_outside(store: &mut Store, x: Term, set: &Runs, value: i64) -> Passed
    requires term { TermIn (length store.old.box) x }
    requires set { AreRuns set.now }
    ensures { Step (ValueIsIn (member_of x set.now) value) (Holds (member_con (member_of x set.now))) store.old store.new result }
{
    if !can_have(store, x, value) {
        return Passed::Done;
    }
    if set.contains(value) {
        return Passed::Done;
    }
    drop_value(store, x, &value)
}

/// Drops each value from `low` to below `end` that is not in the set.
fn drop_from(store: &mut Store, x: Term, set: &Runs, low: i64, end: i64) -> Passed
    requires term { TermIn (length store.old.box) x }
    requires well_formed { IsBox store.old.box }
    requires set { AreRuns set.now }
    ensures { Step (ValuesAreIn (member_of x set.now) low end) (Holds (member_con (member_of x set.now))) store.old store.new result }
{
    for value in low..end {
        match drop_outside(store, x, set, value) {
            Passed::Empty => return Passed::Empty,
            Passed::Done => {}
        }
    }
    Passed::Done
}

/// Drops each value of a term that is not in the set, unless the term is a variable without a bitmap.
fn drop_each(store: &mut Store, x: Term, set: &Runs) -> Passed
    requires term { TermIn (length store.old.box) x }
    requires set { AreRuns set.now }
    ensures { Step (EachIsIn (member_of x set.now)) (Holds (member_con (member_of x set.now))) store.old store.new result }
{
    if is_wide(store, x) {
        return Passed::Done;
    }
    let low = least(store, x);
    let high = greatest(store, x);
    drop_from(store, x, set, low, high + 1)
}

/// One pass over a term that lies in a set: its bounds, and each of its values where it has a bitmap.
pub(crate) fn pass_member(store: &mut Store, x: Term, set: &Runs) -> Passed
    requires term { TermIn (length store.old.box) x }
    requires set { AreRuns set.now }
    ensures { Step (ConIsOwed (member_con (member_of x set.now))) (Holds (member_con (member_of x set.now))) store.old store.new result }
{
    match cut_to_near(store, x, Extreme::Least, set) {
        Passed::Empty => return Passed::Empty,
        Passed::Done => {}
    }
    match cut_to_near(store, x, Extreme::Greatest, set) {
        Passed::Empty => return Passed::Empty,
        Passed::Done => {}
    }
    drop_each(store, x, set)
}
