//! Narrowings that leave a term values of a list.
ghost use Rattle.std.specs.Prelude.{◌≡◌, ◌<◌, ◌≤◌, ◌+◌, ◌+ℤ◌, pos, length, Contains};
ghost use Rattle.fzn_model.specs.Limits.{TermIn, IsValue};
ghost use Rattle.fzn_model.specs.Boxes.{IsBox};
ghost use Rattle.fzn_model.specs.Bounds.{term_low, term_high};
ghost use Rattle.dom_store.specs.Steps.{NarrowsTerm};
ghost use Rattle.table_prop.specs.Marks.{AreMarks};
ghost use Rattle.table_prop.specs.Among.{IsFirstTo, IsLastTo, IsAmong, LowIsAmong, HighIsAmong, ValueIsAmong, ValuesAreAmong, EachIsAmong, AreAmong};

use crate::marks::put_marks;
use dom_store::{Passed, Store, can_have, cut_above, cut_below, drop_value, greatest, least};
use fzn_model::Term;

/// How many numbers the hull of a variable with a bitmap has at most.
const NARROW: usize = 1024;

/// That of two places whose number is less, the first where both are equal.
#[tactic(auto, using(crate::proofs::Choosing::first_taken, crate::proofs::Choosing::first_kept))]
fn lesser(values: &[i64], place: usize, at: usize) -> usize
    requires first { IsFirstTo values.now at place }
    requires at { at < length values.now }
    ensures { IsFirstTo values.now (at + 1) result }
{
    if values[at] < values[place] {
        at
    } else {
        place
    }
}

/// That of two places whose number is greater, the first where both are equal.
#[tactic(auto, using(crate::proofs::Choosing::last_taken, crate::proofs::Choosing::last_kept))]
fn greater(values: &[i64], place: usize, at: usize) -> usize
    requires last { IsLastTo values.now at place }
    requires at { at < length values.now }
    ensures { IsLastTo values.now (at + 1) result }
{
    if values[place] < values[at] {
        at
    } else {
        place
    }
}

/// The place of the least number of some.
#[tactic(auto, using(crate::proofs::Choosing::first_none))]
fn first_place(values: &[i64]) -> usize
    requires { 0 < length values.now }
    ensures { IsFirstTo values.now (length values.now) result }
{
    let mut place = 0;
    for at in 0..values.len() {
        place = lesser(values, place, at);
    }
    place
}

/// The place of the greatest number of some.
#[tactic(auto, using(crate::proofs::Choosing::last_none))]
fn last_place(values: &[i64]) -> usize
    requires { 0 < length values.now }
    ensures { IsLastTo values.now (length values.now) result }
{
    let mut place = 0;
    for at in 0..values.len() {
        place = greater(values, place, at);
    }
    place
}

/// Raises the least value of a term to the least number of a list.
fn cut_below_first(store: &mut Store, term: Term, values: &[i64]) -> Passed
    requires term { TermIn (length store.old.box) term }
    requires well_formed { IsBox store.old.box }
    ensures { NarrowsTerm (IsAmong values.now) (LowIsAmong term values.now) term store.old store.new result }
{
    if values.is_empty() {
        return Passed::Empty;
    }
    cut_below(store, term, &values[first_place(values)])
}

/// Lowers the greatest value of a term to the greatest number of a list.
fn cut_above_last(store: &mut Store, term: Term, values: &[i64]) -> Passed
    requires term { TermIn (length store.old.box) term }
    requires well_formed { IsBox store.old.box }
    ensures { NarrowsTerm (IsAmong values.now) (HighIsAmong term values.now) term store.old store.new result }
{
    if values.is_empty() {
        return Passed::Empty;
    }
    cut_above(store, term, &values[last_place(values)])
}

/// The number that is so many above another.
fn above(low: &i64, step: usize) -> i64
    requires low { IsValue low.now }
    requires step { step ≤ 1024 }
    ensures { result ≡ low.now +ℤ pos step }
{
    *low + step as i64
}

/// Drops a value of a term that is not in a list.
fn drop_unmarked(store: &mut Store, term: Term, values: &[i64], value: &i64) -> Passed
    requires term { TermIn (length store.old.box) term }
    requires unlisted { Contains values.now value.now → ⊥ }
    ensures { NarrowsTerm (IsAmong values.now) (ValueIsAmong term values.now value.now) term store.old store.new result }
{
    if !can_have(store, term, *value) {
        return Passed::Done;
    }
    drop_value(store, term, value)
}

/// Drops the value of a term that is so many above a number, where it has no mark.
fn drop_unlisted(
    store: &mut Store,
    term: Term,
    values: &[i64],
    marks: &[bool],
    low: &i64,
    span: usize,
    step: usize,
) -> Passed
    requires term { TermIn (length store.old.box) term }
    requires well_formed { IsBox store.old.box }
    requires low { IsValue low.now }
    requires span { span < 1024 }
    requires step { step ≤ span }
    requires marks { AreMarks values.now low.now (span + 1) marks.now }
    ensures { NarrowsTerm (IsAmong values.now) (ValueIsAmong term values.now (low.now +ℤ pos step)) term store.old store.new result }
{
    if marks[step] {
        return Passed::Done;
    }
    drop_unmarked(store, term, values, &above(low, step))
}

/// Drops each value of a term that is not in a list, from a number up to the one that is so many above it.
fn drop_from(
    store: &mut Store,
    term: Term,
    values: &[i64],
    marks: &[bool],
    low: &i64,
    span: usize,
) -> Passed
    requires term { TermIn (length store.old.box) term }
    requires well_formed { IsBox store.old.box }
    requires low { IsValue low.now }
    requires span { span < 1024 }
    requires marks { AreMarks values.now low.now (span + 1) marks.now }
    ensures { NarrowsTerm (IsAmong values.now) (ValuesAreAmong term values.now low.now (span + 1)) term store.old store.new result }
{
    for step in 0..span + 1 {
        match drop_unlisted(store, term, values, marks, low, span, step) {
            Passed::Empty => return Passed::Empty,
            Passed::Done => {}
        }
    }
    Passed::Done
}

/// How far the greatest value of a term is above its least.
fn span_of(store: &Store, term: Term) -> usize
    requires { TermIn (length store.now.box) term }
    ensures { term_low store.now.box term +ℤ pos result ≡ term_high store.now.box term }
{
    (greatest(store, term) - least(store, term)) as usize
}

/// Drops each value of a term that is not in a list, unless the term is a variable without a bitmap.
fn drop_others(store: &mut Store, term: Term, values: &[i64], marks: &mut [bool]) -> Passed
    requires term { TermIn (length store.old.box) term }
    requires room { 1024 ≤ length marks.old }
    ensures { NarrowsTerm (IsAmong values.now) (EachIsAmong term values.now) term store.old store.new result }
{
    let low = least(store, term);
    let span = span_of(store, term);
    if span >= NARROW {
        return Passed::Done;
    }
    put_marks(values, &low, &greatest(store, term), span + 1, marks);
    drop_from(store, term, values, marks, &low, span)
}

/// Keeps the values of a term that are in a list: its bounds, and each of its values where it has a bitmap.
pub(crate) fn keep_listed(
    store: &mut Store,
    term: Term,
    values: &[i64],
    marks: &mut [bool],
) -> Passed
    requires room { 1024 ≤ length marks.old }
    requires term { TermIn (length store.old.box) term }
    requires well_formed { IsBox store.old.box }
    ensures { NarrowsTerm (IsAmong values.now) (AreAmong term values.now) term store.old store.new result }
{
    match cut_below_first(store, term, values) {
        Passed::Empty => return Passed::Empty,
        Passed::Done => {}
    }
    match cut_above_last(store, term, values) {
        Passed::Empty => return Passed::Empty,
        Passed::Done => {}
    }
    drop_others(store, term, values, marks)
}
