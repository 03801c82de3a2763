//! The index, and the places that it can have.
ghost use Rattle.std.specs.Prelude.{◌≡◌, ◌↔◌, ◌≤◌, ◌≤ℤ◌, ◌+◌, pos, length, IsTrue};
ghost use Rattle.fzn_model.specs.declared.con.Con.TheVariants as con;
ghost use Rattle.fzn_model.specs.Limits.{TermIn};
ghost use Rattle.fzn_model.specs.Boxes.{IsBox};
ghost use Rattle.fzn_model.specs.Bounds.{term_low, term_high, TermHas};
ghost use Rattle.dom_store.specs.Narrowing.{Prunes};
ghost use Rattle.dom_store.specs.Strength.{IsPlace};
ghost use Rattle.element_prop.specs.Places.{IsReady, IsIndexed, IsImpossible};
ghost use Rattle.fzn_model.specs.Meaning.{Holds};

use crate::between::limit;
use dom_store::{Passed, Store, can_have, greatest, least};
use fzn_model::Term;

/// The number of a place, which counts from 1.
pub fn number_of(place: usize) -> i64
    requires { place ≤ 2000000 }
    ensures { result ≡ pos (place + 1) }
{
    place as i64 + 1
}

/// How many places a list has.
fn count_of(members: &[Term]) -> i64
    requires { length members.now ≤ 2000000 }
    ensures { result ≡ pos (length members.now) }
{
    members.len() as i64
}

/// Whether the index can have the number of a place.
pub fn has_place(store: &Store, index: Term, place: usize) -> bool
    requires index { TermIn (length store.now.box) index }
    requires place { place ≤ 2000000 }
    ensures { IsTrue result ↔ TermHas store.now.box index (pos (place + 1)) }
{
    can_have(store, index, number_of(place))
}

/// The place of a number.
fn place_of(number: &i64) -> usize
    requires number { pos 1 ≤ℤ number.now }
    ensures { pos (result + 1) ≡ number.now }
{
    (*number - 1) as usize
}

/// How many places there are up to a number.
fn count_to(number: &i64) -> usize
    requires number { pos 0 ≤ℤ number.now }
    ensures { pos result ≡ number.now }
{
    *number as usize
}

/// The first place that the index can have.
pub fn first_place(store: &Store, index: Term, members: &[Term]) -> usize
    requires index { TermIn (length store.now.box) index }
    requires indexed { IsIndexed store.now.box index (length members.now) }
    requires well_formed { IsBox store.now.box }
    ensures value { pos (result + 1) ≡ term_low store.now.box index }
    ensures place { IsPlace store.now.box index members.now result }
{
    place_of(&least(store, index))
}

/// How many places there are up to the last that the index can have.
pub fn places_to(store: &Store, index: Term, members: &[Term]) -> usize
    requires index { TermIn (length store.now.box) index }
    requires indexed { IsIndexed store.now.box index (length members.now) }
    requires well_formed { IsBox store.now.box }
    ensures value { pos result ≡ term_high store.now.box index }
    ensures few { result ≤ length members.now }
{
    count_to(&greatest(store, index))
}

/// Keeps the numbers of places.
pub fn bound_index(store: &mut Store, index: Term, members: &[Term], chosen: Term) -> Passed
    requires { IsReady store.old.box index members.now chosen }
    ensures prunes { Prunes (Holds (con.Element index members.now chosen)) store.old store.new }
    ensures indexed { result ≡ Passed.Done → IsIndexed store.new.box index (length members.now) }
    ensures none { result ≡ Passed.Empty → IsImpossible store.old.box index members.now chosen }
    ensures is { IsBox store.new.box }
{
    limit(store, index, &1, &count_of(members))
}
