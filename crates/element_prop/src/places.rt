//! The values of the index whose members can't have the value of the chosen one.
ghost use Rattle.std.specs.Prelude.{◌≡◌, ◌≤◌, ◌<◌, ◌≤ℤ◌, ◌<ℤ◌, ◌+◌, pos, length, IsTrue, IsFalse};
ghost use Rattle.fzn_model.specs.declared.con.Con.TheVariants as con;
ghost use Rattle.fzn_model.specs.Limits.{TermIn};
ghost use Rattle.fzn_model.specs.Boxes.{IsBox};
ghost use Rattle.fzn_model.specs.Bounds.{term_low, term_high};
ghost use Rattle.dom_store.specs.Steps.{NarrowsTerm, IsNot, IsGone};
ghost use Rattle.dom_store.specs.Narrowing.{Prunes};
ghost use Rattle.dom_store.specs.Strength.{HullsMeet};
ghost use Rattle.element_prop.specs.Places.{IsReady, IsIndexed, IsImpossible, AreApart, MeetsBefore};
ghost use Rattle.element_prop.specs.Found.{IsFound, IsLastMet};
ghost use Rattle.fzn_model.specs.Meaning.{Holds};

use crate::index::{first_place, has_place, number_of, places_to};
use dom_store::{Passed, Store, drop_value, greatest, least};
use fzn_model::Term;

/// Whether the least value of a term is at most the greatest of another.
fn reaches(store: &Store, low: Term, high: Term) -> bool
    requires low { TermIn (length store.now.box) low }
    requires high { TermIn (length store.now.box) high }
    ensures yes { IsTrue result → term_low store.now.box low ≤ℤ term_high store.now.box high }
    ensures no { IsFalse result → term_high store.now.box high <ℤ term_low store.now.box low }
{
    least(store, low) <= greatest(store, high)
}

/// Whether the hulls of two terms have a number in common.
#[tactic(auto, using(crate::proofs::Meeting::hulls_meet, crate::proofs::Meeting::apart_below, crate::proofs::Meeting::apart_above))]
fn meet(store: &Store, member: Term, chosen: Term) -> bool
    requires member { TermIn (length store.now.box) member }
    requires chosen { TermIn (length store.now.box) chosen }
    ensures yes { IsTrue result → HullsMeet store.now.box member chosen }
    ensures no { IsFalse result → AreApart store.now.box member chosen }
{
    if !reaches(store, member, chosen) {
        return false;
    }
    reaches(store, chosen, member)
}

/// Drops the number of a place from the index.
fn drop_place(store: &mut Store, index: Term, place: usize) -> Passed
    requires index { TermIn (length store.old.box) index }
    requires place { place ≤ 2000000 }
    ensures narrows { NarrowsTerm (IsNot (pos (place + 1))) (IsGone index (pos (place + 1))) index store.old store.new result }
    ensures reached { (result ≡ Passed.Empty → ⊥) → IsGone index (pos (place + 1)) store.new.box }
{
    drop_value(store, index, &number_of(place))
}

/// What is found of a place.
#[derive(Clone, Copy, Debug, PartialEq, Eq)]
enum Found {
    /// The index can have it, and the hull of its member meets that of the chosen one.
    Met,
    /// The index can't have it, or not any more.
    Gone,
    /// The index can have no other, and not this one.
    Empty,
}

/// Drops a place whose member can't have the value of the chosen one.
#[tactic(auto, using(dom_store::proofs::Laws::prunes_refl, crate::proofs::Meeting::found_unhad, crate::proofs::Meeting::found_met, crate::proofs::Meeting::found_dropped, crate::proofs::Meeting::found_empty))]
fn check_place(
    store: &mut Store,
    index: Term,
    members: &[Term],
    chosen: Term,
    place: usize,
) -> Found
    requires ready { IsReady store.old.box index members.now chosen }
    requires place { place < length members.now }
    ensures prunes { Prunes (Holds (con.Element index members.now chosen)) store.old store.new }
    ensures is_found { IsFound store.new.box index members.now chosen place result }
    ensures none { result ≡ Found.Empty → IsImpossible store.old.box index members.now chosen }
    ensures is { IsBox store.new.box }
{
    if !has_place(store, index, place) {
        return Found::Gone;
    }
    if meet(store, members[place], chosen) {
        return Found::Met;
    }
    match drop_place(store, index, place) {
        Passed::Empty => Found::Empty,
        Passed::Done => Found::Gone,
    }
}

/// Drops the last places whose members can't have the value of the chosen one, down to the first whose member can: of a
/// wide domain only bounds can go, and so one after the other.
#[tactic(auto, using(dom_store::proofs::Laws::prunes_refl, dom_store::proofs::Laws::prunes_trans, crate::proofs::Passing::ready_on, crate::proofs::Passing::none_at_first))]
fn drop_last(store: &mut Store, index: Term, members: &[Term], chosen: Term) -> Passed
    requires ready { IsReady store.old.box index members.now chosen }
    requires indexed { IsIndexed store.old.box index (length members.now) }
    ensures prunes { Prunes (Holds (con.Element index members.now chosen)) store.old store.new }
    ensures met { result ≡ Passed.Done → IsLastMet store.new.box index members.now chosen }
    ensures none { result ≡ Passed.Empty → IsImpossible store.old.box index members.now chosen }
    ensures is { IsBox store.new.box }
{
    let first = first_place(store, index, members);
    let end = places_to(store, index, members);
    for gone in first..end {
        let place = end - 1 - (gone - first);
        match check_place(store, index, members, chosen, place) {
            Found::Met => return Passed::Done,
            Found::Empty => return Passed::Empty,
            Found::Gone => {}
        }
    }
    Passed::Done
}

/// Drops each place whose member can't have the value of the chosen one.
#[tactic(auto, using(dom_store::proofs::Laws::prunes_refl, dom_store::proofs::Laws::prunes_trans, crate::proofs::Passing::ready_on, crate::proofs::Passing::none_at_first, crate::proofs::Meeting::meets_to_first, crate::proofs::Meeting::meets_all, crate::proofs::Passing::meets_again))]
fn check_places(store: &mut Store, index: Term, members: &[Term], chosen: Term) -> Passed
    requires ready { IsReady store.old.box index members.now chosen }
    requires indexed { IsIndexed store.old.box index (length members.now) }
    ensures prunes { Prunes (Holds (con.Element index members.now chosen)) store.old store.new }
    ensures meets { result ≡ Passed.Done → store.new.box ≡ store.old.box → MeetsBefore store.old.box index members.now chosen (length members.now) }
    ensures none { result ≡ Passed.Empty → IsImpossible store.old.box index members.now chosen }
    ensures is { IsBox store.new.box }
{
    let first = first_place(store, index, members);
    let end = places_to(store, index, members);
    for place in first..end {
        if let Found::Empty = check_place(store, index, members, chosen, place) {
            return Passed::Empty;
        }
    }
    Passed::Done
}

/// Drops the places whose members can't have the value of the chosen one.
#[tactic(auto, using(dom_store::proofs::Laws::prunes_trans, crate::proofs::Passing::ready_on, crate::proofs::Passing::indexed_on, crate::proofs::Passing::none_at_first, crate::proofs::Passing::meets_second))]
pub fn drop_places(store: &mut Store, index: Term, members: &[Term], chosen: Term) -> Passed
    requires ready { IsReady store.old.box index members.now chosen }
    requires indexed { IsIndexed store.old.box index (length members.now) }
    ensures prunes { Prunes (Holds (con.Element index members.now chosen)) store.old store.new }
    ensures meets { result ≡ Passed.Done → store.new.box ≡ store.old.box → MeetsBefore store.old.box index members.now chosen (length members.now) }
    ensures none { result ≡ Passed.Empty → IsImpossible store.old.box index members.now chosen }
    ensures is { IsBox store.new.box }
{
    if let Passed::Empty = drop_last(store, index, members, chosen) {
        return Passed::Empty;
    }
    check_places(store, index, members, chosen)
}
