//! The hull of the members that the index can have.
ghost use Rattle.std.specs.Prelude.{◌≡◌, ◌≤◌, ◌≤ℤ◌, length, All, IsTrue, IsFalse};
ghost use Rattle.fzn_model.specs.declared.con.Con.TheVariants as con;
ghost use Rattle.fzn_model.specs.Limits.{TermIn};
ghost use Rattle.fzn_model.specs.Boxes.{IsBox};
ghost use Rattle.fzn_model.specs.Bounds.{term_low, term_high, IsFixed};
ghost use Rattle.dom_store.specs.Narrowing.{Prunes};
ghost use Rattle.dom_store.specs.Strength.{IsPlace};
ghost use Rattle.element_prop.specs.Places.{member, IsReady, IsIndexed, IsImpossible, IsLeastBefore, IsMostBefore, IsWithin, IsJoined};
ghost use Rattle.fzn_model.specs.Meaning.{Holds};

use crate::between::limit;
use crate::index::{first_place, has_place, places_to};
use dom_store::{Passed, Store, greatest, least};
use fzn_model::Term;

/// The places of a member with the least low, and of one with the greatest high.
#[derive(Clone, Copy, Debug, PartialEq, Eq)]
pub struct Ends {
    pub low: usize,
    pub high: usize,
}

/// The one of two places whose member has the lesser low.
fn lower(store: &Store, index: Term, members: &[Term], at: usize, place: usize) -> usize
    requires members { All (TermIn (length store.now.box)) members.now }
    requires at { IsPlace store.now.box index members.now at }
    requires place { IsPlace store.now.box index members.now place }
    ensures place { IsPlace store.now.box index members.now result }
    ensures first { term_low store.now.box (member members.now result) ≤ℤ term_low store.now.box (member members.now at) }
    ensures second { term_low store.now.box (member members.now result) ≤ℤ term_low store.now.box (member members.now place) }
{
    if least(store, members[place]) < least(store, members[at]) {
        place
    } else {
        at
    }
}

/// The one of two places whose member has the greater high.
fn higher(store: &Store, index: Term, members: &[Term], at: usize, place: usize) -> usize
    requires members { All (TermIn (length store.now.box)) members.now }
    requires at { IsPlace store.now.box index members.now at }
    requires place { IsPlace store.now.box index members.now place }
    ensures place { IsPlace store.now.box index members.now result }
    ensures first { term_high store.now.box (member members.now at) ≤ℤ term_high store.now.box (member members.now result) }
    ensures second { term_high store.now.box (member members.now place) ≤ℤ term_high store.now.box (member members.now result) }
{
    if greatest(store, members[at]) < greatest(store, members[place]) {
        place
    } else {
        at
    }
}

/// The places of the ends of the hull of all members that the index can have.
#[tactic(auto, using(crate::proofs::Ending::least_to_first, crate::proofs::Ending::most_to_first, crate::proofs::Ending::least_all, crate::proofs::Ending::most_all, crate::proofs::Ending::least_pass, crate::proofs::Ending::most_pass, crate::proofs::Ending::least_more, crate::proofs::Ending::most_more))]
fn ends_of(store: &Store, index: Term, members: &[Term]) -> Ends
    requires well_formed { IsBox store.now.box }
    requires index { TermIn (length store.now.box) index }
    requires members { All (TermIn (length store.now.box)) members.now }
    requires count { length members.now ≤ 2000000 }
    requires indexed { IsIndexed store.now.box index (length members.now) }
    ensures low { IsPlace store.now.box index members.now result.low }
    ensures high { IsPlace store.now.box index members.now result.high }
    ensures least { IsLeastBefore store.now.box index members.now result.low (length members.now) }
    ensures most { IsMostBefore store.now.box index members.now result.high (length members.now) }
{
    let first = first_place(store, index, members);
    let mut low = first;
    let mut high = first;
    let end = places_to(store, index, members);
    for place in first..end {
        if !has_place(store, index, place) {
            continue;
        }
        low = lower(store, index, members, low, place);
        high = higher(store, index, members, high, place);
    }
    Ends { low, high }
}

/// Keeps the values of the chosen term within the hull of the members that the index can have.
fn bound_chosen(store: &mut Store, index: Term, members: &[Term], chosen: Term) -> Passed
    requires ready { IsReady store.old.box index members.now chosen }
    requires indexed { IsIndexed store.old.box index (length members.now) }
    ensures prunes { Prunes (Holds (con.Element index members.now chosen)) store.old store.new }
    ensures within { result ≡ Passed.Done → store.new.box ≡ store.old.box → IsWithin store.old.box index members.now chosen }
    ensures none { result ≡ Passed.Empty → IsImpossible store.old.box index members.now chosen }
    ensures is { IsBox store.new.box }
{
    let ends = ends_of(store, index, members);
    let low = least(store, members[ends.low]);
    let high = greatest(store, members[ends.high]);
    limit(store, chosen, &low, &high)
}

/// Whether a term has several values.
fn is_open(store: &Store, term: Term) -> bool
    requires { TermIn (length store.now.box) term }
    ensures open { IsTrue result → IsFixed store.now.box term → ⊥ }
    ensures fixed { IsFalse result → IsFixed store.now.box term }
{
    least(store, term) != greatest(store, term)
}

/// Where the index is fixed, keeps the values of the member in its place within the hull of the chosen term.
#[tactic(auto, using(dom_store::proofs::Laws::prunes_refl, crate::proofs::Ending::joined_open))]
fn bound_member(store: &mut Store, index: Term, members: &[Term], chosen: Term) -> Passed
    requires ready { IsReady store.old.box index members.now chosen }
    requires indexed { IsIndexed store.old.box index (length members.now) }
    ensures prunes { Prunes (Holds (con.Element index members.now chosen)) store.old store.new }
    ensures joined { result ≡ Passed.Done → store.new.box ≡ store.old.box → IsJoined store.old.box index members.now chosen }
    ensures none { result ≡ Passed.Empty → IsImpossible store.old.box index members.now chosen }
    ensures is { IsBox store.new.box }
{
    if is_open(store, index) {
        return Passed::Done;
    }
    let member = members[first_place(store, index, members)];
    let low = least(store, chosen);
    let high = greatest(store, chosen);
    limit(store, member, &low, &high)
}

/// Narrows the chosen term by the members, and the member of a fixed index by the chosen term.
#[tactic(auto, using(dom_store::proofs::Laws::prunes_trans, crate::proofs::Passing::ready_on, crate::proofs::Passing::indexed_on, crate::proofs::Passing::none_at_first, crate::proofs::Passing::within_first, crate::proofs::Passing::joined_second))]
pub fn bound_terms(store: &mut Store, index: Term, members: &[Term], chosen: Term) -> Passed
    requires ready { IsReady store.old.box index members.now chosen }
    requires indexed { IsIndexed store.old.box index (length members.now) }
    ensures prunes { Prunes (Holds (con.Element index members.now chosen)) store.old store.new }
    ensures within { result ≡ Passed.Done → store.new.box ≡ store.old.box → IsWithin store.old.box index members.now chosen }
    ensures joined { result ≡ Passed.Done → store.new.box ≡ store.old.box → IsJoined store.old.box index members.now chosen }
    ensures none { result ≡ Passed.Empty → IsImpossible store.old.box index members.now chosen }
    ensures is { IsBox store.new.box }
{
    if let Passed::Empty = bound_chosen(store, index, members, chosen) {
        return Passed::Empty;
    }
    bound_member(store, index, members, chosen)
}
