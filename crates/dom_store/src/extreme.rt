//! One bound of a term, by which of the two is meant.
ghost use Rattle.std.specs.Prelude.{◌≡◌, length};
ghost use Rattle.fzn_model.specs.Limits.{TermIn, IsValue};
ghost use Rattle.fzn_model.specs.Boxes.{IsBox};
ghost use Rattle.dom_store.specs.Steps.{NarrowsTerm, NarrowsAlone};
ghost use Rattle.dom_store.specs.Extremes.{opposite, bound_of, Bounds, BoundsTerm};

use crate::pass::Passed;
use crate::store::Store;
use crate::terms::{cut_above, cut_below, greatest, least};
use fzn_model::Term;

/// The least or the greatest of some numbers.
#[derive(Clone, Copy)]
pub enum Extreme {
    Least,
    Greatest,
}

/// The least for the greatest, and the greatest for the least.
pub fn opposite(extreme: Extreme) -> Extreme
    ensures { result ≡ opposite extreme }
{
    match extreme {
        Extreme::Least => Extreme::Greatest,
        Extreme::Greatest => Extreme::Least,
    }
}

/// The least or the greatest value of a term.
#[tactic(auto, unfolding(crate::specs::Extremes::bound_of))]
pub fn bound(store: &Store, term: Term, extreme: Extreme) -> i64
    requires { TermIn (length store.now.box) term }
    ensures value { result ≡ bound_of extreme term store.now.box }
    ensures range { IsValue result }
    ensures well_formed { IsBox store.now.box }
{
    match extreme {
        Extreme::Least => least(store, term),
        Extreme::Greatest => greatest(store, term),
    }
}

/// Keeps the values of a term that are at least a number, or at most. `Empty`, where none is, leaves the store as it was.
pub fn cut(store: &mut Store, term: Term, extreme: Extreme, number: &i64) -> Passed
    requires { TermIn (length store.old.box) term }
    ensures narrows { NarrowsTerm (Bounds extreme number.now) (BoundsTerm extreme number.now term) term store.old store.new result }
    ensures alone { NarrowsAlone term store.old store.new result }
    ensures reached { (result ≡ Passed.Empty → ⊥) → BoundsTerm extreme number.now term store.new.box }
{
    match extreme {
        Extreme::Least => cut_below(store, term, number),
        Extreme::Greatest => cut_above(store, term, number),
    }
}
