//! Narrowings of a term to the values strictly beyond a number.
ghost use Rattle.std.specs.Prelude.{◌≡◌, ◌+ℤ◌, ◌-ℤ◌, pos, length};
ghost use Rattle.fzn_model.specs.Limits.{TermIn, IsValue};
ghost use Rattle.dom_store.specs.Steps.{NarrowsTerm};
ghost use Rattle.alldiff_prop.specs.Strict.{IsAbove, IsBelow, LowIsAbove, HighIsBelow};

use dom_store::{Passed, Store, cut_above, cut_below, greatest, least};
use fzn_model::Term;

/// The number after another.
fn after(number: &i64) -> i64
    requires { IsValue number.now }
    ensures { result ≡ number.now +ℤ pos 1 }
{
    *number + 1
}

/// The number before another.
fn ahead_of(number: &i64) -> i64
    requires { IsValue number.now }
    ensures { result ≡ number.now -ℤ pos 1 }
{
    *number - 1
}

/// Keeps the values of a term that are greater than a number.
pub fn keep_above(store: &mut Store, term: Term, number: &i64) -> Passed
    requires term { TermIn (length store.old.box) term }
    requires number { IsValue number.now }
    ensures { NarrowsTerm (IsAbove number.now) (LowIsAbove term number.now) term store.old store.new result }
{
    if *number < least(store, term) {
        return Passed::Done;
    }
    cut_below(store, term, &after(number))
}

/// Keeps the values of a term that are less than a number.
pub fn keep_below(store: &mut Store, term: Term, number: &i64) -> Passed
    requires term { TermIn (length store.old.box) term }
    requires number { IsValue number.now }
    ensures { NarrowsTerm (IsBelow number.now) (HighIsBelow term number.now) term store.old store.new result }
{
    if greatest(store, term) < *number {
        return Passed::Done;
    }
    cut_above(store, term, &ahead_of(number))
}
