//! The bounds of a sum of coefficients times terms, from one walk over it.
ghost use Rattle.std.specs.Prelude.{◌≡◌, ◌≤◌, ◌*◌, ◌*ℤ◌, ◌-ℤ◌, length, unsigned_abs};
ghost use Rattle.fzn_model.specs.Values.{largest};
ghost use Rattle.fzn_model.specs.Limits.{IsValue, TermIn, SumInLimits};
ghost use Rattle.fzn_model.specs.Bounds.{scaled_low, scaled_high};
ghost use Rattle.dom_store.specs.Sums.{IsReach};

use crate::store::Store;
use crate::terms::{greatest, least};
use fzn_model::Term;

/// A coefficient times a value.
pub fn product(scaled: &(i64, Term), value: i64) -> i64
    requires factor { IsValue scaled.now.0 }
    requires value { IsValue value }
    ensures value { result ≡ scaled.now.0 *ℤ value }
    ensures small { unsigned_abs result ≤ largest * largest }
{
    scaled.0 * value
}

/// What one walk over a sum tells. A sum of 2,000,000 products of 10^12 fits.
#[derive(Clone, Copy)]
pub struct Reach {
    /// The least of the sum.
    pub low: i64,
    /// The greatest of the sum.
    pub high: i64,
    /// No term rises from its least by more.
    pub rise: i64,
}

/// How far a coefficient times a term reaches, and how far it rises.
fn reach_of_one(store: &Store, scaled: &(i64, Term)) -> Reach
    requires factor { IsValue scaled.now.0 }
    requires term { TermIn (length store.now.box) scaled.now.1 }
    ensures low { result.low ≡ scaled_low store.now.box scaled.now }
    ensures high { result.high ≡ scaled_high store.now.box scaled.now }
    ensures rise { result.rise ≡ scaled_high store.now.box scaled.now -ℤ scaled_low store.now.box scaled.now }
    ensures small_low { unsigned_abs result.low ≤ largest * largest }
    ensures small_high { unsigned_abs result.high ≤ largest * largest }
{
    let first = product(scaled, least(store, scaled.1));
    let second = product(scaled, greatest(store, scaled.1));
    let low = first.min(second);
    let high = first.max(second);
    Reach {
        low,
        high,
        rise: high - low,
    }
}

/// How far a sum reaches, and how far its terms rise.
pub fn reach_of(store: &Store, terms: &[(i64, Term)]) -> Reach
    requires { SumInLimits (length store.now.box) terms.now }
    ensures { IsReach store.now.box terms.now result }
{
    let mut low: i64 = 0;
    let mut high: i64 = 0;
    let mut rise: i64 = 0;
    for scaled in terms {
        let one = reach_of_one(store, scaled);
        low += one.low;
        high += one.high;
        rise = rise.max(one.rise);
    }
    Reach { low, high, rise }
}
