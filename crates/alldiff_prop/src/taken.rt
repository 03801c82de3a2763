//! The taken numbers.
ghost use Rattle.std.specs.Prelude.{◌≡◌, ◌↔◌, ◌≤ℤ◌, ◌+◌, ◌+ℤ◌, pos, length, IsTrue, IfOk, Contains};
ghost use Rattle.fzn_model.specs.Limits.{IsValue};
ghost use Rattle.dom_store.specs.Strength.{free_count};
ghost use Rattle.alldiff_prop.specs.Rising.{Rises, how_many_within};

use crate::rising::{count_below, rising};
use fzn_model::List;
use std::alloc::{AllocError, Global};
use std::marker::Model;

/// The taken numbers as they were given, which contracts see, and in order.
#[derive(Drop)]
pub struct Taken {
    given: List<i64>,
    rising: Vec<i64>,
}

impl Model for Taken {
    ghost use Rattle.std.specs.Prelude.{List, ℤ};
    ghost use Rattle.alldiff_prop.specs.Rising.{IsRising};

    ghost Value = { List ℤ };

    ghost view = { λ t. t.given };

    ghost invariant = { λ t. IsRising t.given t.rising.items };
}

/// How many numbers there are from one to another.
fn size(low: &i64, high: &i64) -> usize
    requires order { low.now ≤ℤ high.now }
    requires first { IsValue low.now }
    requires last { IsValue high.now }
    ensures { low.now +ℤ pos result ≡ high.now +ℤ pos 1 }
{
    (*high - *low + 1) as usize
}

/// How many of the numbers, which rise, lie from one to another.
fn count_within(numbers: &[i64], low: &i64, high: &i64) -> usize
    requires rises { Rises numbers.now }
    requires order { low.now ≤ℤ high.now }
    requires last { IsValue high.now }
    ensures { result ≡ how_many_within numbers.now low.now high.now }
{
    count_below(numbers, &(*high + 1)) - count_below(numbers, low)
}

impl Taken {
    /// The taken numbers, put in order.
    pub fn new(alloc: Global, given: &List<i64>) -> Result<Taken, AllocError>
        ensures { IfOk result (λ taken. taken ≡ given.now) }
    {
        let copy = given.copy(alloc)?;
        let numbers = Vec::from_slice(alloc, given.as_slice())?;
        Ok(Taken {
            given: copy,
            rising: rising(numbers),
        })
    }

    /// Whether no number is taken.
    pub fn is_empty(&self) -> bool
        ensures { IsTrue result → length self.now ≡ 0 }
    {
        self.given.as_slice().is_empty()
    }

    /// How many numbers from one to another aren't taken.
    pub fn free_between(&self, low: &i64, high: &i64) -> usize
        requires order { low.now ≤ℤ high.now }
        requires first { IsValue low.now }
        requires last { IsValue high.now }
        ensures { result ≡ free_count self.now low.now high.now }
    {
        size(low, high) - count_within(self.rising.as_slice(), low, high)
    }

    /// Whether a number is taken.
    pub fn has(&self, number: &i64) -> bool
        requires { IsValue number.now }
        ensures { IsTrue result ↔ Contains self.now number.now }
    {
        self.free_between(number, number) == 0
    }
}
