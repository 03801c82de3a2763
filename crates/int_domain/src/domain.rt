ghost use Rattle.std.specs.Prelude.{◌≡◌, ◌<◌, ◌↔◌, [], false, IsTrue, IsNone, IfSome, Contains, length, int_le};
ghost use Rattle.std.specs.Ordering.{int_eq};
ghost use Rattle.int_domain.specs.Values.{AreRuns, IsDomain, values_of, is_wide, low_of, high_of};
ghost use Rattle.int_domain.specs.Narrowing.{Narrows, DropsValue};

use crate::bitmap::{Bitmap, count_marked, unmark};
use crate::kept::{bitmap_of, count_kept, first_kept, fit, is_kept, last_kept};
use crate::narrow::Narrow;
use std::marker::Model;

/// The values that a variable can still have, which contracts see as their list, rising.
///
/// There is at least one. Where the hull, all numbers from the least value to the greatest, has at most
/// [`LARGEST_NARROW_HULL`](crate::LARGEST_NARROW_HULL) numbers, any of them may be missing; a wider domain has no gap.
#[derive(Drop)]
pub struct Domain {
    low: i64,
    high: i64,
    /// How many values there are.
    size: u64,
    /// Which numbers from `low` to `high` are values; none is kept for a wide hull, nor for one without room for a gap.
    bitmap: Option<Bitmap>,
}

impl Model for Domain {
    ghost use Rattle.std.specs.Prelude.{List, ℤ};
    ghost use Rattle.int_domain.specs.Kept.{kept_between, IsSized};

    ghost Value = { List ℤ };

    ghost view = { λ d. kept_between d.bitmap d.low d.high };

    ghost invariant = { λ d. IsSized d.bitmap d.low d.high d.size };
}

/// The domain with the values of some runs.
fn spanning(runs: &[(i64, i64)]) -> Domain
    requires some { 0 < length runs.now }
    requires runs { AreRuns runs.now }
    requires narrow { 1 < length runs.now → is_wide (values_of runs.now) ≡ false }
    ensures { result ≡ values_of runs.now }
{
    let low = runs[0].0;
    let high = runs[runs.len() - 1].1;
    let bitmap = bitmap_of(runs, low, high);
    let size = count_kept(&bitmap, low, high);
    Domain {
        low,
        high,
        size,
        bitmap,
    }
}

impl Domain {
    /// The domain with the values of the runs, each given by its first and its last value; `None` where there is no run.
    ///
    /// The runs rise, with a number between two of them that is in neither, and lie within
    /// [`LARGEST_VALUE`](crate::LARGEST_VALUE). Where there are several, their hull has at most
    /// [`LARGEST_NARROW_HULL`](crate::LARGEST_NARROW_HULL) numbers.
    pub fn from_runs(runs: &[(i64, i64)]) -> Option<Domain>
        requires runs { AreRuns runs.now }
        requires narrow { 1 < length runs.now → is_wide (values_of runs.now) ≡ false }
        ensures none { IsNone result ↔ (runs.now ≡ []) }
        ensures values { IfSome result (λ d. d ≡ values_of runs.now) }
    {
        if runs.is_empty() {
            return None;
        }
        Some(spanning(runs))
    }

    /// The same values.
    pub fn copy(&self) -> Domain
        ensures { result ≡ self.now }
    {
        Domain {
            low: self.low,
            high: self.high,
            size: self.size,
            bitmap: self.bitmap,
        }
    }

    /// The least value.
    pub fn low(&self) -> i64
        ensures value { result ≡ low_of self.now }
        ensures kept { IsDomain self.now }
    {
        self.low
    }

    /// The greatest value.
    pub fn high(&self) -> i64
        ensures value { result ≡ high_of self.now }
        ensures kept { IsDomain self.now }
    {
        self.high
    }

    /// Whether a number is a value.
    pub fn has(&self, value: i64) -> bool
        ensures { IsTrue result ↔ Contains self.now value }
    {
        if value < self.low || self.high < value {
            return false;
        }
        is_kept(&self.bitmap, value)
    }

    /// How many values there are.
    pub fn size(&self) -> u64
        ensures { result ≡ length self.now }
    {
        self.size
    }

    /// Keeps the values that are at least `low`. `Empty`, where none is, leaves the domain as it was.
    pub fn cut_below(&mut self, low: i64) -> Narrow
        ensures narrows { Narrows (λ x. int_le low x) self.old self.new result }
        ensures falls { result ≡ Narrow.Changed → length self.new < length self.old }
    {
        if low <= self.low {
            return Narrow::Same;
        }
        if low > self.high {
            return Narrow::Empty;
        }
        let first = first_kept(&self.bitmap, low, self.high);
        fit(&mut self.bitmap, first, self.high);
        self.low = first;
        self.size = count_kept(&self.bitmap, first, self.high);
        Narrow::Changed
    }

    /// Keeps the values that are at most `high`. `Empty`, where none is, leaves the domain as it was.
    pub fn cut_above(&mut self, high: i64) -> Narrow
        ensures narrows { Narrows (λ x. int_le x high) self.old self.new result }
        ensures falls { result ≡ Narrow.Changed → length self.new < length self.old }
    {
        if self.high <= high {
            return Narrow::Same;
        }
        if high < self.low {
            return Narrow::Empty;
        }
        let last = last_kept(&self.bitmap, self.low, high);
        fit(&mut self.bitmap, self.low, last);
        self.high = last;
        self.size = count_kept(&self.bitmap, self.low, last);
        Narrow::Changed
    }

    /// Keeps one value. `Empty`, where it is no value of the domain, leaves the domain as it was.
    pub fn fix(&mut self, value: i64) -> Narrow
        ensures narrows { Narrows (λ x. int_eq x value) self.old self.new result }
        ensures falls { result ≡ Narrow.Changed → length self.new < length self.old }
    {
        if !self.has(value) {
            return Narrow::Empty;
        }
        if self.low == self.high {
            return Narrow::Same;
        }
        self.bitmap = None;
        self.low = value;
        self.high = value;
        self.size = 1;
        Narrow::Changed
    }

    /// Keeps all values but one. `Empty`, where there is no other, leaves the domain as it was. Strictly between the bounds of a domain whose hull has more than
    /// [`LARGEST_NARROW_HULL`](crate::LARGEST_NARROW_HULL) numbers, the value stays, and the answer is `Same`.
    pub fn drop_value(&mut self, value: i64) -> Narrow
        ensures drops { DropsValue value self.old self.new result }
        ensures falls { result ≡ Narrow.Changed → length self.new < length self.old }
    {
        if !self.has(value) {
            return Narrow::Same;
        }
        if self.low == self.high {
            return Narrow::Empty;
        }
        if value == self.low {
            return self.cut_below(value + 1);
        }
        if value == self.high {
            return self.cut_above(value - 1);
        }
        if let Some(bitmap) = &mut self.bitmap {
            unmark(bitmap, value);
            self.size = count_marked(bitmap, self.low, self.high);
            return Narrow::Changed;
        }
        Narrow::Same
    }
}
