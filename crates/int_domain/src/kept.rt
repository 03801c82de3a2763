//! Which numbers between the bounds of a domain are values: where there is a bitmap those it marks, and else each.

ghost use Rattle.std.specs.Prelude.{◌≡◌, ℤ, pos, ◌+ℤ◌, ◌≤ℤ◌, ◌<ℤ◌, true, false, length, IfSome};
ghost use Rattle.int_domain.specs.Values.{IsWithin, is_in_runs, LieBetween};
ghost use Rattle.int_domain.specs.Bits.{marks};
ghost use Rattle.int_domain.specs.Kept.{keeps, kept_between, Reaches, FitsHull};

use crate::bitmap::{
    Bitmap, all_marked, count_marked, first_marked, is_marked, last_marked, mark_runs,
};
use crate::{LARGEST_NARROW_HULL, LARGEST_VALUE};

/// Whether a number between the bounds is a value.
#[tactic(auto, unfolding(crate::specs::Kept::keeps, crate::specs::Kept::Reaches))]
pub(crate) fn is_kept(bitmap: &Option<Bitmap>, value: i64) -> bool
    requires { Reaches bitmap.now value value }
    ensures { result ≡ keeps bitmap.now value }
{
    match bitmap {
        Some(bitmap) => is_marked(bitmap, value),
        None => true,
    }
}

/// The first value in `from..=last`; `last` is a value.
#[tactic(auto, unfolding(crate::specs::Kept::keeps, crate::specs::Kept::Reaches))]
pub(crate) fn first_kept(bitmap: &Option<Bitmap>, from: i64, last: i64) -> i64
    requires ordered { from ≤ℤ last }
    requires reached { Reaches bitmap.now from last }
    requires kept { keeps bitmap.now last ≡ true }
    ensures bounds { (from ≤ℤ result) × (result ≤ℤ last) }
    ensures kept { keeps bitmap.now result ≡ true }
    ensures below { (v : ℤ) → from ≤ℤ v → v <ℤ result → keeps bitmap.now v ≡ false }
{
    match bitmap {
        Some(bitmap) => first_marked(bitmap, from, last),
        None => from,
    }
}

/// The last value in `first..=to`; `first` is a value.
#[tactic(auto, unfolding(crate::specs::Kept::keeps, crate::specs::Kept::Reaches))]
pub(crate) fn last_kept(bitmap: &Option<Bitmap>, first: i64, to: i64) -> i64
    requires ordered { first ≤ℤ to }
    requires reached { Reaches bitmap.now first to }
    requires kept { keeps bitmap.now first ≡ true }
    ensures bounds { (first ≤ℤ result) × (result ≤ℤ to) }
    ensures kept { keeps bitmap.now result ≡ true }
    ensures above { (v : ℤ) → result <ℤ v → v ≤ℤ to → keeps bitmap.now v ≡ false }
{
    match bitmap {
        Some(bitmap) => last_marked(bitmap, first, to),
        None => to,
    }
}

/// How many values there are in `low..=high`.
#[tactic(auto, unfolding(crate::specs::Kept::keeps, crate::specs::Kept::kept_between, crate::specs::Kept::Reaches))]
pub(crate) fn count_kept(bitmap: &Option<Bitmap>, low: i64, high: i64) -> u64
    requires ordered { low ≤ℤ high }
    requires low_within { IsWithin LARGEST_VALUE low }
    requires high_within { IsWithin LARGEST_VALUE high }
    requires reached { Reaches bitmap.now low high }
    ensures { result ≡ length (kept_between bitmap.now low high) }
{
    match bitmap {
        Some(bitmap) => count_marked(bitmap, low, high),
        None => numbers_between(low, high),
    }
}

/// How many whole numbers there are in `low..=high`.
fn numbers_between(low: i64, high: i64) -> u64
    requires ordered { low ≤ℤ high }
    requires low_within { IsWithin LARGEST_VALUE low }
    requires high_within { IsWithin LARGEST_VALUE high }
    ensures { (low +ℤ pos result) ≡ high +ℤ pos 1 }
{
    (high - low + 1) as u64
}

/// Leaves the values in `low..=high` as they are, with a bitmap only where that hull has 3 to 1,024 numbers.
#[tactic(auto, unfolding(crate::specs::Kept::keeps, crate::specs::Kept::Reaches, crate::specs::Kept::FitsHull))]
pub(crate) fn fit(bitmap: &mut Option<Bitmap>, low: i64, high: i64)
    requires ordered { low ≤ℤ high }
    requires low_within { IsWithin LARGEST_VALUE low }
    requires high_within { IsWithin LARGEST_VALUE high }
    requires reached { Reaches bitmap.old low high }
    requires low_kept { keeps bitmap.old low ≡ true }
    requires high_kept { keeps bitmap.old high ≡ true }
    ensures hull { FitsHull bitmap.new low high }
    ensures same { (v : ℤ) → low ≤ℤ v → v ≤ℤ high → keeps bitmap.new v ≡ keeps bitmap.old v }
{
    if high - low < 2 {
        *bitmap = None;
        return;
    }
    if bitmap.is_none() && high - low < LARGEST_NARROW_HULL {
        *bitmap = Some(all_marked(low));
    }
}

/// The bitmap of a domain that has the values of the runs in `low..=high`: none where that hull has fewer than 3 or more
/// than 1,024 numbers.
#[tactic(auto, unfolding(crate::specs::Kept::FitsHull))]
pub(crate) fn bitmap_of(runs: &[(i64, i64)], low: i64, high: i64) -> Option<Bitmap>
    requires ordered { low ≤ℤ high }
    requires low_within { IsWithin LARGEST_VALUE low }
    requires high_within { IsWithin LARGEST_VALUE high }
    requires between { LieBetween runs.now low high }
    ensures hull { FitsHull result low high }
    ensures marked { IfSome result (λ b. (v : ℤ) → low ≤ℤ v → v ≤ℤ high → marks b v ≡ is_in_runs runs.now v) }
{
    if 2 <= high - low && high - low < LARGEST_NARROW_HULL {
        Some(mark_runs(low, runs))
    } else {
        None
    }
}
