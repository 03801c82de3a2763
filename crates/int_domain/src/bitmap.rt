ghost use Rattle.std.specs.Prelude.{◌≡◌, ℕ, ◌+◌, ◌-◌, ◌<◌, ◌≤◌, ℤ, pos, ◌+ℤ◌, ◌≤ℤ◌, ◌<ℤ◌, true, false, length, filter};
ghost use Rattle.int_domain.specs.Values.{range, is_in_runs, IsWithin, LieBetween};
ghost use Rattle.int_domain.specs.Bits.{marks, Covers};

use crate::LARGEST_VALUE;
use crate::bits::{
    WORDS, all_ones, clear_one, count_ones_between, first_one, is_one, last_one, set_ones,
};

/// Which of the 1,024 numbers from `base` on are marked: one bit for each, the lowest bit of the first word first.
#[derive(Clone, Copy)]
pub(crate) struct Bitmap {
    base: i64,
    words: [u64; WORDS],
}

/// Marks all 1,024 numbers from `base` on.
pub(crate) fn all_marked(base: i64) -> Bitmap
    ensures base { result.base ≡ base }
    ensures marked { (v : ℤ) → Covers result v v → marks result v ≡ true }
{
    Bitmap {
        base,
        words: all_ones(),
    }
}

/// Marks none of the 1,024 numbers from `base` on.
pub(crate) fn none_marked(base: i64) -> Bitmap
    ensures base { result.base ≡ base }
    ensures none { (v : ℤ) → Covers result v v → marks result v ≡ false }
{
    Bitmap {
        base,
        words: [0; WORDS],
    }
}

/// The place of a number, from 0 to 1,023.
fn place_of(bitmap: &Bitmap, value: i64) -> usize
    requires { Covers bitmap.now value value }
    ensures place { (bitmap.now.base +ℤ pos result) ≡ value }
    ensures within { result < 1024 }
{
    (value - bitmap.base) as usize
}

/// Whether a number is marked.
pub(crate) fn is_marked(bitmap: &Bitmap, value: i64) -> bool
    requires { Covers bitmap.now value value }
    ensures { result ≡ marks bitmap.now value }
{
    is_one(&bitmap.words, place_of(bitmap, value))
}

/// The first marked number in `from..=last`; `last` is marked.
pub(crate) fn first_marked(bitmap: &Bitmap, from: i64, last: i64) -> i64
    requires ordered { from ≤ℤ last }
    requires covered { Covers bitmap.now from last }
    requires marked { marks bitmap.now last ≡ true }
    ensures bounds { (from ≤ℤ result) × (result ≤ℤ last) }
    ensures marked { marks bitmap.now result ≡ true }
    ensures below { (v : ℤ) → from ≤ℤ v → v <ℤ result → marks bitmap.now v ≡ false }
{
    let place = first_one(
        &bitmap.words,
        place_of(bitmap, from),
        place_of(bitmap, last),
    );
    bitmap.base + place as i64
}

/// The last marked number in `first..=to`; `first` is marked.
pub(crate) fn last_marked(bitmap: &Bitmap, first: i64, to: i64) -> i64
    requires ordered { first ≤ℤ to }
    requires covered { Covers bitmap.now first to }
    requires marked { marks bitmap.now first ≡ true }
    ensures bounds { (first ≤ℤ result) × (result ≤ℤ to) }
    ensures marked { marks bitmap.now result ≡ true }
    ensures above { (v : ℤ) → result <ℤ v → v ≤ℤ to → marks bitmap.now v ≡ false }
{
    let place = last_one(&bitmap.words, place_of(bitmap, first), place_of(bitmap, to));
    bitmap.base + place as i64
}

/// How many numbers in `low..=high` are marked.
pub(crate) fn count_marked(bitmap: &Bitmap, low: i64, high: i64) -> u64
    requires ordered { low ≤ℤ high }
    requires covered { Covers bitmap.now low high }
    ensures { result ≡ length (filter (marks bitmap.now) (range low high)) }
{
    count_ones_between(
        &bitmap.words,
        place_of(bitmap, low),
        place_of(bitmap, high) + 1,
    )
}

/// Marks the numbers `first..=last`.
pub(crate) fn mark_run(bitmap: &mut Bitmap, first: i64, last: i64)
    requires ordered { first ≤ℤ last }
    requires covered { Covers bitmap.old first last }
    ensures base { bitmap.new.base ≡ bitmap.old.base }
    ensures inside { (v : ℤ) → first ≤ℤ v → v ≤ℤ last → marks bitmap.new v ≡ true }
    ensures below { (v : ℤ) → Covers bitmap.old v v → v <ℤ first → marks bitmap.new v ≡ marks bitmap.old v }
    ensures above { (v : ℤ) → Covers bitmap.old v v → last <ℤ v → marks bitmap.new v ≡ marks bitmap.old v }
{
    let from = place_of(bitmap, first);
    let end = place_of(bitmap, last) + 1;
    set_ones(&mut bitmap.words, from, end);
}

/// Marks the numbers of the runs, of the 1,024 numbers from `base` on.
pub(crate) fn mark_runs(base: i64, runs: &[(i64, i64)]) -> Bitmap
    requires within { IsWithin LARGEST_VALUE base }
    requires runs { LieBetween runs.now base (base +ℤ pos 1023) }
    ensures base { result.base ≡ base }
    ensures marked { (v : ℤ) → Covers result v v → marks result v ≡ is_in_runs runs.now v }
{
    let mut bitmap = none_marked(base);
    for run in runs {
        mark_run(&mut bitmap, run.0, run.1);
    }
    bitmap
}

/// Takes the mark from one number.
pub(crate) fn unmark(bitmap: &mut Bitmap, value: i64)
    requires { Covers bitmap.old value value }
    ensures base { bitmap.new.base ≡ bitmap.old.base }
    ensures gone { marks bitmap.new value ≡ false }
    ensures others { (v : ℤ) → Covers bitmap.old v v → (v ≡ value → ⊥) → marks bitmap.new v ≡ marks bitmap.old v }
{
    let place = place_of(bitmap, value);
    clear_one(&mut bitmap.words, place);
}
