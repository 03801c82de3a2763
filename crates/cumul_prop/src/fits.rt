//! Whether a task fits at a start.
ghost use Rattle.std.specs.Prelude.{◌≡◌, ◌↔◌, ◌<◌, ◌≤◌, ◌*◌, ◌^◌, ◌≤ℤ◌, ◌<ℤ◌, ◌+ℤ◌, ◌-ℤ◌, pos, ℤ, All, IsTrue, IsFalse, length, unsigned_abs, IfSome, IfNone, slice_index_or, ◌+◌};
ghost use Rattle.fzn_model.specs.Limits.{IsValue, IsNear};
ghost use Rattle.fzn_model.proofs.Moments.{part, active};
ghost use Rattle.cumul_prop.specs.Parts.{AreParts, IsUseAt};
ghost use Rattle.cumul_prop.specs.Limits.{IsPlace, IsClash, Clashes, Covers, FitsThere, IsLeast, IsGreatest, NoneUsed, IsFirstEnd, EndsFirst, IsNext};

use crate::parts::{at, load};
use fzn_model::Used;

/// A task to place: its own compulsory part, its least length and use, which are positive, and what is used at most.
#[derive(Clone, Copy)]
pub(crate) struct Place {
    pub own: Used,
    pub duration: i64,
    pub usage: i64,
    pub most: i64,
}

/// What all but the task's own part use at a moment, where so much is used.
fn others(place: &Place, moment: &i64, used: &i128) -> i128
    requires place { IsPlace place.now }
    requires used { (pos 0 ≤ℤ used.now) × (used.now ≤ℤ pos (10000000 * 2 ^ 100)) }
    ensures value { result ≡ used.now -ℤ part place.now.own moment.now }
    ensures small { unsigned_abs result ≤ 10000001 * 2 ^ 100 }
{
    *used - at(&place.own, moment)
}

/// What is used with the task at a moment.
fn with_task(place: &Place, moment: &i64, used: &i128) -> i128
    requires place { IsPlace place.now }
    requires used { (pos 0 ≤ℤ used.now) × (used.now ≤ℤ pos (10000000 * 2 ^ 100)) }
    ensures { result ≡ place.now.usage +ℤ (used.now -ℤ part place.now.own moment.now) }
{
    i128::from(place.usage) + others(place, moment, used)
}

/// Whether the task doesn't fit where so much is used at a moment.
fn is_over(place: &Place, moment: &i64, used: &i128) -> bool
    requires place { IsPlace place.now }
    requires used { (pos 0 ≤ℤ used.now) × (used.now ≤ℤ pos (10000000 * 2 ^ 100)) }
    ensures { IsTrue result ↔ (place.now.most <ℤ (place.now.usage +ℤ (used.now -ℤ part place.now.own moment.now))) }
{
    i128::from(place.most) < with_task(place, moment, used)
}

/// Whether the task doesn't fit at a moment.
#[tactic(auto, unfolding(crate::specs::Limits::Clashes))]
fn clashes(all: &[Used], place: &Place, moment: &i64) -> bool
    requires all { AreParts all.now }
    requires place { IsPlace place.now }
    ensures { IsTrue result ↔ Clashes all.now place.now moment.now }
{
    is_over(place, moment, &load(all, moment))
}

/// Whether the task covers a moment from a start.
#[tactic(auto, unfolding(crate::specs::Limits::Covers))]
fn covers(place: &Place, start: &i64, moment: &i64) -> bool
    requires place { IsPlace place.now }
    requires start { IsValue start.now }
    ensures { IsTrue result ↔ Covers place.now start.now moment.now }
{
    *start <= *moment && *moment < *start + place.duration
}

/// Whether the task doesn't fit at a moment of a list, beside which stands what is used there.
#[tactic(auto, unfolding(crate::specs::Parts::IsUseAt, crate::specs::Limits::Clashes))]
fn clashes_with(all: &[Used], used: &(i64, i128), place: &Place) -> bool
    requires used { IsUseAt all.now used.now }
    requires place { IsPlace place.now }
    ensures { IsTrue result ↔ Clashes all.now place.now used.now.0 }
{
    is_over(place, &used.0, &used.1)
}

/// Whether the task clashes at a moment of a list that it covers from a start.
#[tactic(auto, unfolding(crate::specs::Parts::IsUseAt))]
fn clashes_in(all: &[Used], used: &(i64, i128), place: &Place, start: &i64) -> bool
    requires used { IsUseAt all.now used.now }
    requires place { IsPlace place.now }
    requires start { IsValue start.now }
    ensures yes { IsTrue result → IsClash all.now place.now start.now used.now.0 }
    ensures no { IsFalse result → Covers place.now start.now used.now.0 → Clashes all.now place.now used.now.0 → ⊥ }
{
    covers(place, start, &used.0) && clashes_with(all, used, place)
}

/// The place of the first moment of a list that the task covers from a start, and where it clashes.
#[tactic(auto, unfolding(crate::specs::Limits::FitsThere))]
fn clash_there(all: &[Used], profile: &[(i64, i128)], place: &Place, start: &i64) -> Option<usize>
    requires each { All (IsUseAt all.now) profile.now }
    requires place { IsPlace place.now }
    requires start { IsValue start.now }
    ensures some { IfSome result (λ k. (k < length profile.now) × ((d : ℤ × ℤ) → IsClash all.now place.now start.now (slice_index_or profile.now k d).0)) }
    ensures none { IfNone result (FitsThere all.now profile.now place.now start.now) }
{
    for at in 0..profile.len() {
        if clashes_in(all, &profile[at], place, start) {
            return Some(at);
        }
    }
    None
}

/// Whether an amount is used at a moment.
fn is_used(one: &Used, moment: &i64) -> bool
    ensures { result ≡ active one.now moment.now }
{
    one.from <= *moment && *moment < one.to
}

/// Whether one amount ends before another.
fn ends_before(one: &Used, other: &Used) -> bool
    ensures { IsTrue result ↔ (one.now.to <ℤ other.now.to) }
{
    one.to < other.to
}

/// The place of the first of the amounts up to one that ends first, of those that are used at a moment, told that before
/// it, where none was used.
#[tactic(auto, using(crate::proofs::Ending::unused_none, crate::proofs::Ending::used_none))]
fn end_after_none(all: &[Used], moment: &i64, at: usize) -> Option<usize>
    requires at { at < length all.now }
    requires none { NoneUsed all.now moment.now at }
    ensures { EndsFirst all.now moment.now (at + 1) result }
{
    if is_used(&all[at], moment) {
        return Some(at);
    }
    None
}

/// The same, where one was.
#[tactic(auto, using(crate::proofs::Ending::kept_unused, crate::proofs::Ending::kept_later, crate::proofs::Ending::taken_some))]
fn end_after_one(all: &[Used], moment: &i64, other: usize, at: usize) -> Option<usize>
    requires at { at < length all.now }
    requires first { IsFirstEnd all.now moment.now at other }
    ensures { EndsFirst all.now moment.now (at + 1) result }
{
    if !is_used(&all[at], moment) {
        return Some(other);
    }
    if ends_before(&all[at], &all[other]) {
        return Some(at);
    }
    Some(other)
}

/// The same, in both cases.
fn end_after(all: &[Used], moment: &i64, first: Option<usize>, at: usize) -> Option<usize>
    requires at { at < length all.now }
    requires first { EndsFirst all.now moment.now at first }
    ensures { EndsFirst all.now moment.now (at + 1) result }
{
    match first {
        None => end_after_none(all, moment, at),
        Some(other) => end_after_one(all, moment, other, at),
    }
}

/// The place of the amount that ends first, of those that are used at a moment.
#[tactic(auto, using(crate::proofs::Ending::first_none))]
fn first_end(all: &[Used], moment: &i64) -> Option<usize>
    ensures { EndsFirst all.now moment.now (length all.now) result }
{
    let mut first = None;
    for at in 0..all.len() {
        first = end_after(all, moment, first, at);
    }
    first
}

/// Where the amount in a place ends.
fn end_at(all: &[Used], at: usize) -> i64
    requires { at < length all.now }
    ensures { result ≡ (slice_index_or all.now at (record { from = pos 0; to = pos 0; amount = pos 0 })).to }
{
    all[at].to
}

/// The moment after another.
fn after(moment: &i64) -> i64
    requires { IsNear moment.now }
    ensures { result ≡ moment.now +ℤ pos 1 }
{
    *moment + 1
}

/// A later moment up to which no less is used: where the first of the amounts ends that are used at a moment, or the
/// moment after it where none is.
#[tactic(auto, using(crate::proofs::Ending::next_end, crate::proofs::Ending::next_one))]
fn next_after(all: &[Used], moment: &i64) -> i64
    requires parts { AreParts all.now }
    requires near { IsNear moment.now }
    ensures { IsNext all.now moment.now result }
{
    match first_end(all, moment) {
        Some(at) => end_at(all, at),
        None => after(moment),
    }
}

/// The same after the moment in a place of a list.
fn next_after_place(all: &[Used], profile: &[(i64, i128)], at: usize) -> i64
    requires parts { AreParts all.now }
    requires at { at < length profile.now }
    requires near { IsNear (slice_index_or profile.now at (pos 0, pos 0)).0 }
    ensures { IsNext all.now (slice_index_or profile.now at (pos 0, pos 0)).0 result }
{
    next_after(all, &profile[at].0)
}

/// The moment that lies a length before that in a place of a list.
fn before(profile: &[(i64, i128)], at: usize, duration: &i64) -> i64
    requires at { at < length profile.now }
    requires near { IsNear (slice_index_or profile.now at (pos 0, pos 0)).0 }
    requires duration { IsValue duration.now }
    ensures { result ≡ (slice_index_or profile.now at (pos 0, pos 0)).0 -ℤ duration.now }
{
    profile[at].0 - *duration
}

/// The least start of a task that fits, or a later one before which it clashes.
#[tactic(auto, using(crate::proofs::Placing::least_here, crate::proofs::Placing::least_there, crate::proofs::Placing::least_fits, crate::proofs::Placing::near_there))]
pub(crate) fn least_start(all: &[Used], profile: &[(i64, i128)], place: &Place, low: &i64) -> i64
    requires all { AreParts all.now }
    requires each { All (IsUseAt all.now) profile.now }
    requires place { IsPlace place.now }
    requires low { IsValue low.now }
    ensures { IsLeast all.now profile.now place.now low.now result }
{
    if clashes(all, place, low) {
        return next_after(all, low);
    }
    match clash_there(all, profile, place, low) {
        Some(at) => next_after_place(all, profile, at),
        None => *low,
    }
}

/// The greatest start of a task that fits, or the last from which it ends before a moment where it clashes.
#[tactic(auto, using(crate::proofs::Placing::greatest_here, crate::proofs::Placing::greatest_there, crate::proofs::Placing::greatest_fits, crate::proofs::Placing::near_there))]
pub(crate) fn greatest_start(
    all: &[Used],
    profile: &[(i64, i128)],
    place: &Place,
    high: &i64,
) -> i64
    requires all { AreParts all.now }
    requires each { All (IsUseAt all.now) profile.now }
    requires place { IsPlace place.now }
    requires high { IsValue high.now }
    ensures { IsGreatest all.now profile.now place.now high.now result }
{
    if clashes(all, place, high) {
        return *high - place.duration;
    }
    match clash_there(all, profile, place, high) {
        Some(at) => before(profile, at, &place.duration),
        None => *high,
    }
}
