//! What the starts of the tasks can be.
ghost use Rattle.std.specs.Prelude.{◌≡◌, ◌<◌, pos, length, All, IsTrue, OnOk, slice_index_or, ◌↔◌};
ghost use Rattle.fzn_model.specs.declared.term.Term.TheVariants as term;
ghost use Rattle.fzn_model.specs.Limits.{TermIn, IsValue};
ghost use Rattle.fzn_model.specs.Bounds.{term_low, term_high};
ghost use Rattle.cumul_prop.specs.Parts.{IsReady, AreParts, IsUseAt, IsProfile, AreWithin};
ghost use Rattle.cumul_prop.specs.Limits.{IsPlace, IsPlaceOf, NeedsPlace, IsLeast, IsGreatest, IsLimit, AreLimits};

use crate::fits::{Place, greatest_start, least_start};
use crate::parts::compulsory;
use dom_store::{Store, greatest, least};
use fzn_model::{CumTask, Term, Used};
use std::alloc::AllocError;

/// Whether a task has a length and a use for sure.
#[tactic(auto, unfolding(crate::specs::Limits::NeedsPlace))]
fn needs_place(store: &Store, task: &CumTask) -> bool
    requires duration { TermIn (length store.now.box) task.now.d }
    requires usage { TermIn (length store.now.box) task.now.r }
    ensures { IsTrue result ↔ NeedsPlace store.now.box task.now }
{
    least(store, task.d) > 0 && least(store, task.r) > 0
}

/// A task to place.
#[tactic(auto, unfolding(crate::specs::Limits::NeedsPlace))]
fn place_of(store: &Store, task: &CumTask, capacity: Term) -> Place
    requires terms { TermIn (length store.now.box) task.now.s × TermIn (length store.now.box) task.now.d × TermIn (length store.now.box) task.now.r }
    requires capacity { TermIn (length store.now.box) capacity }
    requires needs { NeedsPlace store.now.box task.now }
    ensures place { IsPlace result }
    ensures of { IsPlaceOf store.now.box capacity task.now result }
{
    Place {
        own: compulsory(store, task),
        duration: least(store, task.d),
        usage: least(store, task.r),
        most: greatest(store, capacity),
    }
}

/// The bounds of the start of a task.
fn bounds_of(store: &Store, task: &CumTask) -> (i64, i64)
    requires { TermIn (length store.now.box) task.now.s }
    ensures low { result.0 ≡ term_low store.now.box task.now.s }
    ensures high { result.1 ≡ term_high store.now.box task.now.s }
    ensures values { IsValue result.0 × IsValue result.1 }
{
    (least(store, task.s), greatest(store, task.s))
}

/// The least and the greatest start of a task to place.
fn starts_of(
    all: &[Used],
    profile: &[(i64, i128)],
    place: &Place,
    bounds: &(i64, i64),
) -> (i64, i64)
    requires all { AreParts all.now }
    requires profile { All (IsUseAt all.now) profile.now }
    requires place { IsPlace place.now }
    requires bounds { IsValue bounds.now.0 × IsValue bounds.now.1 }
    ensures least { IsLeast all.now profile.now place.now bounds.now.0 result.0 }
    ensures greatest { IsGreatest all.now profile.now place.now bounds.now.1 result.1 }
{
    (
        least_start(all, profile, place, &bounds.0),
        greatest_start(all, profile, place, &bounds.1),
    )
}

/// What the start of a task can be. A fixed one fits where what is used for sure does.
#[tactic(auto, using(crate::proofs::Fitting::limit_placed, crate::proofs::Fitting::limit_unplaced, crate::proofs::Fitting::limit_fixed))]
fn limit_of(
    store: &Store,
    tasks: &[CumTask],
    used: &[Used],
    capacity: Term,
    all: &[Used],
    profile: &[(i64, i128)],
    at: usize,
) -> (i64, i64)
    requires ready { IsReady store.now.box tasks.now used.now capacity }
    requires profile { IsProfile store.now.box tasks.now used.now all.now profile.now }
    requires within { AreWithin (term_high store.now.box capacity) profile.now }
    requires at { at < length tasks.now }
    ensures { IsLimit store.now.box tasks.now used.now capacity at (slice_index_or tasks.now at (record { s = term.Const (pos 0); d = term.Const (pos 0); r = term.Const (pos 0) })) result }
{
    let task = &tasks[at];
    let bounds = bounds_of(store, task);
    if bounds.0 == bounds.1 {
        return bounds;
    }
    if !needs_place(store, task) {
        return bounds;
    }
    let place = place_of(store, task, capacity);
    starts_of(all, profile, &place, &bounds)
}

/// Puts what the starts of all tasks can be in a list.
pub(crate) fn put_limits(
    store: &Store,
    tasks: &[CumTask],
    used: &[Used],
    capacity: Term,
    all: &[Used],
    profile: &[(i64, i128)],
    limits: &mut Vec<(i64, i64)>,
) -> Result<(), AllocError>
    requires ready { IsReady store.now.box tasks.now used.now capacity }
    requires profile { IsProfile store.now.box tasks.now used.now all.now profile.now }
    requires within { AreWithin (term_high store.now.box capacity) profile.now }
    ensures { OnOk result (AreLimits store.now.box tasks.now used.now capacity (length tasks.now) limits.new.items) }
{
    limits.clear();
    for at in 0..tasks.len() {
        limits.push(limit_of(store, tasks, used, capacity, all, profile, at))?;
    }
    Ok(())
}
