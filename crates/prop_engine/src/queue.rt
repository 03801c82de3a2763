//! The propagators that wait for a run.
ghost use Rattle.std.specs.Prelude.{◌≡◌, ℕ, ◌+◌, ◌<◌, ◌≤◌, [], true, length, slice_index_or, All, Contains, IfOk};
ghost use Rattle.mark_set.specs.Marks.{IsMarked, IsUnmarked};
ghost use Rattle.fzn_model.specs.Booleans.{FitsBox};
ghost use Rattle.dom_store.specs.Stores.{latest};
ghost use Rattle.dom_store.specs.Narrowing.{SameButMarks};
ghost use Rattle.prop_engine.specs.Plans.{CanHold, AreStrongIn};
ghost use Rattle.prop_engine.specs.Fixing.{Lessens, MeetsEach};
ghost use Rattle.prop_engine.specs.declared.event.Event.{Event};
ghost use Rattle.prop_engine.specs.Readers.{AreRead, Reads, hearing};
ghost use Rattle.prop_engine.specs.Queues.{Wakes, WakesReaders, WakesHearing, WakesNamed, IsDone, AreKnown, AreStrong, AreStrongBut, Turns, Ends};

use crate::any::AnyProp;
use crate::event::is_minor;
use crate::flat_lists::FlatLists;
use crate::readers::Readers;
use crate::run::run_one;
use dom_store::{Entry, Ran, Store, recall_domains};
use mark_set::RankedSet;
use std::alloc::AllocError;

/// What a run, after which the readers of what changed wait, answers.
#[derive(Clone, Copy, Debug, PartialEq, Eq)]
pub(crate) enum Turned {
    /// Nothing went.
    Quiet,
    /// Some values went.
    Fell,
    /// No assignment of the box has all constraints.
    Empty,
}

/// What all runs answer.
#[derive(Clone, Copy, Debug, PartialEq, Eq)]
pub(crate) enum Ended {
    /// Each constraint has its strength.
    Kept,
    /// No assignment of the box has all constraints.
    Empty,
    /// The domains have lost at least 100,000 values.
    EarlyStop,
}

/// Lets a propagator wait, where it isn't the other one.
fn wake_one(but: u32, number: u32, queue: &mut RankedSet)
    requires { number < length queue.old }
    ensures length { length queue.new ≡ length queue.old }
    ensures marks { (j : ℕ) → IsUnmarked queue.new j → IsUnmarked queue.old j × (number ≡ j → j ≡ but) }
{
    if number != but {
        queue.add(number);
    }
}

/// Lets all propagators wait whose numbers are in the list, but for one.
#[tactic(auto, using(crate::proofs::Waking::wakes_all))]
fn wake(but: u32, numbers: &[u32], queue: &mut RankedSet)
    requires { (j : ℕ) → Contains numbers.now j → j < length queue.old }
    ensures length { length queue.new ≡ length queue.old }
    ensures wakes { Wakes but numbers.now queue.old queue.new }
{
    for number in numbers {
        wake_one(but, *number, queue);
    }
}

/// Lets all propagators wait whose numbers are in one of the lists, but for one.
fn wake_list(but: u32, lists: &FlatLists, var: u32, queue: &mut RankedSet)
    requires { (j : ℕ) → Reads lists.now var j → j < length queue.old }
    ensures length { length queue.new ≡ length queue.old }
    ensures wakes { Wakes but (slice_index_or lists.now var []) queue.old queue.new }
{
    wake(but, lists.get(var), queue);
}

/// Lets all propagators wait that read a variable, but for one.
#[tactic(auto, using(crate::proofs::Waking::wakes_both))]
fn wake_readers(but: u32, readers: &Readers, var: u32, queue: &mut RankedSet)
    requires { (e : Event) (k j : ℕ) → Reads (hearing e readers.now) k j → j < length queue.old }
    ensures length { length queue.new ≡ length queue.old }
    ensures wakes { WakesReaders but readers.now var queue.old queue.new }
{
    wake_list(but, &readers.changed, var, queue);
    wake_list(but, &readers.fixed, var, queue);
}

/// Lets all propagators wait that have to hear of a change of a variable, but for one.
#[tactic(auto, using(crate::proofs::Waking::wakes_minor, crate::proofs::Waking::wakes_major))]
fn wake_hearing(but: u32, readers: &Readers, var: u32, minor: bool, queue: &mut RankedSet)
    requires { (e : Event) (k j : ℕ) → Reads (hearing e readers.now) k j → j < length queue.old }
    ensures length { length queue.new ≡ length queue.old }
    ensures wakes { WakesHearing but readers.now var minor queue.old queue.new }
{
    if minor {
        wake_list(but, &readers.changed, var, queue);
    } else {
        wake_readers(but, readers, var, queue);
    }
}

/// Lets all propagators wait.
fn wake_each(count: u32, queue: &mut RankedSet)
    requires { count ≡ length queue.old }
    ensures length { length queue.new ≡ length queue.old }
    ensures all { (j : ℕ) → j < length queue.old → IsMarked queue.new j }
{
    for number in 0..count {
        queue.add(number);
    }
}

/// Lets all propagators wait that read a variable of the entries, but for one.
#[tactic(auto, using(crate::proofs::Waking::names_none, crate::proofs::Waking::names_all))]
fn wake_named(but: u32, readers: &Readers, entries: &[Entry], queue: &mut RankedSet)
    requires { (e : Event) (k j : ℕ) → Reads (hearing e readers.now) k j → j < length queue.old }
    ensures length { length queue.new ≡ length queue.old }
    ensures wakes { WakesNamed but readers.now entries.now queue.old queue.new }
{
    for entry in entries {
        wake_readers(but, readers, entry.var(), queue);
    }
}

/// Lets those propagators wait whose constraints may not have their strength: where the store was settled, those that read
/// a variable whose domain may differ from that settling, and else each.
#[tactic(auto, using(crate::proofs::Waking::strong_all, crate::proofs::Waking::strong_named))]
pub(crate) fn wake_unsettled(
    propagators: &[AnyProp],
    readers: &Readers,
    queue: &mut RankedSet,
    store: &Store,
)
    requires read { AreRead propagators.now (length propagators.now) readers.now }
    requires room { length queue.old ≡ length propagators.now }
    requires few { length propagators.now ≤ 4000000000 }
    requires ready { AreStrongIn propagators.now (latest store.now.settled) }
    ensures room { length queue.new ≡ length propagators.now }
    ensures strong { AreStrong propagators.now queue.new store.now.box }
{
    match store.unsettled() {
        Some(entries) => wake_named(propagators.len() as u32, readers, entries, queue),
        None => wake_each(propagators.len() as u32, queue),
    }
}

/// Lets all propagators wait that have to hear of the change of a variable with a mark, but for one that is done, and takes
/// the marks away. All domains together had `before` values before these changes.
fn drain(
    but: u32,
    propagators: &[AnyProp],
    readers: &Readers,
    before: u64,
    queue: &mut RankedSet,
    store: &mut Store,
)
    requires read { AreRead propagators.now (length propagators.now) readers.now }
    requires room { length queue.old ≡ length propagators.now }
    requires known { AreKnown before propagators.now queue.old store.old }
    requires done { IsDone but propagators.now queue.old store.old.box }
    ensures room { length queue.new ≡ length propagators.now }
    ensures same { SameButMarks store.old store.new }
    ensures strong { AreStrong propagators.now queue.new store.new.box }
{
    loop {
        let Some(var) = store.take_touched() else {
            return;
        };
        let minor = is_minor(store, var, before);
        wake_hearing(but, readers, var, minor, queue);
    }
}

/// Runs one propagator. Where some values go, all others wait that have to hear of a variable whose values went.
#[tactic(auto, using(crate::proofs::Waking::known_then, crate::proofs::Waking::turned_quiet, crate::proofs::Waking::turned_fell, crate::proofs::Waking::turned_far, crate::proofs::Waking::turned_empty, crate::proofs::Waking::turn_lessens, crate::proofs::Waking::lessens_marks))]
fn turn(
    propagators: &mut [AnyProp],
    readers: &Readers,
    queue: &mut RankedSet,
    at: u32,
    store: &mut Store,
) -> Result<Turned, AllocError>
    requires at { at < length propagators.old }
    requires fits_box { All (FitsBox store.old.box) propagators.old }
    requires can_hold { All CanHold propagators.old }
    requires read { AreRead propagators.old (length propagators.old) readers.now }
    requires room { length queue.old ≡ length propagators.old }
    requires strong { AreStrongBut at propagators.old queue.old store.old.box }
    ensures same { propagators.new ≡ propagators.old }
    ensures room { length queue.new ≡ length propagators.old }
    ensures lessens { Lessens (MeetsEach propagators.old) store.old store.new }
    ensures turns { IfOk result (Turns propagators.old queue.old queue.new store.old.box store.new.box) }
{
    recall_domains(store);
    let before = store.total();
    let ran = run_one(propagators, at as usize, store)?;
    recall_domains(store);
    match ran {
        Ran::Empty => Ok(Turned::Empty),
        Ran::Kept => {
            if store.total() == before {
                return Ok(Turned::Quiet);
            }
            drain(at, propagators, readers, before, queue, store);
            Ok(Turned::Fell)
        }
        Ran::EarlyStop => {
            queue.add(at);
            drain(at, propagators, readers, before, queue, store);
            Ok(Turned::Fell)
        }
    }
}

/// How far the domains may fall before the runs may stop early.
const FAR: u64 = 100_000;

/// How many runs have to be made before they may stop early.
fn most_runs(count: usize) -> u64 {
    (count as u64).saturating_mul(64).saturating_add(1000)
}

/// Whether there were many runs, and the domains have lost many values since.
fn is_far(runs: u64, most: u64, start: u64, now: u64) -> bool
    requires { now ≤ start }
    ensures { result ≡ true → now + 100000 ≤ start }
{
    runs > most && start - now >= FAR
}

/// Runs the propagators that wait until none does, or the domains have lost 100,000 values in very many runs.
#[tactic(auto, using(crate::proofs::Sweeping::lessens_refl, crate::proofs::Sweeping::lessens_trans, crate::proofs::Running::fits_on, crate::proofs::Running::read_on, crate::proofs::Running::can_on, crate::proofs::Running::one_waits, crate::proofs::Running::strong_on, crate::proofs::Running::ends_kept, crate::proofs::Running::ends_empty, crate::proofs::Running::ends_far, crate::proofs::Running::less_to_do, crate::proofs::Running::not_more))]
pub(crate) fn run_queue(
    propagators: &mut [AnyProp],
    readers: &Readers,
    queue: &mut RankedSet,
    store: &mut Store,
) -> Result<Ended, AllocError>
    requires fits_box { All (FitsBox store.old.box) propagators.old }
    requires can_hold { All CanHold propagators.old }
    requires read { AreRead propagators.old (length propagators.old) readers.now }
    requires room { length queue.old ≡ length propagators.old }
    requires strong { AreStrong propagators.old queue.old store.old.box }
    ensures same { propagators.new ≡ propagators.old }
    ensures room { length queue.new ≡ length propagators.old }
    ensures lessens { Lessens (MeetsEach propagators.old) store.old store.new }
    ensures ends { IfOk result (Ends propagators.old store.old.box store.new.box) }
{
    let start = store.total();
    let most = most_runs(propagators.len());
    let mut runs: u64 = 0;
    loop {
        let Some(at) = queue.take() else {
            return Ok(Ended::Kept);
        };
        match turn(propagators, readers, queue, at, store)? {
            Turned::Quiet | Turned::Fell => {}
            Turned::Empty => return Ok(Ended::Empty),
        }
        runs = runs.saturating_add(1);
        if is_far(runs, most, start, store.total()) {
            return Ok(Ended::EarlyStop);
        }
    }
}
