//! From a store to its fixpoint.
ghost use Rattle.std.specs.Prelude.{◌≡◌, ◌<◌, ◌≤◌, length, All, IfOk};
ghost use Rattle.fzn_model.specs.Limits.{GoalInLimits};
ghost use Rattle.fzn_model.specs.Boxes.{IsBox};
ghost use Rattle.fzn_model.specs.Booleans.{FitsBox};
ghost use Rattle.prop_engine.specs.Plans.{CanHold, IsReady};
ghost use Rattle.prop_engine.specs.Goals.{IsBelow, CutMeans};
ghost use Rattle.prop_engine.specs.Fixing.{Lessens, Fixes, FixedMeans};
ghost use Rattle.prop_engine.specs.Readers.{AreRead};
ghost use Rattle.prop_engine.specs.Queues.{AreStrong};

use crate::any::AnyProp;
use crate::fixed::Fixed;
use crate::goal::cut_goal;
use crate::queue::{Ended, run_queue, wake_unsettled};
use crate::readers::Readers;
use dom_store::{Passed, Store, recall_domains};
use fzn_model::Goal;
use mark_set::RankedSet;
use std::alloc::AllocError;

/// Cuts the goal, and lets those propagators wait whose constraints may not have their strength.
#[tactic(auto, using(crate::proofs::Working::cut_lessens, crate::proofs::Working::ready_latest, crate::proofs::Working::forgets_lessens, crate::proofs::Working::forgets_strong, crate::proofs::Working::forgets_means))]
fn prepare(
    propagators: &[AnyProp],
    readers: &Readers,
    queue: &mut RankedSet,
    goal: Goal,
    below: &i64,
    store: &mut Store,
) -> Passed
    requires goal { GoalInLimits (length store.old.box) goal }
    requires read { AreRead propagators.now (length propagators.now) readers.now }
    requires room { length queue.old ≡ length propagators.now }
    requires few { length propagators.now ≤ 4000000000 }
    requires ready { IsReady store.old (record { cons = propagators.now; goal = goal }) }
    ensures room { length queue.new ≡ length propagators.now }
    ensures lessens { Lessens (IsBelow goal below.now) store.old store.new }
    ensures means { CutMeans goal below.now store.old.box store.new.box result }
    ensures strong { result ≡ Passed.Done → AreStrong propagators.now queue.new store.new.box }
    ensures well_formed { IsBox store.new.box }
{
    queue.clear();
    if let Passed::Empty = cut_goal(store, goal, below) {
        recall_domains(store);
        return Passed::Empty;
    }
    wake_unsettled(propagators, readers, queue, store);
    store.forget_touched();
    recall_domains(store);
    Passed::Done
}

/// Cuts the goal, and runs the propagators that wait.
#[tactic(auto)]
pub(crate) fn work(
    propagators: &mut [AnyProp],
    readers: &Readers,
    queue: &mut RankedSet,
    goal: Goal,
    below: &i64,
    store: &mut Store,
) -> Result<Fixed, AllocError>
    requires fits_box { All (FitsBox store.old.box) propagators.old }
    requires can_hold { All CanHold propagators.old }
    requires goal { GoalInLimits (length store.old.box) goal }
    requires read { AreRead propagators.old (length propagators.old) readers.now }
    requires room { length queue.old ≡ length propagators.old }
    requires few { length propagators.old ≤ 4000000000 }
    requires ready { IsReady store.old (record { cons = propagators.old; goal = goal }) }
    ensures same { propagators.new ≡ propagators.old }
    ensures room { length queue.new ≡ length propagators.old }
    ensures fixes { Fixes (record { cons = propagators.old; goal = goal }) below.now store.old store.new }
    ensures means { IfOk result (FixedMeans (record { cons = propagators.old; goal = goal }) below.now store.old.box store.new.box) }
    ensures ready { IsReady store.new (record { cons = propagators.old; goal = goal }) }
{
    if let Passed::Empty = prepare(propagators, readers, queue, goal, below, store) {
        return Ok(Fixed::Empty);
    }
    match run_queue(propagators, readers, queue, store)? {
        Ended::Kept => {}
        Ended::Empty => return Ok(Fixed::Empty),
        Ended::EarlyStop => return Ok(Fixed::EarlyStop),
    }
    recall_domains(store);
    store.settle();
    Ok(Fixed::Kept)
}
