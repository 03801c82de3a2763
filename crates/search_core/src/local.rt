ghost use Rattle.std.specs.Prelude.{◌≡◌, ◌≤◌, ◌^◌, [], IsOk, IfOk, IfErr, OnOk, OnErr};
ghost use Rattle.std.specs.Int.{int_min};
ghost use Rattle.search_core.specs.declared.moves.Move.{Move};
ghost use Rattle.search_core.specs.Locals.{LocalSteps, IsBarred};

use crate::decision::Decision;
use crate::fault::StepFault;
use crate::moves::Move;
use crate::path::Path;
use crate::tasks::Tasks;
use std::alloc::{AllocError, Global};
use std::marker::Model;

/// One worker's part of the search: the paths that it holds, those that it has settled and at which bound, the least cost
/// that it has seen, and how often it expanded a path.
#[derive(Drop)]
pub struct Local {
    worker: u32,
    tasks: Tasks,
    seen: i64,
    expands: u128,
}

impl Model for Local {
    ghost use Rattle.search_core.specs.Locals.{LocalParts};

    ghost Value = { LocalParts };

    ghost view = { λ l. record { worker = l.worker; tasks = l.tasks; seen = l.seen; expands = l.expands } };
}

/// The worker holds the path from now on.
#[tactic(auto, using(crate::proofs::Moving::claim_moves))]
fn claim(local: &mut Local, path: &Path) -> Result<(), StepFault>
    ensures ok { OnOk result (LocalSteps (Move.Claim path.now) local.old local.new) }
    ensures err { OnErr result (local.new ≡ local.old) }
    ensures memory { IfErr result (λ fault. fault ≡ StepFault.NoMemory) }
{
    let worker = local.worker;
    if local.tasks.add(path.decisions(), worker).is_err() {
        return Err(StepFault::NoMemory);
    }
    Ok(())
}

/// A held path goes: it is given away or given back.
#[tactic(auto, using(crate::proofs::Moving::give_moves, crate::proofs::Moving::give_barred, crate::proofs::Moving::return_moves, crate::proofs::Moving::return_barred))]
fn release(local: &mut Local, path: &Path) -> Result<(), StepFault>
    ensures given { OnOk result (LocalSteps (Move.Give path.now) local.old local.new) }
    ensures returned { OnOk result (LocalSteps (Move.Return path.now) local.old local.new) }
    ensures err { OnErr result (local.new ≡ local.old) }
    ensures not_given { IfErr result (λ fault. fault ≡ StepFault.NotAllowed → IsBarred (Move.Give path.now) local.old) }
    ensures not_returned { IfErr result (λ fault. fault ≡ StepFault.NotAllowed → IsBarred (Move.Return path.now) local.old) }
{
    let worker = local.worker;
    if let Err(fault) = local.tasks.release(path.decisions(), worker) {
        return Err(fault);
    }
    Ok(())
}

/// In place of a held path its two sides are held, and one expansion is counted.
#[tactic(auto, using(crate::proofs::Moving::expand_moves, crate::proofs::Moving::expand_barred))]
fn expand(local: &mut Local, path: &Path, cut: Decision) -> Result<(), StepFault>
    requires { local.old.expands ≤ 2 ^ 120 }
    ensures ok { OnOk result (LocalSteps (Move.Expand path.now cut) local.old local.new) }
    ensures err { OnErr result (local.new ≡ local.old) }
    ensures barred { IfErr result (λ fault. fault ≡ StepFault.NotAllowed → IsBarred (Move.Expand path.now cut) local.old) }
{
    let worker = local.worker;
    if let Err(fault) = local.tasks.split(path.decisions(), worker, cut) {
        return Err(fault);
    }
    local.expands += 1;
    Ok(())
}

/// A held path is settled at the least cost seen: by an entry of the cache, or since no solution of it costs less.
#[tactic(auto, using(crate::proofs::Moving::hit_moves, crate::proofs::Moving::hit_barred, crate::proofs::Moving::leaf_moves, crate::proofs::Moving::leaf_barred))]
fn settle(local: &mut Local, path: &Path) -> Result<(), StepFault>
    ensures hit { OnOk result (LocalSteps (Move.Hit path.now) local.old local.new) }
    ensures leaf { OnOk result (LocalSteps (Move.Leaf path.now) local.old local.new) }
    ensures err { OnErr result (local.new ≡ local.old) }
    ensures not_hit { IfErr result (λ fault. fault ≡ StepFault.NotAllowed → IsBarred (Move.Hit path.now) local.old) }
    ensures not_leaf { IfErr result (λ fault. fault ≡ StepFault.NotAllowed → IsBarred (Move.Leaf path.now) local.old) }
{
    let worker = local.worker;
    if let Err(fault) = local.tasks.settle(path.decisions(), worker, &local.seen) {
        return Err(fault);
    }
    Ok(())
}

/// In place of both sides of a path, which are settled, the path is settled at the lesser of their bounds.
#[tactic(auto, using(crate::proofs::Moving::join_moves, crate::proofs::Moving::join_barred))]
fn join(local: &mut Local, path: &Path, cut: Decision) -> Result<(), StepFault>
    ensures ok { OnOk result (LocalSteps (Move.Join path.now cut) local.old local.new) }
    ensures err { OnErr result (local.new ≡ local.old) }
    ensures barred { IfErr result (λ fault. fault ≡ StepFault.NotAllowed → IsBarred (Move.Join path.now cut) local.old) }
{
    let worker = local.worker;
    if let Err(fault) = local.tasks.join(path.decisions(), worker, cut) {
        return Err(fault);
    }
    Ok(())
}

/// Lowers a bound to a cost, if that is less.
fn lower(seen: &mut i64, cost: &i64)
    ensures { seen.new ≡ int_min seen.old cost.now }
{
    if *cost < *seen {
        *seen = *cost;
    }
}

/// The least cost seen becomes the lesser of itself and the cost of a solution.
#[tactic(auto, using(crate::proofs::Moving::offer_moves))]
fn offer(local: &mut Local, cost: &i64) -> Result<(), StepFault>
    ensures step { LocalSteps (Move.Offer cost.now) local.old local.new }
    ensures made { IsOk result }
{
    lower(&mut local.seen, cost);
    Ok(())
}

/// Sets a bound.
fn put(seen: &mut i64, value: &i64)
    ensures { seen.new ≡ value.now }
{
    *seen = *value;
}

/// The least cost seen becomes this.
#[tactic(auto, using(crate::proofs::Moving::see_moves))]
fn see(local: &mut Local, seen: &i64) -> Result<(), StepFault>
    ensures step { LocalSteps (Move.See seen.now) local.old local.new }
    ensures made { IsOk result }
{
    put(&mut local.seen, seen);
    Ok(())
}

/// The change of a move.
fn make(local: &mut Local, step: &Move) -> Result<(), StepFault>
    requires { local.old.expands ≤ 2 ^ 120 }
    ensures ok { OnOk result (LocalSteps step.now local.old local.new) }
    ensures err { OnErr result (local.new ≡ local.old) }
    ensures barred { IfErr result (λ fault. fault ≡ StepFault.NotAllowed → IsBarred step.now local.old) }
{
    match step {
        Move::Claim { path } => claim(local, path),
        Move::Give { path } => release(local, path),
        Move::Expand { path, cut } => expand(local, path, *cut),
        Move::Hit { path } => settle(local, path),
        Move::Leaf { path } => settle(local, path),
        Move::Join { path, cut } => join(local, path, *cut),
        Move::Offer { cost } => offer(local, cost),
        Move::See { seen } => see(local, seen),
        Move::Return { path } => release(local, path),
    }
}

impl Local {
    /// The part of a worker that holds nothing and has settled nothing. `worker` is its number, `top` the bound that it has
    /// seen so far, one more than the greatest cost.
    pub fn new(alloc: Global, worker: u32, top: i64) -> Result<Local, AllocError>
        ensures { IfOk result (λ local. local ≡ record { worker = worker; tasks = []; seen = top; expands = 0 }) }
    {
        Ok(Local {
            worker,
            tasks: Tasks::new(alloc),
            seen: top,
            expands: 0,
        })
    }

    /// The number that `new` was given. Takes no memory.
    pub fn worker(&self) -> u32
        ensures { result ≡ self.now.worker }
    {
        self.worker
    }

    /// How many `Expand` moves were made since `new`. Takes no memory.
    pub fn expands(&self) -> u128
        ensures { result ≡ self.now.expands }
    {
        self.expands
    }

    /// Makes the change of a move. `NotAllowed` comes exactly where a path that the move needs isn't held, or sides that it
    /// joins aren't settled; after a refusal nothing has changed. That a `Leaf` or a `Hit` has no cheaper solution, and that
    /// `Offer` is the cost of one, is the caller's to know.
    ///
    /// The newest tasks are looked at first. A comparison takes as many steps as the end of the path is long that both
    /// share; moves that take tasks away look at each task once.
    pub fn step(&mut self, step: &Move) -> Result<(), StepFault>
        requires { self.old.expands ≤ 2 ^ 120 }
        ensures ok { OnOk result (LocalSteps step.now self.old self.new) }
        ensures err { OnErr result (self.new ≡ self.old) }
        ensures barred { IfErr result (λ fault. fault ≡ StepFault.NotAllowed → IsBarred step.now self.old) }
    {
        make(self, step)
    }
}
