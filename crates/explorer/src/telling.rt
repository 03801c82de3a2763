// What the worker's part of the search is told.
ghost use Rattle.std.specs.Prelude.{◌≡◌, ◌≤◌, ◌^◌, ◌++◌, ◌∷◌, [], OnOk, OnErr, IfErr, Err};
ghost use Rattle.search_core.specs.Paths.{opposite};
ghost use Rattle.search_core.specs.Locals.{LocalSteps};
ghost use Rattle.explorer.specs.Holding.{times_held, HasSettled};
ghost use Rattle.explorer.specs.Telling.{CanStep, SameTasks, IsSplit, IsClosed, IsJoined};

use crate::frame::Stop;
use search_core::{Decision, Local, Move, Path, StepFault};

/// A move that is allowed.
#[tactic(auto, using(crate::proofs::Tells::not_barred))]
fn tell(local: &mut Local, step: &Move) -> Result<(), Stop>
    requires room { local.old.expands ≤ 2 ^ 120 }
    requires can { CanStep step.now local.old }
    ensures ok { OnOk result (LocalSteps step.now local.old local.new) }
    ensures err { OnErr result (local.new ≡ local.old) }
    ensures memory { IfErr result (λ stop. stop ≡ Stop.NoMemory) }
{
    match local.step(step) {
        Ok(()) => Ok(()),
        Err(StepFault::NoMemory) => Err(Stop::NoMemory),
        Err(StepFault::NotAllowed) => unreachable!(),
    }
}

/// The path is expanded.
#[tactic(auto, using(crate::proofs::Tells::can_expand, crate::proofs::Tells::did_expand))]
pub(crate) fn tell_expand(local: &mut Local, here: &Path, cut: Decision) -> Result<(), Stop>
    requires room { local.old.expands ≤ 2 ^ 120 }
    requires held { 1 ≤ times_held here.now local.old }
    ensures ok { OnOk result (IsSplit here.now cut local.old local.new) }
    ensures err { OnErr result (local.new ≡ local.old) }
    ensures memory { IfErr result (λ stop. stop ≡ Stop.NoMemory) }
{
    let Ok(path) = here.copy() else {
        return Err(Stop::NoMemory);
    };
    tell(local, &Move::Expand { path, cut })
}

/// No solution of the path is cheaper than what was seen.
#[tactic(auto, using(crate::proofs::Tells::can_leaf, crate::proofs::Tells::did_leaf))]
pub(crate) fn tell_leaf(local: &mut Local, here: &Path) -> Result<(), Stop>
    requires room { local.old.expands ≤ 2 ^ 120 }
    requires held { 1 ≤ times_held here.now local.old }
    ensures ok { OnOk result (IsClosed here.now local.old local.new) }
    ensures err { OnErr result (local.new ≡ local.old) }
    ensures memory { IfErr result (λ stop. stop ≡ Stop.NoMemory) }
{
    let Ok(path) = here.copy() else {
        return Err(Stop::NoMemory);
    };
    tell(local, &Move::Leaf { path })
}

/// An entry of the cache settles the path.
#[tactic(auto, using(crate::proofs::Tells::can_hit, crate::proofs::Tells::did_hit))]
pub(crate) fn tell_hit(local: &mut Local, here: &Path) -> Result<(), Stop>
    requires room { local.old.expands ≤ 2 ^ 120 }
    requires held { 1 ≤ times_held here.now local.old }
    ensures ok { OnOk result (IsClosed here.now local.old local.new) }
    ensures err { OnErr result (local.new ≡ local.old) }
    ensures memory { IfErr result (λ stop. stop ≡ Stop.NoMemory) }
{
    let Ok(path) = here.copy() else {
        return Err(Stop::NoMemory);
    };
    tell(local, &Move::Hit { path })
}

/// Both sides of the path are settled.
#[tactic(auto, using(crate::proofs::Tells::can_join, crate::proofs::Tells::did_join))]
pub(crate) fn tell_join(local: &mut Local, here: &Path, cut: Decision) -> Result<(), Stop>
    requires room { local.old.expands ≤ 2 ^ 120 }
    requires first { HasSettled (here.now ++ cut ∷ []) local.old }
    requires second { HasSettled (here.now ++ opposite cut ∷ []) local.old }
    ensures ok { OnOk result (IsJoined here.now cut local.old local.new) }
    ensures err { OnErr result (local.new ≡ local.old) }
    ensures memory { IfErr result (λ stop. stop ≡ Stop.NoMemory) }
{
    let Ok(path) = here.copy() else {
        return Err(Stop::NoMemory);
    };
    tell(local, &Move::Join { path, cut })
}

/// A bound was loaded.
#[tactic(auto, using(crate::proofs::Tells::can_see, crate::proofs::Tells::did_see))]
pub(crate) fn tell_seen(local: &mut Local, seen: &i64) -> Result<(), Stop>
    requires room { local.old.expands ≤ 2 ^ 120 }
    ensures same { SameTasks local.old local.new }
    ensures memory { IfErr result (λ stop. stop ≡ Stop.NoMemory) }
{
    tell(local, &Move::See { seen: *seen })
}

/// A solution of this cost was offered.
#[tactic(auto, using(crate::proofs::Tells::can_offer, crate::proofs::Tells::did_offer))]
pub(crate) fn tell_offer(local: &mut Local, cost: &i64) -> Result<(), Stop>
    requires room { local.old.expands ≤ 2 ^ 120 }
    ensures same { SameTasks local.old local.new }
    ensures memory { IfErr result (λ stop. stop ≡ Stop.NoMemory) }
{
    tell(local, &Move::Offer { cost: *cost })
}
