ghost use Rattle.std.specs.Prelude.{◌≡◌, ◌≤◌, length, IfOk, All};
ghost use Rattle.fzn_model.specs.Limits.{ConInLimits, of_model};
ghost use Rattle.prop_engine.specs.Plans.{Plan, CanHold, IsFor, IsReady};
ghost use Rattle.prop_engine.specs.Fixing.{Fixes, FixedMeans};

use crate::any::AnyProp;
use crate::fixed::Fixed;
use crate::rank::queue_of;
use crate::readers::{Readers, readers_of};
use crate::work::work;
use dom_store::Store;
use fzn_model::{Con, Goal, Model};
use mark_set::RankedSet;
use std::alloc::{AllocError, Global};

/// The propagators of a model, which contracts see as its constraints and its goal.
#[derive(Drop)]
pub struct Engine {
    propagators: Vec<AnyProp>,
    goal: Goal,
    /// For each variable the places of the propagators that read it.
    readers: Readers,
    /// The propagators that wait for a run, the cheap ones before the dear ones.
    queue: RankedSet,
}

impl std::marker::Model for Engine {
    ghost use Rattle.prop_engine.specs.Plans.{Plan};
    ghost use Rattle.prop_engine.specs.Queues.{IsEngine};

    ghost Value = { Plan };

    ghost view = { λ e. record { cons = e.propagators.items; goal = e.goal } };

    ghost invariant = { λ e. IsEngine e.propagators.items e.readers e.queue };
}

/// A propagator for each constraint.
fn propagators_of(alloc: Global, cons: &[Con]) -> Result<Vec<AnyProp>, AllocError>
    requires { All CanHold cons.now }
    ensures { IfOk result (λ all. all.items ≡ cons.now) }
{
    let mut all = Vec::new(alloc);
    for con in cons {
        let propagator = AnyProp::new(alloc, con)?;
        all.push(propagator)?;
    }
    Ok(all)
}

/// The engine of constraints over so many variables.
#[tactic(auto, using(crate::proofs::Holding::engine_made))]
fn engine_of(
    alloc: Global,
    cons: &[Con],
    variables: usize,
    goal: Goal,
) -> Result<Engine, AllocError>
    requires few { length cons.now ≤ 4000000000 }
    requires can_hold { All CanHold cons.now }
    requires kept { All (ConInLimits of_model variables) cons.now }
    ensures { IfOk result (λ e. e ≡ record { cons = cons.now; goal = goal }) }
{
    Ok(Engine {
        propagators: propagators_of(alloc, cons)?,
        goal,
        readers: readers_of(alloc, cons, variables)?,
        queue: queue_of(alloc, cons)?,
    })
}

impl Engine {
    /// The engine of a model. Takes memory for a copy of each constraint, and for each variable a list of the propagators
    /// that read it.
    #[tactic(auto, using(crate::proofs::Holding::model_held))]
    pub fn new(alloc: Global, model: &Model) -> Result<Engine, AllocError>
        ensures { IfOk result (λ e. e ≡ record { cons = model.now.cons; goal = model.now.goal }) }
    {
        let variables = model.doms.as_slice().len();
        engine_of(alloc, model.cons.as_slice(), variables, model.goal)
    }

    /// Narrows a store of the same model, for solutions that cost less than `below`. Where it answers `Kept` the store is
    /// settled, so that the next call runs only the propagators that read a variable which changed since.
    pub fn fix(&mut self, store: &mut Store, below: i64) -> Result<Fixed, AllocError>
        requires fits { IsFor store.old.box self.old }
        requires ready { IsReady store.old self.old }
        ensures same { self.new ≡ self.old }
        ensures fixes { Fixes self.old below store.old store.new }
        ensures means { IfOk result (FixedMeans self.old below store.old.box store.new.box) }
        ensures ready { IsReady store.new self.old }
    {
        work(
            self.propagators.as_mut_slice(),
            &self.readers,
            &mut self.queue,
            self.goal,
            &below,
            store,
        )
    }
}
