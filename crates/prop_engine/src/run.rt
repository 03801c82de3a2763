//! One run.
ghost use Rattle.std.specs.Prelude.{◌≡◌, ◌<◌, IfOk, All, length};
ghost use Rattle.fzn_model.specs.Booleans.{FitsBox};
ghost use Rattle.prop_engine.specs.Plans.{CanHold};
ghost use Rattle.prop_engine.specs.Fixing.{PrunesAt, MeansAt};

use crate::any::AnyProp;
use dom_store::{Ran, Store};
use std::alloc::AllocError;

/// Runs one of the propagators.
#[tactic(auto, using(crate::proofs::Sweeping::prunes_at, crate::proofs::Sweeping::means_at))]
pub(crate) fn run_one(
    propagators: &mut [AnyProp],
    at: usize,
    store: &mut Store,
) -> Result<Ran, AllocError>
    requires at { at < length propagators.old }
    requires fits_box { All (FitsBox store.old.box) propagators.old }
    requires can_hold { All CanHold propagators.old }
    ensures same { propagators.new ≡ propagators.old }
    ensures prunes { PrunesAt propagators.old at store.old store.new }
    ensures means { IfOk result (MeansAt propagators.old at store.old.box store.new.box) }
{
    propagators[at].run(store)
}
