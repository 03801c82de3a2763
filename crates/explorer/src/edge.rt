// Into the subtree of a path, and out of it again.
ghost use Rattle.std.specs.Prelude.{◌≡◌, ◌<◌, ◌≤◌, ◌+◌, ◌∷◌, [], List, ℤ, OnOk, OnErr, length, true, false, All};
ghost use Rattle.fzn_model.specs.Limits.{IsValue};
ghost use Rattle.dom_store.specs.Views.{box_of};
ghost use Rattle.explorer.specs.Benches.{IsBench, IsAble};
ghost use Rattle.explorer.specs.Frames.{Levels};
ghost use Rattle.explorer.specs.Walking.{IsBase, NoneMeets};
ghost use Rattle.explorer.specs.Ending.{IsStart, HasLevels};

use crate::bench::Bench;
use crate::task::Task;
use crate::walking::cut;
use dom_store::{Passed, Store, recall_domains};
use search_core::{Decision, Path};
use std::alloc::{AllocError, Global};

/// Narrows the store by each decision. True where no assignment within the domains meets them all.
pub(crate) fn follow(task: &Task, store: &mut Store, path: &[Decision]) -> bool
    requires domains { store.old.box ≡ box_of task.now.model.now.doms }
    requires path { All (λ d. (d.var < length task.now.model.now.doms) × IsValue d.at) path.now }
    ensures saved { store.new.saved ≡ store.old.saved }
    ensures settled { store.new.settled ≡ store.old.settled }
    ensures base { result ≡ false → IsBase task.now.model.now path.now store.new.box }
    ensures none { result ≡ true → NoneMeets task.now.model.now path.now }
{
    recall_domains(store);
    for decision in path {
        match cut(store, decision) {
            Passed::Done => {}
            Passed::Empty => return true,
        }
    }
    false
}

/// One level more, at the path of the call.
#[tactic(auto, using(crate::proofs::Leaving::starts))]
pub(crate) fn enter(task: &Task, bench: &mut Bench) -> Result<(), AllocError>
    requires { IsBench task.now.model.now bench.old }
    ensures ok { OnOk result (IsStart task.now.model.now task.now.path.now bench.new) }
    ensures err { OnErr result (bench.new ≡ bench.old) }
    ensures able { IsAble bench.new }
{
    let here = task.path.copy()?;
    bench.store.push_level()?;
    bench.here = here;
    Ok(())
}

/// Drops the deepest frame with its level. False where there is none.
#[tactic(auto, using(crate::proofs::Leaving::levels_less, crate::proofs::Leaving::levels_none, prop_engine::proofs::Ready::ready_popped))]
fn leave_one(bench: &mut Bench) -> bool
    requires few { length bench.old.frames < length bench.old.store.saved }
    requires able { IsAble bench.old }
    ensures more { result ≡ true → length bench.new.frames + 1 ≡ length bench.old.frames }
    ensures few { length bench.new.frames < length bench.new.store.saved }
    ensures levels { (area : List (List ℤ)) → HasLevels bench.old area → HasLevels bench.new area }
    ensures last { result ≡ false → bench.new.frames ≡ [] }
    ensures plan { bench.new.engine ≡ bench.old.engine }
    ensures able { IsAble bench.new }
{
    let Some(_) = bench.frames.pop() else {
        return false;
    };
    bench.store.pop_level();
    true
}

/// Back to the domains before the call.
#[tactic(auto, using(crate::proofs::Leaving::levels_few, crate::proofs::Leaving::left_box, crate::proofs::Leaving::left_saved, prop_engine::proofs::Ready::ready_popped))]
pub(crate) fn leave(bench: &mut Bench, alloc: Global)
    requires levels { (area : List (List ℤ)) × HasLevels bench.old area }
    requires able { IsAble bench.old }
    ensures domains { (area : List (List ℤ)) → HasLevels bench.old area → bench.new.store.box ≡ area }
    ensures no_level { (area : List (List ℤ)) → HasLevels bench.old area → bench.new.store.saved ≡ [] }
    ensures plan { bench.new.engine ≡ bench.old.engine }
    ensures no_path { bench.new.here ≡ [] }
    ensures no_frame { bench.new.frames ≡ [] }
    ensures able { IsAble bench.new }
{
    let mut left = true;
    'levels: while left {
        left = leave_one(bench);
    }
    bench.store.pop_level();
    bench.here = Path::new(alloc);
}
