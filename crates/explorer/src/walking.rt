// The moves of a bench down into a side and back.
ghost use Rattle.std.specs.Prelude.{◌≡◌, ◌<◌, ◌≤◌, ◌∷◌, [], OnOk, OnErr, IfSome, IfNone, length, ◌+ℤ◌, pos};
ghost use Rattle.fzn_model.specs.Limits.{IsValue};
ghost use Rattle.prop_engine.specs.Plans.{Plan, IsReady};
ghost use Rattle.explorer.specs.Benches.{IsAble};
ghost use Rattle.explorer.specs.Frames.{HasSide};
ghost use Rattle.explorer.specs.Walking.{CutsTo, NoneObeys, Enters, Fails, Leaves};

use crate::bench::Bench;
use crate::frame::Frame;
use dom_store::{Passed, Store, cut_above, cut_below};
use fzn_model::Term;
use search_core::Decision;
use std::alloc::AllocError;

/// The next value.
fn next(at: &i64) -> i64
    requires { IsValue at.now }
    ensures { result ≡ at.now +ℤ pos 1 }
{
    *at + 1
}

/// Keeps the assignments that obey the decision. `Empty`, where none does, leaves the store as it was.
pub(crate) fn cut(store: &mut Store, side: &Decision) -> Passed
    requires within { side.now.var < length store.old.box }
    requires value { IsValue side.now.at }
    ensures saved { store.new.saved ≡ store.old.saved }
    ensures settled { store.new.settled ≡ store.old.settled }
    ensures cuts { (result ≡ Passed.Empty → ⊥) → CutsTo side.now store.old.box store.new.box }
    ensures none { result ≡ Passed.Empty → NoneObeys side.now store.old.box }
{
    if side.up {
        cut_below(store, Term::Var(side.var), &next(&side.at))
    } else {
        cut_above(store, Term::Var(side.var), &side.at)
    }
}

/// A new level with the side's part of the box.
#[tactic(auto, using(prop_engine::proofs::Ready::ready_same, prop_engine::proofs::Ready::ready_pushed))]
fn enter_side(store: &mut Store, side: &Decision) -> Result<(), AllocError>
    requires { HasSide store.old.box side.now }
    ensures ok { OnOk result ((store.new.saved ≡ store.old.box ∷ store.old.saved) × CutsTo side.now store.old.box store.new.box) }
    ensures err { OnErr result (store.new.saved ≡ store.old.saved) }
    ensures ready { (plan : Plan) → IsReady store.old plan → IsReady store.new plan }
{
    store.push_level()?;
    match cut(store, side) {
        Passed::Done => Ok(()),
        Passed::Empty => unreachable!(),
    }
}

/// Goes down into a side. Where memory is wanting, the frames and levels are as before.
#[tactic(auto, using(prop_engine::proofs::Ready::ready_popped))]
pub(crate) fn push_frame(bench: &mut Bench, side: &Decision, frame: Frame) -> Result<(), AllocError>
    requires side { HasSide bench.old.store.box side.now }
    requires able { IsAble bench.old }
    ensures ok { OnOk result (Enters side.now frame bench.old bench.new) }
    ensures err { OnErr result (Fails bench.old bench.new) }
    ensures able { IsAble bench.new }
{
    bench.here.push(*side)?;
    enter_side(&mut bench.store, side)?;
    if bench.frames.push(frame).is_err() {
        bench.store.pop_level();
        return Err(AllocError);
    }
    Ok(())
}

/// Goes back up to the deepest open expansion, where there is one.
#[tactic(auto, using(prop_engine::proofs::Ready::ready_popped))]
pub(crate) fn back(bench: &mut Bench) -> Option<Frame>
    requires levels { length bench.old.frames ≤ length bench.old.store.saved }
    requires path { length bench.old.frames ≤ length bench.old.here }
    requires able { IsAble bench.old }
    ensures some { IfSome result (λ frame. Leaves frame bench.old bench.new) }
    ensures none { IfNone result ((bench.old.frames ≡ []) × (bench.new ≡ bench.old)) }
    ensures able { IsAble bench.new }
{
    let frame = bench.frames.pop()?;
    bench.here.pop();
    bench.store.pop_level();
    Some(frame)
}
