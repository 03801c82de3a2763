//! Starts are kept within limits.
ghost use Rattle.std.specs.Prelude.{◌≡◌, ◌<◌, length};
ghost use Rattle.fzn_model.specs.declared.con.Con.TheVariants as con;
ghost use Rattle.dom_store.specs.Steps.{Step};
ghost use Rattle.cumul_prop.specs.Parts.{IsReady};
ghost use Rattle.cumul_prop.specs.Narrowing.{Bounded, AllBounded, LimitedAt, LimitedTo};
ghost use Rattle.fzn_model.specs.Meaning.{Holds};

use dom_store::{Passed, Store, cut_above, cut_below};
use fzn_model::{CumTask, Term, Used};

/// Keeps the start of a task within its limits.
fn limit_start(
    store: &mut Store,
    tasks: &[CumTask],
    used: &[Used],
    capacity: Term,
    limits: &[(i64, i64)],
    at: usize,
) -> Passed
    requires ready { IsReady store.old.box tasks.now used.now capacity }
    requires at { at < length tasks.now }
    requires count { length limits.now ≡ length tasks.now }
    requires bounded { Bounded tasks.now used.now capacity limits.now at store.old.box }
    ensures { Step (LimitedAt tasks.now limits.now at) (Holds (con.CumulUsed tasks.now used.now capacity)) store.old store.new result }
{
    match cut_below(store, tasks[at].s, &limits[at].0) {
        Passed::Empty => return Passed::Empty,
        Passed::Done => {}
    }
    cut_above(store, tasks[at].s, &limits[at].1)
}

/// Keeps the start of each task within its limits.
#[tactic(auto, using(crate::proofs::Limiting::limited_none, crate::proofs::Limiting::limited_more, crate::proofs::Limiting::limited_end, crate::proofs::Limiting::all_bounded_after, crate::proofs::Limiting::bounded_at, crate::proofs::Signing::ready_after))]
pub(crate) fn limit_starts(
    store: &mut Store,
    tasks: &[CumTask],
    used: &[Used],
    capacity: Term,
    limits: &[(i64, i64)],
) -> Passed
    requires ready { IsReady store.old.box tasks.now used.now capacity }
    requires count { length limits.now ≡ length tasks.now }
    requires bounded { AllBounded tasks.now used.now capacity limits.now store.old.box }
    ensures { Step (LimitedTo tasks.now limits.now (length tasks.now)) (Holds (con.CumulUsed tasks.now used.now capacity)) store.old store.new result }
{
    for at in 0..tasks.len() {
        match limit_start(store, tasks, used, capacity, limits, at) {
            Passed::Empty => return Passed::Empty,
            Passed::Done => {}
        }
    }
    Passed::Done
}
