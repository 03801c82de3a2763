//! Lengths, uses and the capacity aren't negative.
ghost use Rattle.std.specs.Prelude.{◌<◌, pos, length};
ghost use Rattle.fzn_model.specs.declared.con.Con.TheVariants as con;
ghost use Rattle.dom_store.specs.Steps.{Step, LowIs};
ghost use Rattle.cumul_prop.specs.Parts.{IsReady, AreSignedTo};
ghost use Rattle.cumul_prop.specs.Narrowing.{SignedAt, IsSignedAll};
ghost use Rattle.fzn_model.specs.Meaning.{Holds};

use dom_store::{Passed, Store, cut_below};
use fzn_model::{CumTask, Term, Used};

/// The length and the use of a task aren't negative.
fn sign_task(
    store: &mut Store,
    tasks: &[CumTask],
    used: &[Used],
    capacity: Term,
    at: usize,
) -> Passed
    requires ready { IsReady store.old.box tasks.now used.now capacity }
    requires at { at < length tasks.now }
    ensures { Step (SignedAt tasks.now at) (Holds (con.CumulUsed tasks.now used.now capacity)) store.old store.new result }
{
    match cut_below(store, tasks[at].d, &0) {
        Passed::Empty => return Passed::Empty,
        Passed::Done => {}
    }
    cut_below(store, tasks[at].r, &0)
}

/// No length and no use is negative.
#[tactic(auto, using(crate::proofs::Signing::signed_none, crate::proofs::Signing::signed_more, crate::proofs::Signing::signed_end, crate::proofs::Signing::ready_on))]
fn sign_tasks(store: &mut Store, tasks: &[CumTask], used: &[Used], capacity: Term) -> Passed
    requires { IsReady store.old.box tasks.now used.now capacity }
    ensures { Step (AreSignedTo tasks.now (length tasks.now)) (Holds (con.CumulUsed tasks.now used.now capacity)) store.old store.new result }
{
    for at in 0..tasks.len() {
        match sign_task(store, tasks, used, capacity, at) {
            Passed::Empty => return Passed::Empty,
            Passed::Done => {}
        }
    }
    Passed::Done
}

/// The capacity isn't negative.
fn sign_capacity(store: &mut Store, tasks: &[CumTask], used: &[Used], capacity: Term) -> Passed
    requires { IsReady store.old.box tasks.now used.now capacity }
    ensures { Step (LowIs capacity (pos 0)) (Holds (con.CumulUsed tasks.now used.now capacity)) store.old store.new result }
{
    cut_below(store, capacity, &0)
}

/// No length, no use and not the capacity is negative.
#[tactic(auto, using(crate::proofs::Signing::all_signed, crate::proofs::Signing::all_never, crate::proofs::Signing::ready_after))]
pub(crate) fn sign_terms(
    store: &mut Store,
    tasks: &[CumTask],
    used: &[Used],
    capacity: Term,
) -> Passed
    requires { IsReady store.old.box tasks.now used.now capacity }
    ensures { Step (IsSignedAll tasks.now capacity) (Holds (con.CumulUsed tasks.now used.now capacity)) store.old store.new result }
{
    match sign_tasks(store, tasks, used, capacity) {
        Passed::Empty => return Passed::Empty,
        Passed::Done => {}
    }
    sign_capacity(store, tasks, used, capacity)
}
