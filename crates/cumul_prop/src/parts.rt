//! Compulsory parts, and what is used at a moment.
ghost use Rattle.std.specs.Prelude.{◌≡◌, ◌*◌, ◌^◌, ◌≤◌, ◌≤ℤ◌, ◌+ℤ◌, pos, length, unsigned_abs, OnOk};
ghost use Rattle.std.specs.Int.{int_max};
ghost use Rattle.fzn_model.specs.Values.{largest};
ghost use Rattle.fzn_model.specs.declared.cumulative.Used.{Used};
ghost use Rattle.fzn_model.specs.Limits.{TermIn, TasksInLimits, UsedInLimits, IsNear, of_call};
ghost use Rattle.fzn_model.specs.Bounds.{term_low};
ghost use Rattle.fzn_model.specs.Meaning.{amount_at};
ghost use Rattle.fzn_model.proofs.Moments.{part};
ghost use Rattle.dom_store.specs.Strength.{part_of};
ghost use Rattle.cumul_prop.specs.Parts.{all_parts, IsPart, AreParts, IsGathered, IsKept};

use dom_store::{Store, greatest, least};
use fzn_model::{CumTask, Used};
use std::alloc::AllocError;

/// The first end of a task.
fn first_end(store: &Store, task: &CumTask) -> i64
    requires start { TermIn (length store.now.box) task.now.s }
    requires duration { TermIn (length store.now.box) task.now.d }
    ensures value { result ≡ term_low store.now.box task.now.s +ℤ term_low store.now.box task.now.d }
    ensures near { IsNear result }
{
    least(store, task.s) + least(store, task.d)
}

/// The least use of a task, or 0 where that is more.
fn least_use(store: &Store, task: &CumTask) -> i128
    requires { TermIn (length store.now.box) task.now.r }
    ensures value { result ≡ int_max (pos 0) (term_low store.now.box task.now.r) }
    ensures small { unsigned_abs result ≤ largest }
{
    i128::from(least(store, task.r)).max(0)
}

/// The compulsory part of a task: it goes from the last start to the first end, where that is later.
pub(crate) fn compulsory(store: &Store, task: &CumTask) -> Used
    requires terms { TermIn (length store.now.box) task.now.s × TermIn (length store.now.box) task.now.d × TermIn (length store.now.box) task.now.r }
    ensures value { result ≡ part_of store.now.box task.now }
    ensures part { IsPart result }
{
    Used {
        from: greatest(store, task.s),
        to: first_end(store, task),
        amount: least_use(store, task),
    }
}

/// Adds an amount that is used at some moment; else nothing.
fn add_part(kept: &mut Vec<Used>, part: &Used) -> Result<(), AllocError>
    ensures { OnOk result (IsGathered part.now kept.old.items kept.new.items) }
{
    if part.to <= part.from {
        return Ok(());
    }
    kept.push(*part)?;
    Ok(())
}

/// Puts the used amounts in a list, and behind them the compulsory parts that aren't empty.
#[tactic(auto, using(crate::proofs::Gathering::used_parts, crate::proofs::Gathering::kept_none))]
pub(crate) fn put_parts(
    store: &Store,
    tasks: &[CumTask],
    used: &[Used],
    kept: &mut Vec<Used>,
) -> Result<(), AllocError>
    requires tasks { TasksInLimits (length store.now.box) tasks.now }
    requires used { UsedInLimits of_call used.now }
    ensures kept { OnOk result (IsKept used.now (all_parts store.now.box tasks.now used.now) kept.new.items) }
    ensures parts { OnOk result (AreParts kept.new.items) }
{
    kept.clear();
    kept.extend_from_slice(used)?;
    for task in tasks {
        add_part(kept, &compulsory(store, task))?;
    }
    Ok(())
}

/// What is used of an amount at a moment.
pub(crate) fn at(one: &Used, moment: &i64) -> i128
    requires { IsPart one.now }
    ensures value { result ≡ part one.now moment.now }
    ensures low { pos 0 ≤ℤ result }
    ensures high { result ≤ℤ pos (2 ^ 100) }
{
    if one.from <= *moment && *moment < one.to {
        one.amount
    } else {
        0
    }
}

/// What is used up at a moment.
pub(crate) fn load(all: &[Used], moment: &i64) -> i128
    requires { AreParts all.now }
    ensures value { result ≡ amount_at all.now moment.now }
    ensures low { pos 0 ≤ℤ result }
    ensures high { result ≤ℤ pos (10000000 * 2 ^ 100) }
{
    let mut load: i128 = 0;
    for one in all {
        load += at(one, moment);
    }
    load
}
