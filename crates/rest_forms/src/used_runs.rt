//! Used amounts as rising runs of one amount each.

ghost use Rattle.std.specs.Prelude.{◌≡◌, ◌↔◌, ◌≤◌, ◌^◌, ◌++◌, ◌∷◌, [], IfOk, OnOk, IsTrue, length, pos, neg_ℤ, ◌+ℤ◌, ◌≤ℤ◌, ◌<ℤ◌, unsigned_abs};
ghost use Rattle.rest_forms.specs.Forms.{AreRunsOf};
ghost use Rattle.rest_forms.specs.Sweep.{AreAmounts, changes_of_part, changes_of, AreChanges, CanJoin, IsJoined, CanStep, IsStep};

use fzn_model::{List, Used};
use std::alloc::{AllocError, Global};

/// From a moment on as much more is used, or less.
#[derive(Clone, Copy, Debug, PartialEq, Eq)]
struct Change {
    moment: i64,
    amount: i128,
}

/// The runs up to the last moment that a sweep has come to, and the amount that is used from there on.
#[derive(Debug, Drop)]
struct Sweep {
    runs: Vec<Used>,
    last: i64,
    amount: i128,
}

/// Adds the two changes of an amount, or none where it begins no earlier than it ends.
fn add_changes(changes: &mut Vec<Change>, part: &Used) -> Result<(), AllocError>
    requires { (pos 0 ≤ℤ part.now.amount) × (unsigned_abs part.now.amount ≤ 2 ^ 100) }
    ensures { OnOk result (changes.new.items ≡ changes.old.items ++ changes_of_part part.now) }
{
    if part.from < part.to {
        changes.push(Change {
            moment: part.from,
            amount: part.amount,
        })?;
        changes.push(Change {
            moment: part.to,
            amount: -part.amount,
        })?;
    }
    Ok(())
}

/// The changes of all amounts.
#[tactic(auto, unfolding(crate::specs::Sweep::changes_of))]
fn changes_of(alloc: Global, used: &[Used]) -> Result<Vec<Change>, AllocError>
    requires { AreAmounts used.now }
    ensures { IfOk result (λ changes. changes.items ≡ changes_of used.now) }
{
    let mut changes = Vec::new(alloc);
    for part in used {
        add_changes(&mut changes, part)?;
    }
    Ok(changes)
}

/// The changes of all amounts, in order.
fn changes_in_order(alloc: Global, used: &[Used]) -> Result<Vec<Change>, AllocError>
    requires { AreAmounts used.now }
    ensures { IfOk result (λ changes. AreChanges used.now changes.items) }
{
    let mut changes = changes_of(alloc, used)?;
    changes.sort_unstable_by_key(|change| change.moment);
    Ok(changes)
}

/// Whether the part goes on where the run ends, with the same amount.
fn goes_on(run: &Used, part: &Used) -> bool
    ensures { IsTrue result ↔ ((run.now.to ≡ part.now.from) × (run.now.amount ≡ part.now.amount)) }
{
    run.to == part.from && run.amount == part.amount
}

/// The run up to the end of a part.
fn up_to(run: &Used, part: &Used) -> Used
    ensures { result ≡ record { from = run.now.from; to = part.now.to; amount = run.now.amount } }
{
    Used {
        from: run.from,
        to: part.to,
        amount: run.amount,
    }
}

/// Adds a run at the end.
fn push(runs: &mut Vec<Used>, run: Used) -> Result<(), AllocError>
    ensures { OnOk result (runs.new.items ≡ runs.old.items ++ run ∷ []) }
{
    runs.push(run)?;
    Ok(())
}

/// Adds a part that comes after all runs.
#[tactic(auto, using(crate::proofs::JoinedRuns::join_first))]
fn join(runs: &mut Vec<Used>, part: &Used) -> Result<(), AllocError>
    requires { CanJoin part.now runs.old.items }
    ensures { OnOk result (IsJoined part.now runs.old.items runs.new.items) }
{
    match runs.pop() {
        None => {
            push(runs, *part)?;
        }
        Some(last) if goes_on(&last, part) => {
            push(runs, up_to(&last, part))?;
        }
        Some(last) => {
            push(runs, last)?;
            push(runs, *part)?;
        }
    }
    Ok(())
}

/// Whether something is used up to the moment of a change.
fn has_part(sweep: &Sweep, change: &Change) -> bool
    ensures { IsTrue result ↔ ((sweep.now.last <ℤ change.now.moment) × (sweep.now.amount ≡ pos 0 → ⊥)) }
{
    sweep.last < change.moment && sweep.amount != 0
}

/// What is used up to the moment of a change.
fn part_until(sweep: &Sweep, change: &Change) -> Used
    ensures { result ≡ record { from = sweep.now.last; to = change.now.moment; amount = sweep.now.amount } }
{
    Used {
        from: sweep.last,
        to: change.moment,
        amount: sweep.amount,
    }
}

/// Goes on to the moment of a change, without the part up to it.
fn advance(sweep: &mut Sweep, change: &Change)
    requires small { unsigned_abs sweep.old.amount ≤ 2 ^ 125 }
    requires small_change { unsigned_abs change.now.amount ≤ 2 ^ 100 }
    ensures runs { sweep.new.runs.items ≡ sweep.old.runs.items }
    ensures last { sweep.new.last ≡ change.now.moment }
    ensures amount { sweep.new.amount ≡ sweep.old.amount +ℤ change.now.amount }
{
    sweep.last = change.moment;
    sweep.amount += change.amount;
}

/// Goes on to the moment of a change.
fn step(sweep: &mut Sweep, change: &Change) -> Result<(), AllocError>
    requires { CanStep change.now sweep.old }
    ensures { OnOk result (IsStep change.now sweep.old sweep.new) }
{
    if has_part(sweep, change) {
        let part = part_until(sweep, change);
        join(&mut sweep.runs, &part)?;
    }
    advance(sweep, change);
    Ok(())
}

/// The rising runs of one positive amount each that use at each moment what the amounts do. Sorts the moments where
/// amounts begin and end, and goes over them once.
pub(crate) fn used_runs(alloc: Global, used: &[Used]) -> Result<List<Used>, AllocError>
    requires { AreAmounts used.now }
    ensures { IfOk result (λ runs. AreRunsOf runs used.now) }
{
    let changes = changes_in_order(alloc, used)?;
    let mut sweep = Sweep {
        runs: Vec::new(alloc),
        last: i64::MIN,
        amount: 0,
    };
    for change in &changes {
        step(&mut sweep, change)?;
    }
    Ok(List::from_vec(sweep.runs))
}
