//! The greatest sum of amounts at one moment.

ghost use Rattle.std.specs.Prelude.{◌≡◌, ◌*◌, ◌^◌, IfOk, All, pos, ◌≤ℤ◌};
ghost use Rattle.rest_forms.specs.Forms.{peak};
ghost use Rattle.rest_forms.specs.Sweep.{IsAmount, AreAmounts};
ghost use Rattle.rest_forms.specs.Tasks.{greatest_amount};

use crate::used_runs::used_runs;
use fzn_model::Used;
use std::alloc::{AllocError, Global};

/// The greatest amount of some runs, and at least 0. It is the peak of all amounts that use at each moment what the runs do.
#[tactic(auto, unfolding(crate::specs::Tasks::greatest_amount))]
pub(crate) fn greatest_amount(runs: &[Used]) -> i128
    ensures value { result ≡ greatest_amount runs.now }
    ensures some { pos 0 ≤ℤ result }
{
    let mut greatest: i128 = 0;
    for run in runs {
        greatest = greatest.max(run.amount);
    }
    greatest
}

/// The greatest sum of amounts at one moment, and at least 0.
#[tactic(auto, using(crate::proofs::Peaks::peak_is, crate::proofs::Peaks::greatest_small))]
pub(crate) fn peak(alloc: Global, used: &[Used]) -> Result<i128, AllocError>
    requires { AreAmounts used.now }
    ensures value { IfOk result (λ most. most ≡ peak used.now) }
    ensures some { IfOk result (λ most. pos 0 ≤ℤ most) }
    ensures small { IfOk result (λ most. most ≤ℤ pos (10000000 * 2 ^ 100)) }
{
    let runs = used_runs(alloc, used)?;
    Ok(greatest_amount(runs.as_slice()))
}
