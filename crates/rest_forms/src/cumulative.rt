//! Cumulative tasks.

ghost use Rattle.std.specs.Prelude.{◌≡◌, ◌*◌, ◌≤◌, ◌≤ℤ◌, ◌^◌, ◌+ℤ◌, ◌++◌, ◌∷◌, [], map, false, All, IfOk, OnOk, length, pos, int_le, unsigned_abs};
ghost use Rattle.std.specs.List.{list_any};
ghost use Rattle.fzn_model.specs.Values.{largest};
ghost use Rattle.fzn_model.specs.Limits.{TermIn, TasksInLimits, UsedInLimits, of_call};
ghost use Rattle.fzn_model.specs.Bounds.{term_low};
ghost use Rattle.rest_forms.specs.Forms.{is_open_task, open_tasks, substituted_task, fixed_use, all_used, is_negative, some_negative, always_fits, all_fixed, AreRunsOf, IsCumulativeForm, sum_of_uses};
ghost use Rattle.rest_forms.specs.Sweep.{IsAmount, AreAmounts};
ghost use Rattle.rest_forms.specs.Tasks.{TaskIn, is_negative_task, is_never_negative, are_never_negative, fixed_uses, greatest_amount, IsFormPastBounds};

use crate::peak::{greatest_amount, peak};
use crate::used_runs::used_runs;
use fzn_model::{BoxView, Con, CumTask, List, Term, Used};
use rest_basic::{
    Reduced, any_open_in, empty_clause, high_of, is_open_in, low_of, of_truth, substituted_in,
};
use std::alloc::{AllocError, Global};

/// Whether the term has one value, which is negative.
fn is_negative<V: BoxView>(term: Term, view: &V) -> bool
    requires { TermIn (length (V.shape view.now)) term }
    ensures { result ≡ is_negative (V.shape view.now) term }
{
    !is_open_in(term, view) && low_of(term, view) < 0
}

/// Whether the length or the use of the task is fixed and negative.
fn is_negative_task<V: BoxView>(task: &CumTask, view: &V) -> bool
    requires { TaskIn (length (V.shape view.now)) task.now }
    ensures { result ≡ is_negative_task (V.shape view.now) task.now }
{
    is_negative(task.d, view) || is_negative(task.r, view)
}

/// Whether some length or use is fixed and negative.
#[tactic(auto, unfolding(crate::specs::Forms::some_negative))]
fn some_negative<V: BoxView>(tasks: &[CumTask], view: &V) -> bool
    requires { TasksInLimits (length (V.shape view.now)) tasks.now }
    ensures { result ≡ some_negative (V.shape view.now) tasks.now }
{
    tasks.iter().any(|task| is_negative_task(task, view))
}

/// Whether the length and the use of the task can't be negative.
fn is_never_negative<V: BoxView>(task: &CumTask, view: &V) -> bool
    requires { TaskIn (length (V.shape view.now)) task.now }
    ensures { result ≡ is_never_negative (V.shape view.now) task.now }
{
    low_of(task.d, view) >= 0 && low_of(task.r, view) >= 0
}

/// Whether no length and no use can be negative.
#[tactic(auto, unfolding(crate::specs::Tasks::are_never_negative))]
fn are_never_negative<V: BoxView>(tasks: &[CumTask], view: &V) -> bool
    requires { TasksInLimits (length (V.shape view.now)) tasks.now }
    ensures { result ≡ are_never_negative (V.shape view.now) tasks.now }
{
    tasks.iter().all(|task| is_never_negative(task, view))
}

/// The sum of the greatest uses of all tasks.
fn sum_of_uses<V: BoxView>(tasks: &[CumTask], view: &V) -> i128
    requires { TasksInLimits (length (V.shape view.now)) tasks.now }
    ensures value { result ≡ sum_of_uses (V.shape view.now) tasks.now }
    ensures small { unsigned_abs result ≤ 2000000 * largest }
{
    let mut sum: i128 = 0;
    for task in tasks {
        sum += i128::from(high_of(task.r, view));
    }
    sum
}

/// Whether two amounts together are at most the least value of a term.
fn fit_within<V: BoxView>(most: &i128, uses: &i128, limit: Term, view: &V) -> bool
    requires most { (pos 0 ≤ℤ most.now) × (most.now ≤ℤ pos (10000000 * 2 ^ 100)) }
    requires uses { unsigned_abs uses.now ≤ 2000000 * largest }
    requires limit { TermIn (length (V.shape view.now)) limit }
    ensures { result ≡ int_le (most.now +ℤ uses.now) (term_low (V.shape view.now) limit) }
{
    most + uses <= i128::from(low_of(limit, view))
}

/// Whether all fits in each assignment of the box, as the bounds tell.
#[tactic(auto, using(crate::proofs::Tasks::used_amounts, crate::proofs::Tasks::fits_by, crate::proofs::Tasks::fits_not))]
fn always_fits<V: BoxView>(
    alloc: Global,
    tasks: &[CumTask],
    used: &[Used],
    limit: Term,
    view: &V,
) -> Result<bool, AllocError>
    requires tasks { TasksInLimits (length (V.shape view.now)) tasks.now }
    requires used { UsedInLimits of_call used.now }
    requires limit { TermIn (length (V.shape view.now)) limit }
    ensures { IfOk result (λ fits. fits ≡ always_fits (V.shape view.now) tasks.now used.now limit) }
{
    let most = peak(alloc, used)?;
    let uses = sum_of_uses(tasks, view);
    Ok(are_never_negative(tasks, view) && fit_within(&most, &uses, limit, view))
}

/// Whether some term of the task has several values.
fn is_open_task<V: BoxView>(task: &CumTask, view: &V) -> bool
    requires { TaskIn (length (V.shape view.now)) task.now }
    ensures { result ≡ is_open_task (V.shape view.now) task.now }
{
    any_open_in(&[task.s, task.d, task.r], view)
}

/// Whether some term of some task has several values.
fn any_open_task<V: BoxView>(tasks: &[CumTask], view: &V) -> bool
    requires { TasksInLimits (length (V.shape view.now)) tasks.now }
    ensures { result ≡ list_any (is_open_task (V.shape view.now)) tasks.now }
{
    tasks.iter().any(|task| is_open_task(task, view))
}

/// Whether no task is open, nor the limit.
fn all_fixed<V: BoxView>(tasks: &[CumTask], limit: Term, view: &V) -> bool
    requires tasks { TasksInLimits (length (V.shape view.now)) tasks.now }
    requires limit { TermIn (length (V.shape view.now)) limit }
    ensures { result ≡ all_fixed (V.shape view.now) tasks.now limit }
{
    !is_open_in(limit, view) && !any_open_task(tasks, view)
}

/// The task with its fixed terms as their values.
fn substituted_task<V: BoxView>(task: &CumTask, view: &V) -> CumTask
    requires { TaskIn (length (V.shape view.now)) task.now }
    ensures { result ≡ substituted_task (V.shape view.now) task.now }
{
    CumTask {
        s: substituted_in(task.s, view),
        d: substituted_in(task.d, view),
        r: substituted_in(task.r, view),
    }
}

/// The open tasks, in order.
#[tactic(auto, unfolding(crate::specs::Forms::open_tasks))]
fn open_tasks<V: BoxView>(
    alloc: Global,
    tasks: &[CumTask],
    view: &V,
) -> Result<List<CumTask>, AllocError>
    requires { TasksInLimits (length (V.shape view.now)) tasks.now }
    ensures { IfOk result (λ left. left ≡ map (substituted_task (V.shape view.now)) (open_tasks (V.shape view.now) tasks.now)) }
{
    let mut left = List::new(alloc);
    for task in tasks {
        if is_open_task(task, view) {
            left.push(substituted_task(task, view))?;
        }
    }
    Ok(left)
}

/// What a fixed task uses.
#[tactic(auto, using(crate::proofs::Tasks::use_is_amount))]
fn fixed_use<V: BoxView>(task: &CumTask, view: &V) -> Used
    requires terms { TaskIn (length (V.shape view.now)) task.now }
    requires some { pos 0 ≤ℤ term_low (V.shape view.now) task.now.r }
    ensures value { result ≡ fixed_use (V.shape view.now) task.now }
    ensures amount { IsAmount result }
{
    let start = low_of(task.s, view);
    Used {
        from: start,
        to: start + low_of(task.d, view),
        amount: i128::from(low_of(task.r, view)),
    }
}

/// Adds what the task uses, where it is fixed.
#[tactic(auto, using(crate::proofs::Tasks::stays_open, crate::proofs::Tasks::one_fixed))]
fn add_fixed<V: BoxView>(all: &mut Vec<Used>, task: &CumTask, view: &V) -> Result<(), AllocError>
    requires terms { TaskIn (length (V.shape view.now)) task.now }
    requires some { is_open_task (V.shape view.now) task.now ≡ false → pos 0 ≤ℤ term_low (V.shape view.now) task.now.r }
    ensures items { OnOk result (all.new.items ≡ all.old.items ++ fixed_uses (V.shape view.now) (task.now ∷ [])) }
    ensures amounts { All IsAmount all.old.items → OnOk result (All IsAmount all.new.items) }
{
    if !is_open_task(task, view) {
        all.push(fixed_use(task, view))?;
    }
    Ok(())
}

/// What is used by the used amounts and by the fixed tasks.
#[tactic(auto, using(crate::proofs::Tasks::all_are))]
fn all_used<V: BoxView>(
    alloc: Global,
    tasks: &[CumTask],
    used: &[Used],
    view: &V,
) -> Result<Vec<Used>, AllocError>
    requires tasks { TasksInLimits (length (V.shape view.now)) tasks.now }
    requires used { UsedInLimits of_call used.now }
    requires none { some_negative (V.shape view.now) tasks.now ≡ false }
    ensures value { IfOk result (λ all. all.items ≡ all_used (V.shape view.now) tasks.now used.now) }
    ensures amounts { IfOk result (λ all. AreAmounts all.items) }
{
    let mut all = Vec::from_slice(alloc, used)?;
    for task in tasks {
        add_fixed(&mut all, task, view)?;
    }
    Ok(all)
}

/// Whether the greatest amount of the runs is at most the limit.
fn runs_fit<V: BoxView>(runs: &List<Used>, limit: Term, view: &V) -> bool
    requires { TermIn (length (V.shape view.now)) limit }
    ensures { result ≡ int_le (greatest_amount runs.now) (term_low (V.shape view.now) limit) }
{
    greatest_amount(runs.as_slice()) <= i128::from(low_of(limit, view))
}

/// The form where no length or use is fixed and negative, and the bounds don't tell that all fits.
#[tactic(auto, using(crate::proofs::Tasks::fixed_form, crate::proofs::Tasks::left_form))]
fn form_past_bounds<V: BoxView>(
    alloc: Global,
    tasks: &[CumTask],
    used: &[Used],
    limit: Term,
    view: &V,
) -> Result<Reduced, AllocError>
    requires tasks { TasksInLimits (length (V.shape view.now)) tasks.now }
    requires used { UsedInLimits of_call used.now }
    requires limit { TermIn (length (V.shape view.now)) limit }
    requires none { some_negative (V.shape view.now) tasks.now ≡ false }
    ensures { IfOk result (λ left. IsFormPastBounds (V.shape view.now) tasks.now used.now limit left) }
{
    let all = all_used(alloc, tasks, used, view)?;
    let runs = used_runs(alloc, all.as_slice())?;
    if all_fixed(tasks, limit, view) {
        return Ok(of_truth(alloc, runs_fit(&runs, limit, view)));
    }
    Ok(Reduced::Is(Con::CumulUsed(
        open_tasks(alloc, tasks, view)?,
        runs,
        substituted_in(limit, view),
    )))
}

/// The form of cumulative tasks. Sorts the moments where used amounts and fixed tasks begin and end, and goes over each list
/// a few times.
#[tactic(auto, using(crate::proofs::Tasks::negative_form, crate::proofs::Tasks::fits_form, crate::proofs::Tasks::past_form))]
pub(crate) fn form_of_cumulative<V: BoxView>(
    alloc: Global,
    tasks: &[CumTask],
    used: &[Used],
    limit: Term,
    view: &V,
) -> Result<Reduced, AllocError>
    requires tasks { TasksInLimits (length (V.shape view.now)) tasks.now }
    requires used { UsedInLimits of_call used.now }
    requires limit { TermIn (length (V.shape view.now)) limit }
    ensures { IfOk result (λ left. IsCumulativeForm (V.shape view.now) tasks.now used.now limit left) }
{
    if some_negative(tasks, view) {
        return Ok(Reduced::Is(empty_clause(alloc)));
    }
    if always_fits(alloc, tasks, used, limit, view)? {
        return Ok(Reduced::Holds);
    }
    form_past_bounds(alloc, tasks, used, limit, view)
}
