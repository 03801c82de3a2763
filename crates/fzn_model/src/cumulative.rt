ghost use Rattle.std.specs.Prelude.{◌≡◌, ◌↔◌, ◌++◌, ◌*◌, ◌^◌, ◌≤◌, ◌≤ℤ◌, ◌&&◌, if◌then◌else◌, map, IsTrue, length, pos, int_le, int_lt, unsigned_abs};
ghost use Rattle.fzn_model.specs.Meaning.{val, amount_at, usage, IsTask, AreTasks, FitsAlways};
ghost use Rattle.fzn_model.specs.Starts.{StartsFit, TaskStartsFit};
ghost use Rattle.fzn_model.specs.Limits.{TermIn, UsedInLimits, TasksInLimits, of_call};

use crate::term::Term;

/// A task: its start, its length and its use of the resource.
#[derive(Clone, Copy, Debug, PartialEq, Eq)]
pub struct CumTask {
    pub s: Term,
    pub d: Term,
    pub r: Term,
}

/// What is used up from the moment `from` up to, and not at, the moment `to`; the amount is at least 0.
#[derive(Clone, Copy, Debug, PartialEq, Eq)]
pub struct Used {
    pub from: i64,
    pub to: i64,
    pub amount: i128,
}

impl Used {
    /// What it uses at a moment.
    fn at(&self, t: i128) -> i128
        requires amount { (pos 0 ≤ℤ self.now.amount) × (unsigned_abs self.now.amount ≤ 2 ^ 100) }
        ensures value { result ≡ (if int_le self.now.from t && int_lt t self.now.to then self.now.amount else pos 0) }
        ensures low { pos 0 ≤ℤ result }
        ensures high { result ≤ℤ pos (2 ^ 100) }
    {
        if i128::from(self.from) <= t && t < i128::from(self.to) {
            self.amount
        } else {
            0
        }
    }
}

fn task_at(task: &CumTask, values: &[i64], t: i128) -> i128
    requires terms { TermIn (length values.now) task.now.s × TermIn (length values.now) task.now.d × TermIn (length values.now) task.now.r }
    requires amount { pos 0 ≤ℤ val task.now.r values.now }
    ensures value { let k = usage values.now task.now in result ≡ (if int_le k.from t && int_lt t k.to then k.amount else pos 0) }
    ensures low { pos 0 ≤ℤ result }
    ensures high { result ≤ℤ pos (2 ^ 100) }
{
    let start = i128::from(task.s.value(values));
    if start <= t && t < start + i128::from(task.d.value(values)) {
        i128::from(task.r.value(values))
    } else {
        0
    }
}

#[tactic(auto, using(crate::proofs::Moments::amount_drop))]
fn used_load(used: &[Used], t: i128) -> i128
    requires { UsedInLimits of_call used.now }
    ensures value { result ≡ amount_at used.now t }
    ensures low { pos 0 ≤ℤ result }
    ensures high { result ≤ℤ pos (8000000 * 2 ^ 100) }
{
    let mut load: i128 = 0;
    for part in used {
        load += part.at(t);
    }
    load
}

#[tactic(auto, using(crate::proofs::Moments::task_drop, crate::proofs::Moments::task_amounts))]
fn task_load(tasks: &[CumTask], values: &[i64], t: i128) -> i128
    requires kept { TasksInLimits (length values.now) tasks.now }
    requires amounts { AreTasks tasks.now values.now }
    ensures value { result ≡ amount_at (map (usage values.now) tasks.now) t }
    ensures low { pos 0 ≤ℤ result }
    ensures high { result ≤ℤ pos (2000000 * 2 ^ 100) }
{
    let mut load: i128 = 0;
    for task in tasks {
        load += task_at(task, values, t);
    }
    load
}

/// What is used up at the moment.
#[tactic(auto, using(crate::proofs::Moments::amount_append))]
fn load_at(tasks: &[CumTask], used: &[Used], values: &[i64], t: i128) -> i128
    requires used { UsedInLimits of_call used.now }
    requires kept { TasksInLimits (length values.now) tasks.now }
    requires amounts { AreTasks tasks.now values.now }
    ensures { result ≡ amount_at (used.now ++ map (usage values.now) tasks.now) t }
{
    used_load(used, t) + task_load(tasks, values, t)
}

fn is_task(task: &CumTask, values: &[i64]) -> bool
    requires { TermIn (length values.now) task.now.s × TermIn (length values.now) task.now.d × TermIn (length values.now) task.now.r }
    ensures { IsTrue result ↔ IsTask values.now task.now }
{
    task.d.value(values) >= 0 && task.r.value(values) >= 0
}

#[tactic(auto, unfolding(crate::specs::Meaning::AreTasks))]
fn are_tasks(tasks: &[CumTask], values: &[i64]) -> bool
    requires { TasksInLimits (length values.now) tasks.now }
    ensures { IsTrue result ↔ AreTasks tasks.now values.now }
{
    tasks.iter().all(|task| is_task(task, values))
}

/// Whether all fits at the start of a used amount.
fn used_start_fits(
    part: &Used,
    tasks: &[CumTask],
    used: &[Used],
    values: &[i64],
    limit: Term,
) -> bool
    requires used { UsedInLimits of_call used.now }
    requires kept { TasksInLimits (length values.now) tasks.now }
    requires amounts { AreTasks tasks.now values.now }
    requires limit { TermIn (length values.now) limit }
    ensures { IsTrue result ↔ (amount_at (used.now ++ map (usage values.now) tasks.now) part.now.from ≤ℤ val limit values.now) }
{
    load_at(tasks, used, values, i128::from(part.from)) <= i128::from(limit.value(values))
}

/// Whether all fits at the start of a task.
fn task_start_fits(
    start: Term,
    tasks: &[CumTask],
    used: &[Used],
    values: &[i64],
    limit: Term,
) -> bool
    requires start { TermIn (length values.now) start }
    requires used { UsedInLimits of_call used.now }
    requires kept { TasksInLimits (length values.now) tasks.now }
    requires amounts { AreTasks tasks.now values.now }
    requires limit { TermIn (length values.now) limit }
    ensures { IsTrue result ↔ (amount_at (used.now ++ map (usage values.now) tasks.now) (val start values.now) ≤ℤ val limit values.now) }
{
    load_at(tasks, used, values, i128::from(start.value(values))) <= i128::from(limit.value(values))
}

#[tactic(auto, unfolding(crate::specs::Starts::StartsFit))]
fn used_starts_fit(tasks: &[CumTask], used: &[Used], values: &[i64], limit: Term) -> bool
    requires used { UsedInLimits of_call used.now }
    requires kept { TasksInLimits (length values.now) tasks.now }
    requires amounts { AreTasks tasks.now values.now }
    requires limit { TermIn (length values.now) limit }
    ensures { IsTrue result ↔ StartsFit (used.now ++ map (usage values.now) tasks.now) used.now (val limit values.now) }
{
    used.iter()
        .all(|part| used_start_fits(part, tasks, used, values, limit))
}

#[tactic(auto, unfolding(crate::specs::Starts::TaskStartsFit))]
fn task_starts_fit(tasks: &[CumTask], used: &[Used], values: &[i64], limit: Term) -> bool
    requires used { UsedInLimits of_call used.now }
    requires kept { TasksInLimits (length values.now) tasks.now }
    requires amounts { AreTasks tasks.now values.now }
    requires limit { TermIn (length values.now) limit }
    ensures { IsTrue result ↔ TaskStartsFit (used.now ++ map (usage values.now) tasks.now) tasks.now values.now (val limit values.now) }
{
    tasks
        .iter()
        .all(|task| task_start_fits(task.s, tasks, used, values, limit))
}

/// The amounts rise only where something starts, so these moments are enough.
#[tactic(auto, using(crate::proofs::Moments::starts_enough, crate::proofs::Moments::fits_starts, crate::proofs::Moments::fits_task_starts, crate::proofs::Moments::fits_limit))]
fn fits_always(tasks: &[CumTask], used: &[Used], values: &[i64], limit: Term) -> bool
    requires used { UsedInLimits of_call used.now }
    requires kept { TasksInLimits (length values.now) tasks.now }
    requires amounts { AreTasks tasks.now values.now }
    requires limit { TermIn (length values.now) limit }
    ensures { IsTrue result ↔ FitsAlways (used.now ++ map (usage values.now) tasks.now) (val limit values.now) }
{
    limit.value(values) >= 0
        && used_starts_fit(tasks, used, values, limit)
        && task_starts_fit(tasks, used, values, limit)
}

/// Whether no length or use is negative, and at each moment all that is used is at most the limit.
pub(crate) fn cumulative_holds(
    tasks: &[CumTask],
    used: &[Used],
    limit: Term,
    values: &[i64],
) -> bool
    requires used { UsedInLimits of_call used.now }
    requires kept { TasksInLimits (length values.now) tasks.now }
    requires limit { TermIn (length values.now) limit }
    ensures { IsTrue result ↔ (AreTasks tasks.now values.now × FitsAlways (used.now ++ map (usage values.now) tasks.now) (val limit values.now)) }
{
    are_tasks(tasks, values) && fits_always(tasks, used, values, limit)
}
