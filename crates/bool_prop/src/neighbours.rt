ghost use Rattle.std.specs.Prelude.{◌≡◌, IfSome, IfNone};
ghost use Rattle.std.specs.Int.{int_min, int_max};
ghost use Rattle.fzn_model.specs.Sets.{AreRuns};
ghost use Rattle.bool_prop.specs.Neighbours.{IsNear, NoneNear, BeginBy};

use dom_store::Extreme;
use fzn_model::Runs;

/// How many runs begin at most at the number.
fn begin_by(set: &[(i64, i64)], number: i64) -> usize
    requires { AreRuns set.now }
    ensures { BeginBy set.now number result }
{
    set.partition_point(|run| run.0 <= number)
}

/// The first number of a run, or `low` where that is greater.
fn first_from(run: &(i64, i64), low: i64) -> i64
    ensures { result ≡ int_max run.now.0 low }
{
    run.0.max(low)
}

/// The last number of a run, or `high` where that is less.
fn last_to(run: &(i64, i64), high: i64) -> i64
    ensures { result ≡ int_min run.now.1 high }
{
    run.1.min(high)
}

/// The least number of the set that is at least `low`.
#[tactic(auto, using(crate::proofs::Runs::none_from, crate::proofs::Runs::next_is))]
fn next_in(set: &Runs, low: &i64) -> Option<i64>
    requires { AreRuns set.now }
    ensures some { IfSome result (λ number. IsNear Extreme.Least set.now low.now number) }
    ensures none { IfNone result (NoneNear Extreme.Least set.now low.now) }
{
    let runs = set.runs.as_slice();
    let at = set.first_reaching(low);
    if at == runs.len() {
        return None;
    }
    Some(first_from(&runs[at], *low))
}

/// The greatest number of the set that is at most `high`.
#[tactic(auto, using(crate::proofs::Runs::none_to, crate::proofs::Runs::previous_is))]
fn previous_in(set: &Runs, high: &i64) -> Option<i64>
    requires { AreRuns set.now }
    ensures some { IfSome result (λ number. IsNear Extreme.Greatest set.now high.now number) }
    ensures none { IfNone result (NoneNear Extreme.Greatest set.now high.now) }
{
    let runs = set.runs.as_slice();
    let after = begin_by(runs, *high);
    if after == 0 {
        return None;
    }
    Some(last_to(&runs[after - 1], *high))
}

/// The number of the set next to a bound: the least that is at least it, or the greatest that is at most.
pub(crate) fn near_in(set: &Runs, extreme: Extreme, bound: &i64) -> Option<i64>
    requires { AreRuns set.now }
    ensures some { IfSome result (λ number. IsNear extreme set.now bound.now number) }
    ensures none { IfNone result (NoneNear extreme set.now bound.now) }
{
    match extreme {
        Extreme::Least => next_in(set, bound),
        Extreme::Greatest => previous_in(set, bound),
    }
}
