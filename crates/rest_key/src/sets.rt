ghost use Rattle.std.specs.Prelude.{◌↔◌, IsTrue, All};
ghost use Rattle.rest_key.specs.Weaker.{SetWithin};
ghost use Rattle.rest_key.specs.PartTests.{RunWithin, AreRunsWithin, Encloses, IsRun};

use fzn_model::Runs;

/// Whether the first run has both ends of the second.
#[tactic(auto, unfolding(crate::specs::PartTests::Encloses))]
fn encloses(outer: &(i64, i64), run: &(i64, i64)) -> bool
    ensures { IsTrue result ↔ Encloses outer.now run.now }
{
    outer.0 <= run.0 && run.1 <= outer.1
}

/// Whether each number of the run is in the set. Since there are gaps between runs, one of them has to have both ends.
#[tactic(auto, using(crate::proofs::RunsWithin::enclosed_within, crate::proofs::RunsWithin::within_enclosed, crate::proofs::RunsWithin::within_some))]
fn is_run_within(run: &(i64, i64), other: &Runs) -> bool
    requires { IsRun run.now }
    ensures { IsTrue result ↔ RunWithin other.now run.now }
{
    let place = other.first_reaching(&run.0);
    let runs = other.runs.as_slice();
    if place == runs.len() {
        return false;
    }
    encloses(&runs[place], run)
}

/// Whether each run of the first set lies within the second.
#[tactic(auto, unfolding(crate::specs::PartTests::AreRunsWithin))]
fn are_runs_within(set: &[(i64, i64)], other: &Runs) -> bool
    requires { All IsRun set.now }
    ensures { IsTrue result ↔ AreRunsWithin other.now set.now }
{
    set.iter().all(|run| is_run_within(run, other))
}

/// Whether each number of the first set is in the second. A step for each run of the first times the logarithm of the
/// number of runs of the second.
#[tactic(auto, using(crate::proofs::RunsWithin::are_runs, crate::proofs::RunsWithin::all_within, crate::proofs::RunsWithin::within_all))]
pub(crate) fn is_set_within(set: &Runs, other: &Runs) -> bool
    ensures { IsTrue result ↔ SetWithin set.now other.now }
{
    are_runs_within(set.runs.as_slice(), other)
}
