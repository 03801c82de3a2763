// What is answered when a search has ended.
ghost use Rattle.std.specs.Prelude.{◌≡◌};
ghost use Rattle.solver.specs.Outcomes.{said, undecided};

use explorer::Explored;
use fzn_model::{Goal, List};
use incumbent_board::{Answer, Why};

/// What is known where a search stopped before its end: a solution is enough where any will do.
fn undecided(goal: Goal, values: Option<List<i64>>, why: Why) -> Answer
    ensures { result ≡ undecided goal values why }
{
    match (goal, values) {
        (Goal::Satisfy, Some(values)) => Answer::Sat(values),
        (_, values) => Answer::Undecided(values, why),
    }
}

/// What is known by the end of a search and the solution that it kept.
pub(crate) fn answer(goal: Goal, explored: Explored, values: Option<List<i64>>) -> Answer
    ensures { result ≡ said goal explored values }
{
    match explored {
        Explored::Settled(_) => match (goal, values) {
            (_, None) => Answer::Unsat,
            (Goal::Satisfy, Some(values)) => Answer::Sat(values),
            (_, Some(values)) => Answer::Best(values),
        },
        Explored::Dry => undecided(goal, values, Why::Budget),
        Explored::Told(why) => undecided(goal, values, why),
        Explored::NoMemory => undecided(goal, values, Why::Memory),
    }
}
