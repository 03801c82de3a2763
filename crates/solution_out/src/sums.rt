ghost use Rattle.std.specs.Prelude.{◌≡◌, ◌++◌, codes, length};
ghost use Rattle.std.specs.Fmt.{signed_decimal};
ghost use Rattle.cs_base.specs.Causes.{HasCause, AppendsPart};
ghost use Rattle.fzn_model.specs.Limits.{GoalInLimits};
ghost use Rattle.incumbent_board.specs.Right.{AnswerFits};
ghost use Rattle.solution_out.specs.Sums.{goal_value, verdict_text, sums};
ghost use Rattle.solution_out.specs.Writes.{Wrote};

use crate::text::{put, put_between, put_number};
use cs_base::{Failed, Sink};
use fzn_model::{Goal, Model};
use incumbent_board::Answer;

/// The value that the goal minimises or maximises, 0 where it does neither.
#[tactic(auto, unfolding(crate::specs::Sums::goal_value))]
fn goal_value(goal: Goal, values: &[i64]) -> i64
    requires { GoalInLimits (length values.now) goal }
    ensures { result ≡ goal_value goal values.now }
{
    match goal {
        Goal::Satisfy => 0,
        Goal::Minimise(term) => term.value(values),
        Goal::Maximise(term) => term.value(values),
    }
}

/// Appends the value of the goal.
fn put_goal_value<O: Sink>(out: &mut O, goal: Goal, values: &[i64]) -> Result<(), Failed>
    requires { GoalInLimits (length values.now) goal }
    ensures text { Wrote (O.written out.old) (O.written out.new) (signed_decimal (goal_value goal values.now)) result }
    ensures cause { HasCause (O.faults out.old) (O.faults out.new) result }
{
    put_number(out, goal_value(goal, values))
}

/// Appends that a solution is optimal, and the value of the goal in it.
fn put_optimum<O: Sink>(out: &mut O, goal: Goal, values: &[i64]) -> Result<(), Failed>
    requires { GoalInLimits (length values.now) goal }
    ensures text { Wrote (O.written out.old) (O.written out.new) (codes "verdict optimal\n" ++ codes "optimum " ++ signed_decimal (goal_value goal values.now) ++ codes "\n") result }
    ensures cause { HasCause (O.faults out.old) (O.faults out.new) result }
{
    put(out, b"verdict optimal\noptimum ")?;
    put_goal_value(out, goal, values)?;
    put(out, b"\n")
}

/// Appends what is known of a model.
#[tactic(auto, unfolding(crate::specs::Sums::verdict_text))]
fn put_verdict<O: Sink>(out: &mut O, model: &Model, answer: &Answer) -> Result<(), Failed>
    requires { AnswerFits (length model.now.doms) answer.now }
    ensures text { Wrote (O.written out.old) (O.written out.new) (verdict_text model.now.goal answer.now) result }
    ensures cause { HasCause (O.faults out.old) (O.faults out.new) result }
{
    let goal = model.goal;
    match answer {
        Answer::Unsat => put(out, b"verdict unsatisfiable\n"),
        Answer::Sat(_) => put(out, b"verdict satisfied\n"),
        Answer::Best(values) => put_optimum(out, goal, values.as_slice()),
        Answer::Undecided(..) => put(out, b"verdict undecided\n"),
    }
}

/// Appends the number, and what is known of the model made from it.
pub(crate) fn put_sums<O: Sink>(
    out: &mut O,
    word: &[u8],
    model: &Model,
    answer: &Answer,
) -> Result<(), Failed>
    requires { AnswerFits (length model.now.doms) answer.now }
    ensures text { Wrote (O.written out.old) (O.written out.new) (sums word.now model.now answer.now) result }
    ensures cause { HasCause (O.faults out.old) (O.faults out.new) result }
{
    put_between(out, b"make ", word, b"\n")?;
    put_verdict(out, model, answer)
}

/// Appends to the sink what came of a model that was made from a number: the line `make WORD` with the number as it was
/// given; then `verdict unsatisfiable`, `verdict satisfied`, `verdict optimal` or `verdict undecided`; and under
/// `verdict optimal` the line `optimum VALUE`, with the value that the goal minimises or maximises (not its negative) in
/// the answer's solution. `Failed` comes only where a write of the sink failed, and then a part at the front of that text
/// was appended. Takes no memory.
#[tactic(auto, unfolding(crate::specs::Writes::Wrote))]
pub fn write_sums<O: Sink>(
    out: &mut O,
    word: &[u8],
    model: &Model,
    answer: &Answer,
) -> Result<(), Failed>
    requires { AnswerFits (length model.now.doms) answer.now }
    ensures text { AppendsPart (O.written out.old) (O.written out.new) (sums word.now model.now answer.now) result }
    ensures cause { HasCause (O.faults out.old) (O.faults out.new) result }
{
    put_sums(out, word, model, answer)
}
