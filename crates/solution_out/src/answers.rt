ghost use Rattle.std.specs.Prelude.{◌++◌, All, codes, length};
ghost use Rattle.cs_base.specs.Causes.{HasCause, AppendsPart};
ghost use Rattle.fzn_model.specs.Limits.{OutInLimits};
ghost use Rattle.incumbent_board.specs.Right.{AnswerFits};
ghost use Rattle.solution_out.specs.Shows.{solution_text, reason_text, shows};
ghost use Rattle.solution_out.specs.Writes.{Wrote};

use crate::lines::put_lines;
use crate::text::put;
use cs_base::{Failed, Sink};
use fzn_model::{Model, Out};
use incumbent_board::{Answer, Why};

/// Appends a solution.
#[tactic(auto, unfolding(crate::specs::Shows::solution_text), using(crate::proofs::Writing::wrote_then, crate::proofs::Writing::wrote_part))]
fn put_solution<O: Sink>(out: &mut O, outs: &[Out], values: &[i64]) -> Result<(), Failed>
    requires { All (OutInLimits (length values.now)) outs.now }
    ensures text { Wrote (O.written out.old) (O.written out.new) (solution_text outs.now values.now) result }
    ensures cause { HasCause (O.faults out.old) (O.faults out.new) result }
{
    put_lines(out, values, outs)?;
    put(out, b"----------\n")
}

/// Appends why a problem is undecided.
#[tactic(auto, unfolding(crate::specs::Shows::reason_text))]
fn put_reason<O: Sink>(out: &mut O, why: Why) -> Result<(), Failed>
    ensures text { Wrote (O.written out.old) (O.written out.new) (reason_text why) result }
    ensures cause { HasCause (O.faults out.old) (O.faults out.new) result }
{
    match why {
        Why::Budget => put(out, b"% undecided: node budget\n"),
        Why::Memory => put(out, b"% undecided: memory\n"),
    }
}

/// Appends a best solution.
#[tactic(auto, using(crate::proofs::Writing::wrote_then, crate::proofs::Writing::wrote_part))]
fn put_best<O: Sink>(out: &mut O, outs: &[Out], values: &[i64]) -> Result<(), Failed>
    requires { All (OutInLimits (length values.now)) outs.now }
    ensures text { Wrote (O.written out.old) (O.written out.new) (solution_text outs.now values.now ++ codes "==========\n") result }
    ensures cause { HasCause (O.faults out.old) (O.faults out.new) result }
{
    put_solution(out, outs, values)?;
    put(out, b"==========\n")
}

/// Appends that nothing is known, and why.
#[tactic(auto, using(crate::proofs::Writing::wrote_then))]
fn put_unknown<O: Sink>(out: &mut O, why: Why) -> Result<(), Failed>
    ensures text { Wrote (O.written out.old) (O.written out.new) (codes "=====UNKNOWN=====\n" ++ reason_text why) result }
    ensures cause { HasCause (O.faults out.old) (O.faults out.new) result }
{
    put(out, b"=====UNKNOWN=====\n")?;
    put_reason(out, why)
}

/// Appends a solution, and why it isn't known to be best.
#[tactic(auto, using(crate::proofs::Writing::wrote_then, crate::proofs::Writing::wrote_part))]
fn put_stopped<O: Sink>(out: &mut O, outs: &[Out], values: &[i64], why: Why) -> Result<(), Failed>
    requires { All (OutInLimits (length values.now)) outs.now }
    ensures text { Wrote (O.written out.old) (O.written out.new) (solution_text outs.now values.now ++ reason_text why) result }
    ensures cause { HasCause (O.faults out.old) (O.faults out.new) result }
{
    put_solution(out, outs, values)?;
    put_reason(out, why)
}

/// Appends the text of an answer.
pub(crate) fn put_answer<O: Sink>(out: &mut O, model: &Model, answer: &Answer) -> Result<(), Failed>
    requires { AnswerFits (length model.now.doms) answer.now }
    ensures text { Wrote (O.written out.old) (O.written out.new) (shows model.now answer.now) result }
    ensures cause { HasCause (O.faults out.old) (O.faults out.new) result }
{
    let outs = model.outs.as_slice();
    match answer {
        Answer::Unsat => put(out, b"=====UNSATISFIABLE=====\n"),
        Answer::Sat(values) => put_solution(out, outs, values.as_slice()),
        Answer::Best(values) => put_best(out, outs, values.as_slice()),
        Answer::Undecided(None, why) => put_unknown(out, *why),
        Answer::Undecided(Some(values), why) => put_stopped(out, outs, values.as_slice(), *why),
    }
}

/// Appends the text of an answer to the sink: a line for each output under the solution that the answer has, then the
/// lines that say what is known (the standard output of a FlatZinc solver; the `% undecided` line is this project's
/// own). `Failed` comes only where a write of the sink failed, and then a part at the front of that text was appended.
/// Takes no memory.
#[tactic(auto, unfolding(crate::specs::Writes::Wrote))]
pub fn write_answer<O: Sink>(out: &mut O, model: &Model, answer: &Answer) -> Result<(), Failed>
    requires { AnswerFits (length model.now.doms) answer.now }
    ensures text { AppendsPart (O.written out.old) (O.written out.new) (shows model.now answer.now) result }
    ensures cause { HasCause (O.faults out.old) (O.faults out.new) result }
{
    put_answer(out, model, answer)
}
