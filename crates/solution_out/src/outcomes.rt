ghost use Rattle.std.specs.Prelude.{length};
ghost use Rattle.cs_base.specs.Causes.{HasCause, AppendsPart};
ghost use Rattle.cs_base.specs.Chosen.{name_of};
ghost use Rattle.incumbent_board.specs.Right.{AnswerFits};
ghost use Rattle.solution_out.specs.Outcomes.{answer_text, stats_text, outcome_text};
ghost use Rattle.solution_out.specs.Writes.{Wrote};

use crate::answers::put_answer;
use crate::stats::put_stats;
use crate::sums::put_sums;
use crate::text::put;
use cs_base::{Failed, Sink};
use fzn_model::Model;
use incumbent_board::{Answer, Outcome};

/// Appends the answer, or the number that the model was made from and what is known of it.
#[tactic(auto, unfolding(crate::specs::Outcomes::answer_text))]
fn put_either<O: Sink>(
    out: &mut O,
    word: Option<&str>,
    model: &Model,
    answer: &Answer,
) -> Result<(), Failed>
    requires { AnswerFits (length model.now.doms) answer.now }
    ensures text { Wrote (O.written out.old) (O.written out.new) (answer_text (name_of word.entry) model.now answer.now) result }
    ensures cause { HasCause (O.faults out.old) (O.faults out.new) result }
{
    match word {
        Some(word) => put_sums(out, word.as_bytes(), model, answer),
        None => put_answer(out, model, answer),
    }
}

/// Appends the counts, where they are asked for.
#[tactic(auto, unfolding(crate::specs::Outcomes::stats_text))]
fn put_counts<O: Sink>(out: &mut O, counts: bool, outcome: &Outcome) -> Result<(), Failed>
    ensures text { Wrote (O.written out.old) (O.written out.new) (stats_text counts outcome.now) result }
    ensures cause { HasCause (O.faults out.old) (O.faults out.new) result }
{
    if counts {
        put_stats(out, outcome)
    } else {
        put(out, b"")
    }
}

/// Appends all of it.
#[tactic(auto, using(crate::proofs::Writing::wrote_then, crate::proofs::Writing::wrote_part))]
fn put_outcome<O: Sink>(
    out: &mut O,
    word: Option<&str>,
    counts: bool,
    model: &Model,
    outcome: &Outcome,
) -> Result<(), Failed>
    requires { AnswerFits (length model.now.doms) outcome.now.answer }
    ensures text { Wrote (O.written out.old) (O.written out.new) (outcome_text (name_of word.entry) counts model.now outcome.now) result }
    ensures cause { HasCause (O.faults out.old) (O.faults out.new) result }
{
    put_either(out, word, model, &outcome.answer)?;
    put_counts(out, counts, outcome)
}

/// Appends to the sink all that is printed when a run has ended: the answer as [`crate::write_answer`] does, or, where `word`
/// has the number that the model was made from, as [`crate::write_sums`] does; and then, where `counts` says so, what the
/// search took as [`crate::write_stats`] does. `Failed` comes only where a write of the sink failed, and then a part at the
/// front of that text was appended. Takes no memory.
#[tactic(auto, unfolding(crate::specs::Writes::Wrote))]
pub fn write_outcome<O: Sink>(
    out: &mut O,
    word: Option<&str>,
    counts: bool,
    model: &Model,
    outcome: &Outcome,
) -> Result<(), Failed>
    requires { AnswerFits (length model.now.doms) outcome.now.answer }
    ensures text { AppendsPart (O.written out.old) (O.written out.new) (outcome_text (name_of word.entry) counts model.now outcome.now) result }
    ensures cause { HasCause (O.faults out.old) (O.faults out.new) result }
{
    put_outcome(out, word, counts, model, outcome)
}
