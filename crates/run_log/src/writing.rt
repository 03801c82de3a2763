ghost use Rattle.std.specs.Prelude.{◌≡◌, ◌≤◌, length, option_copied};
ghost use Rattle.std.specs.List.{flat_map};
ghost use Rattle.cs_base.specs.Causes.{HasCause, AppendsPart};
ghost use Rattle.run_log.specs.Buffers.{Buffered};
ghost use Rattle.run_log.specs.Texts.{entry_of, entry_text, ended, name_of, number_text, numbers_of, shown_words};

use crate::line::LogLine;
use crate::line_buffer::LineBuffer;
use crate::pieces::{put_numbers, put_values, put_words};
use cs_base::{Failed, Sink};
use fzn_model::Rest;
use rest_key::words;

/// The name of the line.
fn name(line: &LogLine) -> &'static [u8]
    ensures name { result.now ≡ name_of line.now }
    ensures short { length result.now ≤ 8 }
{
    match line {
        LogLine::Node { .. } => b"node",
        LogLine::Rest { .. } => b"rest",
        LogLine::Wide { .. } => b"wide",
        LogLine::Gone { .. } => b"gone",
        LogLine::Hit { .. } => b"hit",
        LogLine::Expand { .. } => b"expand",
        LogLine::Solution { .. } => b"solution",
        LogLine::Leaf { .. } => b"leaf",
        LogLine::Join { .. } => b"join",
        LogLine::Publish { .. } => b"publish",
    }
}

/// Appends the numbers that the line itself has.
fn put_line_numbers<O: Sink>(
    out: &mut O,
    buffer: &mut LineBuffer,
    line: &LogLine,
) -> Result<(), Failed>
    ensures text { Buffered (O.written out.old, buffer.old) (O.written out.new, buffer.new) (flat_map number_text (numbers_of line.now)) result }
    ensures cause { HasCause (O.faults out.old) (O.faults out.new) result }
{
    match *line {
        LogLine::Node { depth, seen } => put_numbers(out, buffer, &[depth.into(), seen.into()]),
        LogLine::Rest { offset } => put_numbers(out, buffer, &[offset]),
        LogLine::Wide { words } => put_numbers(out, buffer, &[words.into()]),
        LogLine::Gone { place } => put_numbers(out, buffer, &[place.into()]),
        LogLine::Hit {
            depth,
            bound,
            place,
        } => put_numbers(out, buffer, &[depth.into(), bound.into(), place.into()]),
        LogLine::Expand { depth, var, at, up } => put_numbers(
            out,
            buffer,
            &[depth.into(), var.into(), at.into(), up.into()],
        ),
        LogLine::Solution { cost } => put_numbers(out, buffer, &[cost.into()]),
        LogLine::Leaf { depth, bound } => put_numbers(out, buffer, &[depth.into(), bound.into()]),
        LogLine::Join { depth, bound } => put_numbers(out, buffer, &[depth.into(), bound.into()]),
        LogLine::Publish { place, bound } => put_numbers(out, buffer, &[place.into(), bound]),
    }
}

/// Appends the words of the residual problem, if there is one.
#[tactic(auto, using(crate::proofs::Buffering::buffered_none))]
fn put_rest<O: Sink>(
    out: &mut O,
    buffer: &mut LineBuffer,
    rest: Option<&Rest>,
) -> Result<(), Failed>
    ensures text { Buffered (O.written out.old, buffer.old) (O.written out.new, buffer.new) (flat_map number_text (shown_words (option_copied rest.entry))) result }
    ensures cause { HasCause (O.faults out.old) (O.faults out.new) result }
{
    match rest {
        Some(rest) => put_words(out, buffer, words(rest)),
        None => Ok(()),
    }
}

/// Appends the line, of which the end may stay in the buffer.
fn put_line<O: Sink>(
    out: &mut O,
    buffer: &mut LineBuffer,
    line: &LogLine,
    rest: Option<&Rest>,
    values: &[i64],
) -> Result<(), Failed>
    ensures text { Buffered (O.written out.old, buffer.old) (O.written out.new, buffer.new) (ended (entry_text (entry_of (record { line = line.now; rest = option_copied rest.entry; values = values.now })))) result }
    ensures cause { HasCause (O.faults out.old) (O.faults out.new) result }
{
    buffer.put(out, b"%log ")?;
    buffer.put(out, name(line))?;
    put_line_numbers(out, buffer, line)?;
    put_rest(out, buffer, rest)?;
    put_values(out, buffer, values)?;
    buffer.put(out, b"\n")
}

/// Appends the line to what the sink has, with one write where it is short. `Failed` comes only where a write of the sink
/// failed, and then a part at the front of the line was appended. Takes no memory.
#[tactic(auto, using(crate::proofs::Buffering::buffered_whole, crate::proofs::Buffering::buffered_cut))]
pub(crate) fn write_line<O: Sink>(
    out: &mut O,
    line: &LogLine,
    rest: Option<&Rest>,
    values: &[i64],
) -> Result<(), Failed>
    ensures text { AppendsPart (O.written out.old) (O.written out.new) (ended (entry_text (entry_of (record { line = line.now; rest = option_copied rest.entry; values = values.now })))) result }
    ensures cause { HasCause (O.faults out.old) (O.faults out.new) result }
{
    let mut buffer = LineBuffer::new();
    put_line(out, &mut buffer, line, rest, values)?;
    buffer.flush(out)
}
