ghost use Rattle.std.specs.Prelude.{◌≡◌, ◌++◌, codes};
ghost use Rattle.cs_base.specs.Causes.{HasCause, AppendsPart};
ghost use Rattle.solution_out.specs.Refusals.{excerpt, place_text, behind_colon, refusal_text};
ghost use Rattle.solution_out.specs.Writes.{Wrote};

use crate::text::{put, put_count};
use cs_base::{Failed, Sink};

/// The first 40 bytes of a token, or that the input ends, where it has none.
#[tactic(auto, using(crate::proofs::Excerpts::empty_excerpt, crate::proofs::Excerpts::short_excerpt, crate::proofs::Excerpts::long_excerpt, crate::proofs::Excerpts::long_length))]
fn excerpt(token: &[u8]) -> &[u8]
    ensures { result.now ≡ excerpt token.now }
{
    if token.is_empty() {
        return b"end of input";
    }
    if token.len() <= 40 {
        return token;
    }
    &token[..40]
}

/// Appends a line of the input.
fn put_place<O: Sink>(out: &mut O, line: u32) -> Result<(), Failed>
    ensures text { Wrote (O.written out.old) (O.written out.new) (place_text line) result }
    ensures cause { HasCause (O.faults out.old) (O.faults out.new) result }
{
    put(out, b"cachesolve: line ")?;
    put_count(out, line as u64)
}

/// Appends a word behind a colon.
fn put_behind_colon<O: Sink>(out: &mut O, word: &[u8]) -> Result<(), Failed>
    ensures text { Wrote (O.written out.old) (O.written out.new) (behind_colon word.now) result }
    ensures cause { HasCause (O.faults out.old) (O.faults out.new) result }
{
    put(out, b": ")?;
    put(out, word)
}

/// Appends the token, and ends the line.
#[tactic(auto, using(crate::proofs::Writing::wrote_then, crate::proofs::Writing::wrote_part))]
fn put_token<O: Sink>(out: &mut O, token: &[u8]) -> Result<(), Failed>
    ensures text { Wrote (O.written out.old) (O.written out.new) (behind_colon (excerpt token.now) ++ codes "\n") result }
    ensures cause { HasCause (O.faults out.old) (O.faults out.new) result }
{
    put_behind_colon(out, excerpt(token))?;
    put(out, b"\n")
}

/// Appends the name of the reason, and the token.
#[tactic(auto, using(crate::proofs::Writing::wrote_then, crate::proofs::Writing::wrote_part))]
fn put_reason<O: Sink>(out: &mut O, name: &[u8], token: &[u8]) -> Result<(), Failed>
    ensures text { Wrote (O.written out.old) (O.written out.new) (behind_colon name.now ++ (behind_colon (excerpt token.now) ++ codes "\n")) result }
    ensures cause { HasCause (O.faults out.old) (O.faults out.new) result }
{
    put_behind_colon(out, name)?;
    put_token(out, token)
}

/// Appends the line, the name of the reason, and the token.
#[tactic(auto, unfolding(crate::specs::Refusals::refusal_text), using(crate::proofs::Writing::wrote_then, crate::proofs::Writing::wrote_part))]
fn put_refusal<O: Sink>(out: &mut O, line: u32, name: &[u8], token: &[u8]) -> Result<(), Failed>
    ensures text { Wrote (O.written out.old) (O.written out.new) (refusal_text line name.now token.now) result }
    ensures cause { HasCause (O.faults out.old) (O.faults out.new) result }
{
    put_place(out, line)?;
    put_reason(out, name, token)
}

/// Appends why a model is refused, as one line: the line of the input, counted from 1; the name of the reason; and the
/// first 40 bytes of the token that shows it, or `end of input` where that is empty. `Failed` comes only where a write of
/// the sink failed, and then a part at the front of that text was appended. Takes no memory.
#[tactic(auto, unfolding(crate::specs::Writes::Wrote))]
pub fn write_refusal<O: Sink>(
    out: &mut O,
    line: u32,
    name: &[u8],
    token: &[u8],
) -> Result<(), Failed>
    ensures text { AppendsPart (O.written out.old) (O.written out.new) (refusal_text line name.now token.now) result }
    ensures cause { HasCause (O.faults out.old) (O.faults out.new) result }
{
    put_refusal(out, line, name, token)
}
