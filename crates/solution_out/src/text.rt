ghost use Rattle.std.specs.Prelude.{◌++◌, decimal};
ghost use Rattle.std.specs.Fmt.{signed_decimal};
ghost use Rattle.cs_base.specs.Causes.{HasCause};
ghost use Rattle.solution_out.specs.Writes.{Wrote};

use cs_base::{Failed, Sink, write_whole};
use itoa::Buffer;

/// Appends the bytes.
#[tactic(auto, unfolding(crate::specs::Writes::Wrote))]
pub(crate) fn put<O: Sink>(out: &mut O, bytes: &[u8]) -> Result<(), Failed>
    ensures text { Wrote (O.written out.old) (O.written out.new) bytes.now result }
    ensures cause { HasCause (O.faults out.old) (O.faults out.new) result }
{
    write_whole(out, bytes)
}

/// Appends a word between two others.
#[tactic(auto, using(crate::proofs::Writing::wrote_then, crate::proofs::Writing::wrote_part))]
pub(crate) fn put_between<O: Sink>(
    out: &mut O,
    before: &[u8],
    word: &[u8],
    behind: &[u8],
) -> Result<(), Failed>
    ensures text { Wrote (O.written out.old) (O.written out.new) (before.now ++ word.now ++ behind.now) result }
    ensures cause { HasCause (O.faults out.old) (O.faults out.new) result }
{
    put(out, before)?;
    put(out, word)?;
    put(out, behind)
}

/// Appends a number in decimal.
pub(crate) fn put_number<O: Sink>(out: &mut O, number: i64) -> Result<(), Failed>
    ensures text { Wrote (O.written out.old) (O.written out.new) (signed_decimal number) result }
    ensures cause { HasCause (O.faults out.old) (O.faults out.new) result }
{
    let mut buffer = Buffer::new();
    put(out, buffer.format(number).as_bytes())
}

/// Appends a count in decimal.
pub(crate) fn put_count<O: Sink>(out: &mut O, count: u64) -> Result<(), Failed>
    ensures text { Wrote (O.written out.old) (O.written out.new) (decimal count) result }
    ensures cause { HasCause (O.faults out.old) (O.faults out.new) result }
{
    let mut buffer = Buffer::new();
    put(out, buffer.format(count).as_bytes())
}
