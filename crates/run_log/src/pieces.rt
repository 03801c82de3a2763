ghost use Rattle.std.specs.Prelude.{◌++◌, codes};
ghost use Rattle.std.specs.List.{flat_map};
ghost use Rattle.cs_base.specs.Causes.{HasCause};
ghost use Rattle.run_log.specs.Buffers.{Buffered};
ghost use Rattle.run_log.specs.Texts.{number_text};

use crate::line_buffer::LineBuffer;
use cs_base::{Failed, Sink};
use itoa::{Buffer, Integer};
use rest_key::RestWords;

/// Appends a space and a number.
#[tactic(auto, using(crate::proofs::Buffering::buffered_then))]
fn put_number<O: Sink, I: Integer>(
    out: &mut O,
    buffer: &mut LineBuffer,
    number: &I,
) -> Result<(), Failed>
    ensures text { Buffered (O.written out.old, buffer.old) (O.written out.new, buffer.new) (codes " " ++ I.text number.now) result }
    ensures cause { HasCause (O.faults out.old) (O.faults out.new) result }
{
    let mut digits = Buffer::new();
    buffer.put(out, b" ")?;
    buffer.put(out, digits.format(*number).as_bytes())
}

/// Appends the numbers, a space before each.
#[tactic(auto, using(crate::proofs::Buffering::buffered_none, crate::proofs::Buffering::each_all))]
pub(crate) fn put_numbers<O: Sink>(
    out: &mut O,
    buffer: &mut LineBuffer,
    numbers: &[i128],
) -> Result<(), Failed>
    ensures text { Buffered (O.written out.old, buffer.old) (O.written out.new, buffer.new) (flat_map number_text numbers.now) result }
    ensures cause { HasCause (O.faults out.old) (O.faults out.new) result }
{
    for number in numbers {
        put_number(out, buffer, number)?;
    }
    Ok(())
}

/// Appends the values, a space before each.
#[tactic(auto, using(crate::proofs::Buffering::buffered_none, crate::proofs::Buffering::each_all))]
pub(crate) fn put_values<O: Sink>(
    out: &mut O,
    buffer: &mut LineBuffer,
    values: &[i64],
) -> Result<(), Failed>
    ensures text { Buffered (O.written out.old, buffer.old) (O.written out.new, buffer.new) (flat_map number_text values.now) result }
    ensures cause { HasCause (O.faults out.old) (O.faults out.new) result }
{
    for value in values {
        put_number(out, buffer, value)?;
    }
    Ok(())
}

/// Appends the words, a space before each.
#[tactic(auto, using(crate::proofs::Buffering::buffered_none))]
pub(crate) fn put_words<O: Sink>(
    out: &mut O,
    buffer: &mut LineBuffer,
    words: RestWords<'_>,
) -> Result<(), Failed>
    ensures text { Buffered (O.written out.old, buffer.old) (O.written out.new, buffer.new) (flat_map number_text words.entry) result }
    ensures cause { HasCause (O.faults out.old) (O.faults out.new) result }
{
    for word in words {
        put_number(out, buffer, &word)?;
    }
    Ok(())
}
