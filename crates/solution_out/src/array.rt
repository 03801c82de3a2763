ghost use Rattle.std.specs.Prelude.{All, length};
ghost use Rattle.cs_base.specs.Causes.{HasCause};
ghost use Rattle.fzn_model.specs.Limits.{TermIn};
ghost use Rattle.solution_out.specs.Shows.{range_text, range_argument, ranges_text, array_head, array_text};
ghost use Rattle.solution_out.specs.Writes.{Wrote};

use crate::text::{put, put_count, put_number};
use crate::values::put_values;
use cs_base::{Failed, Sink};
use fzn_model::Term;

/// Appends an index range.
#[tactic(auto, unfolding(crate::specs::Shows::range_text), using(crate::proofs::Writing::wrote_then, crate::proofs::Writing::wrote_part))]
fn put_range<O: Sink>(out: &mut O, low: i64, high: i64) -> Result<(), Failed>
    ensures text { Wrote (O.written out.old) (O.written out.new) (range_text low high) result }
    ensures cause { HasCause (O.faults out.old) (O.faults out.new) result }
{
    put_number(out, low)?;
    put(out, b"..")?;
    put_number(out, high)
}

/// Appends an index range as an argument before the values.
#[tactic(auto, unfolding(crate::specs::Shows::range_argument), using(crate::proofs::Writing::wrote_then, crate::proofs::Writing::wrote_part))]
fn put_range_argument<O: Sink>(out: &mut O, range: &(i64, i64)) -> Result<(), Failed>
    ensures text { Wrote (O.written out.old) (O.written out.new) (range_argument range.now) result }
    ensures cause { HasCause (O.faults out.old) (O.faults out.new) result }
{
    put_range(out, range.0, range.1)?;
    put(out, b", ")
}

/// Appends the index ranges.
#[tactic(auto, unfolding(crate::specs::Shows::ranges_text), using(crate::proofs::Writing::wrote_none, crate::proofs::Writing::each_more, crate::proofs::Writing::each_part, crate::proofs::Writing::each_all))]
fn put_ranges<O: Sink>(out: &mut O, dims: &[(i64, i64)]) -> Result<(), Failed>
    ensures text { Wrote (O.written out.old) (O.written out.new) (ranges_text dims.now) result }
    ensures cause { HasCause (O.faults out.old) (O.faults out.new) result }
{
    for range in dims {
        put_range_argument(out, range)?;
    }
    Ok(())
}

/// Appends an array up to its values.
#[tactic(auto, unfolding(crate::specs::Shows::array_head), using(crate::proofs::Writing::wrote_then, crate::proofs::Writing::wrote_part))]
fn put_array_head<O: Sink>(out: &mut O, dims: &[(i64, i64)]) -> Result<(), Failed>
    ensures text { Wrote (O.written out.old) (O.written out.new) (array_head dims.now) result }
    ensures cause { HasCause (O.faults out.old) (O.faults out.new) result }
{
    put(out, b"array")?;
    put_count(out, dims.len() as u64)?;
    put(out, b"d(")?;
    put_ranges(out, dims)
}

/// Appends an array.
#[tactic(auto, unfolding(crate::specs::Shows::array_text), using(crate::proofs::Writing::wrote_then, crate::proofs::Writing::wrote_part))]
pub(crate) fn put_array<O: Sink>(
    out: &mut O,
    truth: bool,
    values: &[i64],
    dims: &[(i64, i64)],
    terms: &[Term],
) -> Result<(), Failed>
    requires { All (TermIn (length values.now)) terms.now }
    ensures text { Wrote (O.written out.old) (O.written out.new) (array_text truth values.now dims.now terms.now) result }
    ensures cause { HasCause (O.faults out.old) (O.faults out.new) result }
{
    put_array_head(out, dims)?;
    put(out, b"[")?;
    put_values(out, truth, values, terms)?;
    put(out, b"])")
}
