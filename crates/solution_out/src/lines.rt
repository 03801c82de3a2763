ghost use Rattle.std.specs.Prelude.{All, length};
ghost use Rattle.cs_base.specs.Causes.{HasCause};
ghost use Rattle.fzn_model.specs.Limits.{TermIn, IsShape, OutInLimits};
ghost use Rattle.solution_out.specs.Shows.{output_text, line_text, line, lines};
ghost use Rattle.solution_out.specs.Writes.{Wrote};

use crate::array::put_array;
use crate::text::put;
use crate::values::put_term;
use cs_base::{Failed, Sink};
use fzn_model::{Out, Term};

/// Appends a value, or an array where there are dimensions.
#[tactic(auto, unfolding(crate::specs::Shows::output_text))]
fn put_output<O: Sink>(
    out: &mut O,
    truth: bool,
    values: &[i64],
    dims: &[(i64, i64)],
    terms: &[Term],
) -> Result<(), Failed>
    requires terms { All (TermIn (length values.now)) terms.now }
    requires shape { IsShape dims.now (length terms.now) }
    ensures text { Wrote (O.written out.old) (O.written out.new) (output_text truth values.now dims.now terms.now) result }
    ensures cause { HasCause (O.faults out.old) (O.faults out.new) result }
{
    match dims {
        [] => put_term(out, truth, values, terms[0]),
        [_, ..] => put_array(out, truth, values, dims, terms),
    }
}

/// Appends a name and what it is.
#[tactic(auto, unfolding(crate::specs::Shows::line_text), using(crate::proofs::Writing::wrote_then, crate::proofs::Writing::wrote_part))]
fn put_named<O: Sink>(
    out: &mut O,
    name: &[u8],
    truth: bool,
    values: &[i64],
    dims: &[(i64, i64)],
    terms: &[Term],
) -> Result<(), Failed>
    requires terms { All (TermIn (length values.now)) terms.now }
    requires shape { IsShape dims.now (length terms.now) }
    ensures text { Wrote (O.written out.old) (O.written out.new) (line_text name.now truth values.now dims.now terms.now) result }
    ensures cause { HasCause (O.faults out.old) (O.faults out.new) result }
{
    put(out, name)?;
    put(out, b" = ")?;
    put_output(out, truth, values, dims, terms)?;
    put(out, b";\n")
}

/// Appends the line of an output.
#[tactic(auto, unfolding(crate::specs::Shows::line))]
fn put_line<O: Sink>(out: &mut O, values: &[i64], output: &Out) -> Result<(), Failed>
    requires { OutInLimits (length values.now) output.now }
    ensures text { Wrote (O.written out.old) (O.written out.new) (line values.now output.now) result }
    ensures cause { HasCause (O.faults out.old) (O.faults out.new) result }
{
    put_named(
        out,
        output.name.as_slice(),
        output.truth,
        values,
        output.dims.as_slice(),
        output.terms.as_slice(),
    )
}

/// Appends the lines of all outputs.
#[tactic(auto, unfolding(crate::specs::Shows::lines), using(crate::proofs::Writing::wrote_none, crate::proofs::Writing::each_more, crate::proofs::Writing::each_part, crate::proofs::Writing::each_all))]
pub(crate) fn put_lines<O: Sink>(out: &mut O, values: &[i64], outs: &[Out]) -> Result<(), Failed>
    requires { All (OutInLimits (length values.now)) outs.now }
    ensures text { Wrote (O.written out.old) (O.written out.new) (lines outs.now values.now) result }
    ensures cause { HasCause (O.faults out.old) (O.faults out.new) result }
{
    for output in outs {
        put_line(out, values, output)?;
    }
    Ok(())
}
