ghost use Rattle.std.specs.Prelude.{◌++◌, All, codes, length};
ghost use Rattle.std.specs.List.{flat_map};
ghost use Rattle.cs_base.specs.Causes.{HasCause};
ghost use Rattle.fzn_model.specs.Limits.{TermIn};
ghost use Rattle.solution_out.specs.Shows.{value_text, term_text, next_text, values_text};
ghost use Rattle.solution_out.specs.Writes.{Wrote};

use crate::text::{put, put_number};
use cs_base::{Failed, Sink};
use fzn_model::Term;

/// Appends a value.
#[tactic(auto, unfolding(crate::specs::Shows::value_text))]
fn put_value<O: Sink>(out: &mut O, truth: bool, value: i64) -> Result<(), Failed>
    ensures text { Wrote (O.written out.old) (O.written out.new) (value_text truth value) result }
    ensures cause { HasCause (O.faults out.old) (O.faults out.new) result }
{
    if !truth {
        put_number(out, value)
    } else if value == 1 {
        put(out, b"true")
    } else {
        put(out, b"false")
    }
}

/// Appends the value of a term.
#[tactic(auto, unfolding(crate::specs::Shows::term_text))]
pub(crate) fn put_term<O: Sink>(
    out: &mut O,
    truth: bool,
    values: &[i64],
    term: Term,
) -> Result<(), Failed>
    requires { TermIn (length values.now) term }
    ensures text { Wrote (O.written out.old) (O.written out.new) (term_text truth values.now term) result }
    ensures cause { HasCause (O.faults out.old) (O.faults out.new) result }
{
    put_value(out, truth, term.value(values))
}

/// Appends a separator and the value of a term.
#[tactic(auto, unfolding(crate::specs::Shows::next_text), using(crate::proofs::Writing::wrote_then, crate::proofs::Writing::wrote_part))]
fn put_next_term<O: Sink>(
    out: &mut O,
    truth: bool,
    values: &[i64],
    term: Term,
) -> Result<(), Failed>
    requires { TermIn (length values.now) term }
    ensures text { Wrote (O.written out.old) (O.written out.new) (next_text truth values.now term) result }
    ensures cause { HasCause (O.faults out.old) (O.faults out.new) result }
{
    put(out, b", ")?;
    put_term(out, truth, values, term)
}

/// Appends the values of the terms, each after a separator.
#[tactic(auto, using(crate::proofs::Writing::wrote_none, crate::proofs::Writing::each_more, crate::proofs::Writing::each_part, crate::proofs::Writing::each_all))]
fn put_next_terms<O: Sink>(
    out: &mut O,
    truth: bool,
    values: &[i64],
    terms: &[Term],
) -> Result<(), Failed>
    requires { All (TermIn (length values.now)) terms.now }
    ensures text { Wrote (O.written out.old) (O.written out.new) (flat_map (next_text truth values.now) terms.now) result }
    ensures cause { HasCause (O.faults out.old) (O.faults out.new) result }
{
    for term in terms {
        put_next_term(out, truth, values, *term)?;
    }
    Ok(())
}

/// Appends the values of the terms, with a separator between two.
#[tactic(auto, unfolding(crate::specs::Shows::values_text, crate::specs::Shows::next_text), using(crate::proofs::Writing::wrote_none, crate::proofs::Writing::wrote_then, crate::proofs::Writing::wrote_part))]
pub(crate) fn put_values<O: Sink>(
    out: &mut O,
    truth: bool,
    values: &[i64],
    terms: &[Term],
) -> Result<(), Failed>
    requires { All (TermIn (length values.now)) terms.now }
    ensures text { Wrote (O.written out.old) (O.written out.new) (values_text truth values.now terms.now) result }
    ensures cause { HasCause (O.faults out.old) (O.faults out.new) result }
{
    match terms {
        [] => Ok(()),
        [first, rest @ ..] => {
            put_term(out, truth, values, *first)?;
            put_next_terms(out, truth, values, rest)
        }
    }
}
