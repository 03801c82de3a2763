// From reading to printing.
mod answers;
mod beside;
mod calls;
mod files;
mod kinds;
mod names;
mod refusals;
mod solutions;

use fzn_model::{Model, satisfies};
use fzn_parser::parse;
use std::alloc::Global;
use std::process::Abort;
use std::test::Fail;

/// The model that a text states.
fn model_of(alloc: Global, text: &str) -> Result<Model, Fail> {
    match parse(alloc, text.as_bytes()) {
        Ok(model) => Ok(model),
        Err(_) => Err("a text is refused")?,
    }
}

/// Assignments, each with a value for each variable in order of declaration.
type Assignments = &'static [&'static [i64]];

/// The text of a model, some of its solutions, and assignments that are none.
type Row = (&'static str, Assignments, Assignments);

/// Fails where one of the assignments is a solution of the model and shouldn't be, or the other way.
fn all_solve(
    rt: &impl Abort,
    model: &Model,
    assignments: &[&[i64]],
    expected: bool,
    text: &str,
) -> Result<(), Fail> {
    for values in assignments {
        if values.len() != model.doms.as_slice().len() {
            return Err("more or fewer values than variables")?;
        }
        assert_eq!(rt; satisfies(model, values), expected, "{text} {values:?}");
    }
    Ok(())
}

/// Fails where a row's text has other solutions.
fn rows_hold(rt: &impl Abort, alloc: Global, rows: &[Row]) -> Result<(), Fail> {
    for (text, solutions, others) in rows {
        let model = model_of(alloc, text)?;
        all_solve(rt, &model, solutions, true, text)?;
        all_solve(rt, &model, others, false, text)?;
    }
    Ok(())
}
