//! What no file states: values that differ from some that are taken, and tasks beside amounts that are used already.

ghost use Rattle.std.specs.Prelude.{◌≡◌, IsTrue, length};
ghost use Rattle.fzn_model.specs.Limits.{TakenInLimits, UsedInLimits, of_call};

use super::{Assignments, model_of};
use fzn_model::{Con, List, Model, Used};
use std::alloc::{AllocError, Global};
use std::process::Abort;
use std::test::Fail;

/// The greatest value.
const V: i64 = 1_000_000;

fn are_taken(taken: &[i64]) -> bool
    ensures { IsTrue result → TakenInLimits of_call taken.now }
{
    taken.len() <= 4_000_000 && taken.iter().all(|value| value.unsigned_abs() <= 1_000_000)
}

fn are_used(used: &[Used]) -> bool
    ensures { IsTrue result → UsedInLimits of_call used.now }
{
    used.len() <= 8_000_000
        && used.iter().all(|part| part.from.unsigned_abs() <= 2_000_000
            && part.to.unsigned_abs() <= 2_000_000)
        && used.iter().all(|part| part.amount >= 0 && part.amount.unsigned_abs() <= 1 << 100)
}

/// Whether the first constraint of a model, on values that differ, holds where these are taken too.
fn differ_beside(
    alloc: Global,
    model: &Model,
    taken: &[i64],
    values: &[i64],
) -> Result<bool, Fail> {
    if values.len() != model.doms.as_slice().len() || !are_taken(taken) {
        return Err("other variables, or a number that is no value")?;
    }
    match model.cons.as_slice().first() {
        Some(Con::AllDiffExcept(terms, _)) => {
            let con = Con::AllDiffExcept(terms.copy(alloc)?, List::from_slice(alloc, taken)?);
            Ok(con.holds(values))
        }
        _ => Err("another constraint")?,
    }
}

/// Whether the first constraint of a model, on tasks, holds where these amounts are used too.
fn fit_beside(alloc: Global, model: &Model, used: &[Used], values: &[i64]) -> Result<bool, Fail> {
    if values.len() != model.doms.as_slice().len() || !are_used(used) {
        return Err("other variables, or an amount that is out of range")?;
    }
    match model.cons.as_slice().first() {
        Some(Con::CumulUsed(tasks, _, limit)) => {
            let con = Con::CumulUsed(tasks.copy(alloc)?, List::from_slice(alloc, used)?, *limit);
            Ok(con.holds(values))
        }
        _ => Err("another constraint")?,
    }
}

/// Values that are taken, and assignments of three variables that differ from each other and from these, and others.
#[rattlefmt::skip]
static TAKEN: [(&[i64], Assignments, Assignments); 3] = [
    (&[4, -V], &[&[1, 2, 3], &[3, -4, 0], &[V, 0, 1]], &[&[1, 1, 2], &[1, 2, 1], &[2, 1, 1], &[4, 1, 2], &[1, 2, 4], &[1, -V, 2]]),
    (&[4, 4, 3], &[&[1, 2, 5]], &[&[1, 2, 3], &[4, 1, 2], &[1, 1, 2]]),
    (&[], &[&[1, 2, 3]], &[&[3, 2, 3]]),
];

#[test]
fn taken_values(rt: HostRuntime) -> Result<(), Fail> {
    let alloc = rt.alloc();
    let model = model_of(
        alloc,
        "var int: a; var int: b; var int: c; constraint all_different_int([a,b,c]); solve satisfy;",
    )?;
    for (taken, apart, others) in &TAKEN {
        for values in *apart {
            assert!(rt;
                differ_beside(alloc, &model, taken, values)?,
                "{taken:?} {values:?}"
            );
        }
        for values in *others {
            assert!(rt;
                !differ_beside(alloc, &model, taken, values)?,
                "{taken:?} {values:?}"
            );
        }
    }
    Ok(())
}

/// The text of a constraint on tasks over `a`, `b` and `c`, an amount that is used from one moment to before another, and
/// assignments under which all fits, and others.
type Beside = (
    &'static str,
    &'static [(i64, i64, i128)],
    Assignments,
    Assignments,
);

#[rattlefmt::skip]
static USED: [Beside; 5] = [
    ("cumulative([a],[b],[1],c)", &[(2, 5, 2)], &[&[0, 2, 2], &[5, 9, 2], &[0, 3, 3], &[3, 0, 2]], &[&[0, 3, 2], &[4, 1, 2], &[0, 0, 1]]),
    ("cumulative([a],[b],[1],c)", &[(2, 5, 2), (4, 6, 1)], &[&[0, 4, 3], &[6, 9, 3], &[0, 9, 4]], &[&[0, 5, 3], &[4, 1, 3], &[9, 1, 2]]),
    ("cumulative([],[],[],a)", &[(5, 5, 9), (7, 3, 9)], &[&[0, 0, 0], &[V, 0, 0]], &[&[-1, 0, 0], &[-V, 0, 0]]),
    ("cumulative([],[],[],a)", &[(-2 * V, 2 * V, 1 << 100)], &[], &[&[V, 0, 0]]),
    ("cumulative([a],[3],[b],c)", &[], &[&[0, 2, 2]], &[&[0, 3, 2]]),
];

/// The amounts of a row.
fn used_of(alloc: Global, parts: &[(i64, i64, i128)]) -> Result<Vec<Used>, AllocError> {
    let mut used = Vec::new(alloc);
    for (from, to, amount) in parts {
        used.push(Used {
            from: *from,
            to: *to,
            amount: *amount,
        })?;
    }
    Ok(used)
}

/// Fails where one of the assignments fits beside the amounts and shouldn't, or the other way.
fn all_fit(
    rt: &impl Abort,
    alloc: Global,
    row: &Beside,
    assignments: &[&[i64]],
    expected: bool,
) -> Result<(), Fail> {
    let text = format!(in alloc;
        "var int: a; var int: b; var int: c; constraint {}; solve satisfy;",
        row.0
    )?;
    let model = model_of(alloc, text.as_str())?;
    let used = used_of(alloc, row.1)?;
    for values in assignments {
        let fits = fit_beside(alloc, &model, used.as_slice(), values)?;
        assert_eq!(rt; fits, expected, "{row:?} {values:?}");
    }
    Ok(())
}

#[test]
fn used_amounts(rt: HostRuntime) -> Result<(), Fail> {
    for row in &USED {
        all_fit(&rt, rt.alloc(), row, row.2, true)?;
        all_fit(&rt, rt.alloc(), row, row.3, false)?;
    }
    Ok(())
}
