ghost use Rattle.std.specs.Prelude.{◌≡◌, [], ◌∷◌, Some, IfOk, All, map};
ghost use Rattle.std.specs.List.{zip};
ghost use Rattle.fzn_model.specs.declared.con.Con.TheVariants as con;
ghost use Rattle.fzn_builtin.specs.Arguments.{number, IsConst};
ghost use Rattle.fzn_builtin.specs.Constraints.{greatest, least, task, cumulative, rows, Builds};

use crate::arg::number;
use crate::copies::copied;
use crate::fault::BuildFault;
use fzn_model::{Con, CumTask, List, Term};
use std::alloc::{AllocError, Global};

/// `m` is the greatest of the terms.
#[tactic(auto, unfolding(crate::specs::Constraints::greatest))]
pub(crate) fn greatest(alloc: Global, m: Term, terms: &[Term]) -> Result<Con, BuildFault>
    ensures { Builds result (greatest m terms.now) }
{
    match terms {
        [] => Err(BuildFault::Lengths),
        [_, ..] => Ok(Con::Greatest(m, copied(alloc, terms)?)),
    }
}

/// `m` is the least of the terms.
#[tactic(auto, unfolding(crate::specs::Constraints::least))]
pub(crate) fn least(alloc: Global, m: Term, terms: &[Term]) -> Result<Con, BuildFault>
    ensures { Builds result (least m terms.now) }
{
    match terms {
        [] => Err(BuildFault::Lengths),
        [_, ..] => Ok(Con::Least(m, copied(alloc, terms)?)),
    }
}

/// The index, from 1, is that of a term with the value of `c`.
pub(crate) fn element(
    alloc: Global,
    index: Term,
    terms: &[Term],
    c: Term,
) -> Result<Con, BuildFault>
    ensures { Builds result (Some (con.Element index terms.now c)) }
{
    let terms = copied(alloc, terms)?;
    Ok(Con::Element(index, terms, c))
}

/// The terms differ in pairs.
pub(crate) fn different(alloc: Global, terms: &[Term]) -> Result<Con, BuildFault>
    ensures { Builds result (Some (con.AllDiffExcept terms.now [])) }
{
    let terms = copied(alloc, terms)?;
    Ok(Con::AllDiffExcept(terms, List::new(alloc)))
}

/// A task for each start, length and use.
fn tasks(
    alloc: Global,
    starts: &[Term],
    lengths: &[Term],
    uses: &[Term],
) -> Result<Vec<CumTask>, AllocError>
    ensures { IfOk result (λ tasks. tasks.items ≡ map task (zip (zip starts.now lengths.now) uses.now)) }
{
    starts
        .iter()
        .zip(lengths)
        .zip(uses)
        .map(|((s, d), r)| CumTask {
            s: *s,
            d: *d,
            r: *r,
        })
        .collect(alloc)
}

/// Tasks share a capacity.
#[tactic(auto, unfolding(crate::specs::Constraints::cumulative))]
pub(crate) fn cumulative(
    alloc: Global,
    starts: &[Term],
    lengths: &[Term],
    uses: &[Term],
    capacity: Term,
) -> Result<Con, BuildFault>
    ensures { Builds result (cumulative starts.now lengths.now uses.now capacity) }
{
    if starts.len() != lengths.len() || starts.len() != uses.len() {
        return Err(BuildFault::Lengths);
    }
    let tasks = tasks(alloc, starts, lengths, uses)?;
    Ok(Con::CumulUsed(List::from_vec(tasks), List::new(alloc), capacity))
}

/// The numbers of constants.
fn numbers(alloc: Global, constants: &[Term]) -> Result<Vec<i64>, AllocError>
    requires { All IsConst constants.now }
    ensures { IfOk result (λ numbers. numbers.items ≡ map number constants.now) }
{
    constants
        .iter()
        .map(|constant| number(*constant))
        .collect(alloc)
}

/// The terms are one of the rows, which stand one after the other.
#[tactic(auto, unfolding(crate::specs::Constraints::rows))]
pub(crate) fn rows(alloc: Global, terms: &[Term], constants: &[Term]) -> Result<Con, BuildFault>
    requires { All IsConst constants.now }
    ensures { Builds result (rows terms.now constants.now) }
{
    match terms {
        [] => return Err(BuildFault::Lengths),
        [_, ..] => {}
    }
    if constants.len() % terms.len() != 0 {
        return Err(BuildFault::Lengths);
    }
    let terms = copied(alloc, terms)?;
    let numbers = numbers(alloc, constants)?;
    Ok(Con::Table(terms, List::from_vec(numbers)))
}
