//! The columns, and the entries of the possible rows in them.
ghost use Rattle.std.specs.Prelude.{◌<◌, ◌≤◌, length, IsTrue, IfOk};
ghost use Rattle.fzn_model.specs.declared.con.Con.TheVariants as con;
ghost use Rattle.dom_store.specs.Narrowing.{Prunes};
ghost use Rattle.dom_store.specs.Steps.{Step};
ghost use Rattle.table_prop.specs.Rows.{IsReady, IsSettled, AreChosen, IsSupported, AreSupported};
ghost use Rattle.fzn_model.specs.Meaning.{Holds};

use crate::among::keep_listed;
use crate::rows::put_entries;
use dom_store::{Passed, Store, greatest, least};
use fzn_model::Term;
use std::alloc::AllocError;

/// Whether a column has one value, and some row is found.
fn is_settled(store: &Store, columns: &[Term], found: &[usize], column: usize) -> bool
    requires ready { IsReady store.now.box columns.now }
    requires column { column < length columns.now }
    ensures { IsTrue result → IsSettled store.now.box columns.now found.now column }
{
    !found.is_empty() && least(store, columns[column]) == greatest(store, columns[column])
}

/// Keeps the values of a column that some of the rows found have.
fn narrow_column(
    store: &mut Store,
    columns: &[Term],
    rows: &[i64],
    found: &[usize],
    column: usize,
    entries: &mut Vec<i64>,
    marks: &mut [bool],
) -> Result<Passed, AllocError>
    requires ready { IsReady store.old.box columns.now }
    requires chosen { AreChosen store.old.box columns.now rows.now found.now }
    requires column { column < length columns.now }
    requires room { 1024 ≤ length marks.old }
    ensures prunes { Prunes (Holds (con.Table columns.now rows.now)) store.old store.new }
    ensures steps { IfOk result (Step (IsSupported columns.now rows.now found.now column) (Holds (con.Table columns.now rows.now)) store.old store.new) }
{
    if is_settled(store, columns, found, column) {
        return Ok(Passed::Done);
    }
    put_entries(entries, rows, columns.len(), found, column)?;
    Ok(keep_listed(store, columns[column], entries.as_slice(), marks))
}

/// Keeps the values of each column that some of the rows found have. The entries of a column are put in the list.
pub(crate) fn narrow_columns(
    store: &mut Store,
    columns: &[Term],
    rows: &[i64],
    found: &[usize],
    entries: &mut Vec<i64>,
) -> Result<Passed, AllocError>
    requires ready { IsReady store.old.box columns.now }
    requires chosen { AreChosen store.old.box columns.now rows.now found.now }
    ensures prunes { Prunes (Holds (con.Table columns.now rows.now)) store.old store.new }
    ensures steps { IfOk result (Step (AreSupported columns.now rows.now found.now (length columns.now)) (Holds (con.Table columns.now rows.now)) store.old store.new) }
{
    let mut marks = [false; 1024];
    for column in 0..columns.len() {
        match narrow_column(store, columns, rows, found, column, entries, &mut marks)? {
            Passed::Empty => return Ok(Passed::Empty),
            Passed::Done => {}
        }
    }
    Ok(Passed::Done)
}
