//! The rows whose entries are all in the domains of their columns.
ghost use Rattle.std.specs.Prelude.{◌≡◌, ◌↔◌, ◌<◌, ◌/◌, ◌++◌, ◌∷◌, [], length, All, IsTrue, OnOk};
ghost use Rattle.fzn_model.specs.Limits.{TermIn};
ghost use Rattle.dom_store.specs.Strength.{entry};
ghost use Rattle.table_prop.specs.Rows.{IsReady, CanHaveRow, ArePossible, AreEntries, IsNumber};

use dom_store::{Store, can_have};
use fzn_model::Term;
use std::alloc::AllocError;

/// Whether each column can have its entry of a row.
#[tactic(auto, unfolding(crate::specs::Rows::CanHaveRow))]
fn can_have_row(store: &Store, columns: &[Term], row: &[i64]) -> bool
    requires columns { All (TermIn (length store.now.box)) columns.now }
    requires row { length row.now ≡ length columns.now }
    ensures { IsTrue result ↔ CanHaveRow store.now.box columns.now row.now }
{
    columns
        .iter()
        .zip(row)
        .all(|(term, value)| can_have(store, *term, *value))
}

/// Puts the numbers of the rows whose entries their columns can all have in a list, rising.
pub(crate) fn find_rows(
    store: &Store,
    columns: &[Term],
    rows: &[i64],
    found: &mut Vec<usize>,
) -> Result<(), AllocError>
    requires { IsReady store.now.box columns.now }
    ensures { OnOk result (ArePossible store.now.box columns.now rows.now (length rows.now / length columns.now) found.new.items) }
{
    let width = columns.len();
    found.clear();
    for row in 0..rows.len() / width {
        let from = row * width;
        if can_have_row(store, columns, &rows[from..from + width]) {
            found.push(row)?;
        }
    }
    Ok(())
}

/// Adds the entry of a row in a column to a list.
fn add_entry(
    entries: &mut Vec<i64>,
    rows: &[i64],
    width: usize,
    row: usize,
    column: usize,
) -> Result<(), AllocError>
    requires row { IsNumber rows.now width row }
    requires column { column < width }
    ensures { OnOk result (entries.new.items ≡ entries.old.items ++ entry rows.now width row column ∷ []) }
{
    entries.push(rows[row * width + column])?;
    Ok(())
}

/// Puts the entries of some rows in a column in a list.
#[tactic(auto, using(crate::proofs::Finding::entries_none))]
pub(crate) fn put_entries(
    entries: &mut Vec<i64>,
    rows: &[i64],
    width: usize,
    found: &[usize],
    column: usize,
) -> Result<(), AllocError>
    requires found { All (IsNumber rows.now width) found.now }
    requires column { column < width }
    ensures { OnOk result (AreEntries rows.now width column found.now entries.new.items) }
{
    entries.clear();
    for row in found {
        add_entry(entries, rows, width, *row, column)?;
    }
    Ok(())
}
