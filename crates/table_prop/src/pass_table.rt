//! A whole pass.
ghost use Rattle.std.specs.Prelude.{IfOk};
ghost use Rattle.fzn_model.specs.declared.con.Con.TheVariants as con;
ghost use Rattle.fzn_model.specs.Booleans.{FitsBox};
ghost use Rattle.dom_store.specs.Narrowing.{Prunes};
ghost use Rattle.dom_store.specs.Passes.{Concludes};
ghost use Rattle.fzn_model.specs.Meaning.{Holds};

use crate::columns::narrow_columns;
use crate::rows::find_rows;
use dom_store::{Passed, Store, recall_domains};
use fzn_model::Term;
use std::alloc::AllocError;

/// One pass over a table: keeps the values of each column that the rows have which are possible at its start. These
/// rows and their entries in a column are put in the two lists.
pub(crate) fn pass_table(
    store: &mut Store,
    columns: &[Term],
    rows: &[i64],
    found: &mut Vec<usize>,
    entries: &mut Vec<i64>,
) -> Result<Passed, AllocError>
    requires { FitsBox store.old.box (con.Table columns.now rows.now) }
    ensures prunes { Prunes (Holds (con.Table columns.now rows.now)) store.old store.new }
    ensures means { IfOk result (Concludes (con.Table columns.now rows.now) store.old.box store.new.box) }
{
    recall_domains(store);
    find_rows(store, columns, rows, found)?;
    narrow_columns(store, columns, rows, found.as_slice(), entries)
}
