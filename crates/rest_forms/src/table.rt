//! Rows of a table.

ghost use Rattle.std.specs.Prelude.{◌≡◌, ◌<◌, ◌*◌, ◌≤◌, ◌/◌, not, if◌then◌else◌, IfOk, OnOk, All, length};
ghost use Rattle.std.specs.Ordering.{int_cmp};
ghost use Rattle.std.specs.Cmp.Lexicographic.{slice_cmp};
ghost use Rattle.std.specs.BTreeSet.{insert_key};
ghost use Rattle.std.specs.List.{flat_map};
ghost use Rattle.fzn_model.specs.declared.con.Con.TheVariants as con;
ghost use Rattle.fzn_model.specs.Limits.{TermIn, RowsInLimits};
ghost use Rattle.rest_basic.specs.Forms.{term_values, open_terms, empty_clause};
ghost use Rattle.rest_basic.specs.declared.reduced.Reduced.TheVariants as reduced;
ghost use Rattle.rest_forms.specs.Rows.{AreRowsOver};
ghost use Rattle.rest_forms.specs.Forms.{is_possible, open_entries, rows_left, is_full, are_some, table_form};

use crate::table_row::TableRow;
use crate::values::{push, term_has};
use fzn_model::{BoxView, Con, List, Term};
use rest_basic::{Reduced, empty_clause, is_open_in, low_of, open_terms_in};
use std::alloc::{AllocError, Global};
use std::collections::BTreeSet;

/// Whether each entry of a row is a value of its column.
#[tactic(auto, using(crate::proofs::RowsLeft::possible_all))]
fn is_possible<V: BoxView>(xs: &[Term], row: &[i64], view: &V) -> bool
    requires xs { All (TermIn (length (V.shape view.now))) xs.now }
    requires row { length row.now ≡ length xs.now }
    ensures { result ≡ is_possible (V.shape view.now) xs.now row.now }
{
    for (at, x) in xs.iter().enumerate() {
        if !term_has(*x, &row[at], view) {
            return false;
        }
    }
    true
}

/// The entries of the open columns.
#[tactic(auto, using(crate::proofs::RowsLeft::entries_all))]
fn open_entries<V: BoxView>(
    alloc: Global,
    xs: &[Term],
    row: &[i64],
    view: &V,
) -> Result<Vec<i64>, AllocError>
    requires xs { All (TermIn (length (V.shape view.now))) xs.now }
    requires row { length row.now ≡ length xs.now }
    ensures { IfOk result (λ entries. entries.items ≡ open_entries (V.shape view.now) xs.now row.now) }
{
    let mut entries = Vec::with_capacity(alloc, xs.len())?;
    for (at, x) in xs.iter().enumerate() {
        if is_open_in(*x, view) {
            push(&mut entries, &row[at])?;
        }
    }
    Ok(entries)
}

/// Adds what is left of a row, where it is possible.
fn add_row<V: BoxView>(
    alloc: Global,
    rows: &mut BTreeSet<TableRow<i64>>,
    xs: &[Term],
    row: &[i64],
    view: &V,
) -> Result<(), AllocError>
    requires xs { All (TermIn (length (V.shape view.now))) xs.now }
    requires row { length row.now ≡ length xs.now }
    ensures { OnOk result (rows.new.keys ≡ (if is_possible (V.shape view.now) xs.now row.now then insert_key (slice_cmp int_cmp) rows.old.keys (open_entries (V.shape view.now) xs.now row.now) else rows.old.keys)) }
{
    if is_possible(xs, row, view) {
        let left = TableRow::from_vec(open_entries(alloc, xs, row, view)?);
        let _new = rows.insert(left)?;
    }
    Ok(())
}

/// What is left of the rows that are possible, rising, each once.
#[tactic(auto, using(crate::proofs::RowsLeft::rows_none))]
fn rows_left<V: BoxView>(
    alloc: Global,
    xs: &[Term],
    rows: &[i64],
    view: &V,
) -> Result<BTreeSet<TableRow<i64>>, AllocError>
    requires { RowsInLimits (length (V.shape view.now)) xs.now rows.now }
    ensures { IfOk result (λ left. left.keys ≡ rows_left (V.shape view.now) xs.now rows.now) }
{
    let mut left = BTreeSet::new(alloc);
    let width = xs.len();
    for k in 0..rows.len() / width {
        let from = k * width;
        add_row(alloc, &mut left, xs, &rows[from..from + width], view)?;
    }
    Ok(left)
}

/// How many values the term has.
#[tactic(auto, unfolding(rest_basic::specs::Forms::term_values))]
fn count_of<V: BoxView>(x: Term, view: &V) -> u64
    requires { TermIn (length (V.shape view.now)) x }
    ensures { result ≡ length (term_values (V.shape view.now) x) }
{
    match x {
        Term::Const(_) => 1,
        Term::Var(var) => view.size(var),
    }
}

/// Whether each value of the one open column has a row, or no column is open.
fn is_full<V: BoxView>(members: &[Term], rows: &BTreeSet<TableRow<i64>>, view: &V) -> bool
    requires members { All (TermIn (length (V.shape view.now))) members.now }
    requires rows { AreRowsOver (V.shape view.now) members.now rows.now.keys }
    ensures { result ≡ is_full (V.shape view.now) members.now rows.now.keys }
{
    match members {
        [] => true,
        [x] => {
            let _low = low_of(*x, view);
            rows.len() as u64 == count_of(*x, view)
        }
        _ => false,
    }
}

/// Whether there are rows.
#[tactic(auto, using(crate::proofs::FullTables::some_rows))]
fn are_some(rows: &BTreeSet<TableRow<i64>>) -> bool
    ensures { result ≡ are_some rows.now.keys }
{
    !rows.is_empty()
}

/// The entries of the rows, one row after the other.
fn flat(alloc: Global, rows: &BTreeSet<TableRow<i64>>) -> Result<Vec<i64>, AllocError>
    ensures { IfOk result (λ entries. entries.items ≡ flat_map (λ row. row) rows.now.keys) }
{
    let mut entries = Vec::new(alloc);
    for row in rows {
        entries.extend_from_slice(row.entries())?;
    }
    Ok(entries)
}

/// What is left, of the open columns and the rows that are left.
fn form_left<V: BoxView>(
    alloc: Global,
    members: List<Term>,
    rows: &BTreeSet<TableRow<i64>>,
    view: &V,
) -> Result<Reduced, AllocError>
    requires members { All (TermIn (length (V.shape view.now))) members }
    requires rows { AreRowsOver (V.shape view.now) members rows.now.keys }
    ensures { IfOk result (λ left. left ≡ (if not (are_some rows.now.keys) then reduced.Is empty_clause else (if is_full (V.shape view.now) members rows.now.keys then reduced.Holds else reduced.Is (con.Table members (flat_map (λ row. row) rows.now.keys))))) }
{
    if !are_some(rows) {
        return Ok(Reduced::Is(empty_clause(alloc)));
    }
    if is_full(members.as_slice(), rows, view) {
        return Ok(Reduced::Holds);
    }
    let entries = flat(alloc, rows)?;
    Ok(Reduced::Is(Con::Table(members, List::from_vec(entries))))
}

/// The form of a table.
#[tactic(auto, using(rest_basic::proofs::Substituting::open_in), unfolding(crate::specs::Forms::table_form))]
pub(crate) fn form_of_table<V: BoxView>(
    alloc: Global,
    xs: &[Term],
    rows: &[i64],
    view: &V,
) -> Result<Reduced, AllocError>
    requires { RowsInLimits (length (V.shape view.now)) xs.now rows.now }
    ensures { IfOk result (λ left. left ≡ table_form (V.shape view.now) xs.now rows.now) }
{
    let members = open_terms_in(alloc, xs, view)?;
    let left = rows_left(alloc, xs, rows, view)?;
    form_left(alloc, members, &left, view)
}
