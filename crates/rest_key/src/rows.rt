ghost use Rattle.std.specs.Prelude.{◌↔◌, ◌<◌, ◌≡◌, IsTrue, length};
ghost use Rattle.rest_key.specs.Weaker.{IsOneRow, RowsWithin};

use crate::same::same_row;

/// Whether one of the rows is the given one.
#[tactic(auto, unfolding(crate::specs::Weaker::IsOneRow))]
fn has_row(width: usize, rows: &[i64], row: &[i64]) -> bool
    requires { 0 < width }
    ensures { IsTrue result ↔ IsOneRow width rows.now row.now }
{
    for k in 0..rows.len() / width {
        let from = k * width;
        if same_row(&rows[from..from + width], row) {
            return true;
        }
    }
    false
}

/// Whether one of the rows is the given one; where it is, `next` becomes a place to look for the next one from.
#[tactic(auto, unfolding(crate::specs::Weaker::IsOneRow))]
fn is_row_among(width: usize, rows: &[i64], row: &[i64], next: &mut usize) -> bool
    requires { 0 < width }
    ensures { IsTrue result ↔ IsOneRow width rows.now row.now }
{
    for k in *next..rows.len() / width {
        let from = k * width;
        if same_row(&rows[from..from + width], row) {
            *next = k + 1;
            return true;
        }
    }
    has_row(width, rows, row)
}

/// Whether each of the first rows is one of the second, which all stand one after the other. A step for each
/// row where they stand in the same order; else as many as there are pairs, at most.
#[tactic(auto, unfolding(crate::specs::Weaker::RowsWithin))]
pub(crate) fn are_rows_within(width: usize, rows: &[i64], others: &[i64]) -> bool
    requires { 0 < width }
    ensures { IsTrue result ↔ RowsWithin width rows.now others.now }
{
    let mut next = 0;
    for k in 0..rows.len() / width {
        let from = k * width;
        if !is_row_among(width, others, &rows[from..from + width], &mut next) {
            return false;
        }
    }
    true
}
