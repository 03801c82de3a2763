ghost use Rattle.std.specs.Prelude.{◌≡◌, ◌↔◌, ◌<◌, IsTrue, length};
ghost use Rattle.fzn_model.specs.Meaning.{IsRow, HasRow};
ghost use Rattle.fzn_model.specs.Limits.{TermsIn, ListInLimits};

use crate::term::Term;

#[tactic(auto, unfolding(crate::specs::Meaning::IsRow))]
fn row_is(terms: &[Term], row: &[i64], values: &[i64]) -> bool
    requires terms { TermsIn (length values.now) terms.now }
    requires row { length row.now ≡ length terms.now }
    ensures { IsTrue result ↔ IsRow terms.now row.now values.now }
{
    terms
        .iter()
        .zip(row)
        .all(|(term, value)| term.value(values) == *value)
}

/// Whether the values of the terms are one of the rows, which stand one after the other.
#[tactic(auto, unfolding(crate::specs::Meaning::HasRow))]
pub(crate) fn table_holds(terms: &[Term], rows: &[i64], values: &[i64]) -> bool
    requires { ListInLimits (length values.now) terms.now }
    ensures { IsTrue result ↔ HasRow terms.now rows.now values.now }
{
    let width = terms.len();
    for k in 0..rows.len() / width {
        let from = k * width;
        if row_is(terms, &rows[from..from + width], values) {
            return true;
        }
    }
    false
}
