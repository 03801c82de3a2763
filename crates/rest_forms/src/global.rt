ghost use Rattle.std.specs.Prelude.{IfOk};
ghost use Rattle.fzn_model.specs.Booleans.{FitsBox};
ghost use Rattle.rest_forms.specs.Forms.{IsGlobal, IsGlobalForm};

use crate::all_different::form_of_all_different;
use crate::cumulative::form_of_cumulative;
use crate::element::form_of_element;
use crate::extremes::{Extreme, form_of_extreme};
use crate::table::form_of_table;
use fzn_model::{BoxView, Con};
use rest_basic::Reduced;
use std::alloc::{AllocError, Global};

/// What is left in a box of a constraint over lists (the greatest or the least of a list, an element of a list, values that
/// differ, cumulative tasks, a table): fixed variables are their values, and what the domains decide is left out. The one
/// error is that memory runs out.
pub fn reduce_global<V: BoxView>(alloc: Global, con: &Con, view: &V) -> Result<Reduced, AllocError>
    requires kind { IsGlobal con.now }
    requires fits_box { FitsBox (V.shape view.now) con.now }
    ensures form { IfOk result (λ left. IsGlobalForm (V.shape view.now) con.now left) }
{
    match con {
        Con::Greatest(m, xs) => form_of_extreme(alloc, Extreme::Greatest, *m, xs.as_slice(), view),
        Con::Least(m, xs) => form_of_extreme(alloc, Extreme::Least, *m, xs.as_slice(), view),
        Con::Element(i, xs, c) => form_of_element(alloc, *i, xs.as_slice(), *c, view),
        Con::AllDiffExcept(xs, taken) => {
            form_of_all_different(alloc, xs.as_slice(), taken.as_slice(), view)
        }
        Con::CumulUsed(tasks, used, limit) => {
            form_of_cumulative(alloc, tasks.as_slice(), used.as_slice(), *limit, view)
        }
        Con::Table(xs, rows) => form_of_table(alloc, xs.as_slice(), rows.as_slice(), view),
        _ => unreachable!(),
    }
}
