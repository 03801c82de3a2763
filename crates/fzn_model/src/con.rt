ghost use Rattle.std.specs.Prelude.{◌↔◌, IsTrue, length};
ghost use Rattle.fzn_model.specs.Meaning.{Holds};
ghost use Rattle.fzn_model.specs.Limits.{ConInLimits, of_call};

use crate::all_different::all_different_holds;
use crate::arithmetic::{abs_holds, div_holds, mod_holds, times_holds};
use crate::base::{Base, reif_holds};
use crate::cumulative::{CumTask, Used, cumulative_holds};
use crate::element::element_holds;
use crate::extremes::{greatest_holds, least_holds};
use crate::list::List;
use crate::table::table_holds;
use crate::term::Term;

/// A constraint. What each kind means is `Holds` in `specs/Meaning.antt`.
#[derive(Debug, Drop)]
pub enum Con {
    /// A linear relation, a clause, or a member of a set.
    Base(Base),
    /// The base holds exactly where the term is 1 (flag true), or exactly where it is 0 (flag false).
    Reif(Base, Term, bool),
    /// `a * b = c`.
    Times(Term, Term, Term),
    /// `b` is `a` without its sign.
    Abs(Term, Term),
    /// `c` is `a / b` rounded towards zero; false where `b` is 0.
    Div(Term, Term, Term),
    /// `c` is what that division leaves.
    Mod(Term, Term, Term),
    /// The term is the greatest value of the list, which isn't empty.
    Greatest(Term, List<Term>),
    /// The term is the least value of the list, which isn't empty.
    Least(Term, List<Term>),
    /// The index, from 1, is that of a member with the value of the last term.
    Element(Term, List<Term>, Term),
    /// The values differ in pairs, and none is among the taken ones.
    AllDiffExcept(List<Term>, List<i64>),
    /// At each whole moment, what is used and what the tasks use is at most the capacity.
    CumulUsed(List<CumTask>, List<Used>, Term),
    /// The values are one of the rows, which stand one after the other.
    Table(List<Term>, List<i64>),
}

impl Con {
    /// Whether the constraint holds under the assignment. Takes no memory, and no more steps than grow with the
    /// constraint's length, or with its square where values differ in pairs and for cumulative tasks.
    pub fn holds(&self, values: &[i64]) -> bool
        requires { ConInLimits of_call (length values.now) self.now }
        ensures { IsTrue result ↔ Holds self.now values.now }
    {
        match self {
            Con::Base(base) => base.holds(values),
            Con::Reif(base, truth, flag) => reif_holds(base, *truth, *flag, values),
            Con::Times(a, b, c) => times_holds(a.value(values), b.value(values), c.value(values)),
            Con::Abs(a, b) => abs_holds(a.value(values), b.value(values)),
            Con::Div(a, b, c) => div_holds(a.value(values), b.value(values), c.value(values)),
            Con::Mod(a, b, c) => mod_holds(a.value(values), b.value(values), c.value(values)),
            Con::Greatest(m, terms) => greatest_holds(*m, terms.as_slice(), values),
            Con::Least(m, terms) => least_holds(*m, terms.as_slice(), values),
            Con::Element(index, terms, c) => element_holds(*index, terms.as_slice(), *c, values),
            Con::AllDiffExcept(terms, taken) => {
                all_different_holds(terms.as_slice(), taken.as_slice(), values)
            }
            Con::CumulUsed(tasks, used, limit) => {
                cumulative_holds(tasks.as_slice(), used.as_slice(), *limit, values)
            }
            Con::Table(terms, rows) => table_holds(terms.as_slice(), rows.as_slice(), values),
        }
    }
}
