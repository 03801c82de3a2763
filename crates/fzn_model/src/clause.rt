ghost use Rattle.std.specs.Prelude.{◌≡◌, ◌↔◌, ◌⊎◌, IsTrue, IfOk, length, pos};
ghost use Rattle.fzn_model.specs.Meaning.{val, HasValue};
ghost use Rattle.fzn_model.specs.Limits.{TermsIn, ClauseInLimits};

use crate::list::List;
use crate::term::Term;
use std::alloc::{AllocError, Global};

/// A disjunction: some positive literal is 1, or some negative one is 0.
#[derive(Debug, Drop)]
pub struct Clause {
    pub pos: List<Term>,
    pub neg: List<Term>,
}

/// Whether some term has the value.
#[tactic(auto, unfolding(crate::specs::Meaning::HasValue))]
pub(crate) fn has_value(terms: &[Term], value: i64, values: &[i64]) -> bool
    requires { TermsIn (length values.now) terms.now }
    ensures { IsTrue result ↔ HasValue terms.now value values.now }
{
    terms.iter().any(|term| term.value(values) == value)
}

impl Clause {
    /// Whether the clause holds under the assignment.
    pub fn holds(&self, values: &[i64]) -> bool
        requires { ClauseInLimits (length values.now) self.now }
        ensures { IsTrue result ↔ (HasValue self.now.pos (pos 1) values.now ⊎ HasValue self.now.neg (pos 0) values.now) }
    {
        has_value(self.pos.as_slice(), 1, values) || has_value(self.neg.as_slice(), 0, values)
    }

    /// The same clause.
    pub fn copy(&self, alloc: Global) -> Result<Clause, AllocError>
        ensures { IfOk result (λ copy. copy ≡ self.now) }
    {
        Ok(Clause {
            pos: self.pos.copy(alloc)?,
            neg: self.neg.copy(alloc)?,
        })
    }
}
