ghost use Rattle.std.specs.Prelude.{◌≡◌, ◌↔◌, IsTrue, IfOk, length};
ghost use Rattle.fzn_model.specs.Meaning.{val, bit, HoldsBase};
ghost use Rattle.fzn_model.specs.Limits.{TermIn, BaseInLimits, of_call};

use crate::clause::Clause;
use crate::lin::Lin;
use crate::member::Member;
use crate::term::Term;
use std::alloc::{AllocError, Global};

/// A constraint that can be reified.
#[derive(Debug, Drop)]
pub enum Base {
    Lin(Lin),
    Clause(Clause),
    Member(Member),
}

impl Base {
    /// Whether the constraint holds under the assignment.
    pub fn holds(&self, values: &[i64]) -> bool
        requires { BaseInLimits of_call (length values.now) self.now }
        ensures { IsTrue result ↔ HoldsBase self.now values.now }
    {
        match self {
            Base::Lin(lin) => lin.holds(values),
            Base::Clause(clause) => clause.holds(values),
            Base::Member(member) => member.holds(values),
        }
    }

    /// The same constraint.
    pub fn copy(&self, alloc: Global) -> Result<Base, AllocError>
        ensures { IfOk result (λ copy. copy ≡ self.now) }
    {
        let copy = match self {
            Base::Lin(lin) => Base::Lin(lin.copy(alloc)?),
            Base::Clause(clause) => Base::Clause(clause.copy(alloc)?),
            Base::Member(member) => Base::Member(member.copy(alloc)?),
        };
        Ok(copy)
    }
}

/// Whether the base holds exactly where the term has the value of the flag.
pub(crate) fn reif_holds(base: &Base, truth: Term, flag: bool, values: &[i64]) -> bool
    requires base { BaseInLimits of_call (length values.now) base.now }
    requires truth { TermIn (length values.now) truth }
    ensures { IsTrue result ↔ (HoldsBase base.now values.now ↔ (val truth values.now ≡ bit flag)) }
{
    base.holds(values) == (truth.value(values) == i64::from(flag))
}
