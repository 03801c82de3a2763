ghost use Rattle.std.specs.Prelude.{[], Some};
ghost use Rattle.fzn_builtin.specs.Constraints.{clause, member, all_true, any_true, Builds};

use crate::copies::copied;
use crate::fault::BuildFault;
use fzn_model::{Base, Clause, Con, List, Member, Runs, Term};
use std::alloc::Global;

/// Some positive literal is true, or some negative one false.
#[tactic(auto, unfolding(crate::specs::Constraints::clause))]
pub(crate) fn clause(alloc: Global, pos: &[Term], neg: &[Term]) -> Result<Base, BuildFault>
    ensures { Builds result (Some (clause pos.now neg.now)) }
{
    let pos = copied(alloc, pos)?;
    let neg = copied(alloc, neg)?;
    Ok(Base::Clause(Clause { pos, neg }))
}

/// `truth` is true exactly where all literals are.
pub(crate) fn all_true(alloc: Global, literals: &[Term], truth: Term) -> Result<Con, BuildFault>
    ensures { Builds result (Some (all_true literals.now truth)) }
{
    let base = clause(alloc, &[], literals)?;
    Ok(Con::Reif(base, truth, false))
}

/// `truth` is true exactly where some literal is.
pub(crate) fn any_true(alloc: Global, literals: &[Term], truth: Term) -> Result<Con, BuildFault>
    ensures { Builds result (Some (any_true literals.now truth)) }
{
    let base = clause(alloc, literals, &[])?;
    Ok(Con::Reif(base, truth, true))
}

/// The term is in the set.
#[tactic(auto, unfolding(crate::specs::Constraints::member))]
pub(crate) fn member(alloc: Global, x: Term, set: &Runs) -> Result<Base, BuildFault>
    ensures { Builds result (Some (member x set.now)) }
{
    let runs = List::from_vec(Vec::from_slice(alloc, set.runs.as_slice())?);
    Ok(Base::Member(Member {
        x,
        set: Runs { runs },
    }))
}
