//! Which propagators are dear: those of which a run takes many steps.
ghost use Rattle.std.specs.Prelude.{◌≡◌, ◌≤◌, false, length, replicate, IfOk};

use fzn_model::{Base, Con};
use mark_set::RankedSet;
use std::alloc::{AllocError, Global};

/// A linear relation of more terms is dear.
const FEW_TERMS: usize = 16;

/// Whether the propagator of a base is dear.
fn is_dear_base(base: &Base) -> bool {
    match base {
        Base::Lin(lin) => lin.terms.as_slice().len() > FEW_TERMS,
        Base::Clause(_) => false,
        Base::Member(_) => false,
    }
}

/// Whether the propagator of a constraint is dear.
fn is_dear(con: &Con) -> bool {
    match con {
        Con::Base(base) => is_dear_base(base),
        Con::Reif(base, ..) => is_dear_base(base),
        Con::Times(..) => false,
        Con::Abs(..) => false,
        Con::Div(..) => false,
        Con::Mod(..) => false,
        Con::Greatest(..) => false,
        Con::Least(..) => false,
        Con::Element(..) => false,
        Con::AllDiffExcept(..) => true,
        Con::CumulUsed(..) => true,
        Con::Table(..) => true,
    }
}

/// For each constraint whether its propagator is dear.
fn ranks_of(alloc: Global, cons: &[Con]) -> Result<Vec<bool>, AllocError>
    ensures { IfOk result (λ ranks. length ranks.items ≡ length cons.now) }
{
    cons.iter().map(|con| is_dear(con)).collect(alloc)
}

/// A queue for the propagators of constraints, in which none waits.
pub(crate) fn queue_of(alloc: Global, cons: &[Con]) -> Result<RankedSet, AllocError>
    requires { length cons.now ≤ 4000000000 }
    ensures { IfOk result (λ queue. queue ≡ replicate (length cons.now) false) }
{
    RankedSet::new(alloc, ranks_of(alloc, cons)?)
}
