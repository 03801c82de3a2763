ghost use Rattle.std.specs.Prelude.{Some};
ghost use Rattle.fzn_builtin.specs.Constraints.{Builds};

use crate::fault::BuildFault;
use fzn_model::{List, Term};
use std::alloc::Global;

/// A copy of the terms.
pub(crate) fn copied(alloc: Global, terms: &[Term]) -> Result<List<Term>, BuildFault>
    ensures { Builds result (Some terms.now) }
{
    let copy = Vec::from_slice(alloc, terms)?;
    Ok(List::from_vec(copy))
}
