//! The cost of the rest of a box, and the offset.

ghost use Rattle.std.specs.Prelude.{◌≡◌, IfOk, length};
ghost use Rattle.fzn_model.specs.Limits.{GoalInLimits};
ghost use Rattle.rest_global.specs.Projection.{open_part, constant_part, cost_left, cost_offset};
ghost use Rattle.rest_global.specs.Making.{ArePlaces};

use crate::renamed::rest_term;
use fzn_model::{BoxView, Goal, List, Term};
use std::alloc::{AllocError, Global};

/// A coefficient beside a variable; nothing for a constant.
fn open_part(alloc: Global, factor: i64, term: Term) -> Result<List<(i64, u32)>, AllocError>
    ensures { IfOk result (λ part. part ≡ open_part factor term) }
{
    let mut part = List::new(alloc);
    if let Term::Var(var) = term {
        part.push((factor, var))?;
    }
    Ok(part)
}

/// The value of a constant; 0 for a variable.
fn constant_part(term: Term) -> i64
    ensures { result ≡ constant_part term }
{
    match term {
        Term::Const(value) => value,
        Term::Var(_) => 0,
    }
}

/// The cost over the variables of the rest.
pub(crate) fn cost_left<V: BoxView>(
    alloc: Global,
    goal: Goal,
    places: &[u32],
    view: &V,
) -> Result<List<(i64, u32)>, AllocError>
    requires places { ArePlaces (V.shape view.now) (length (V.shape view.now)) places.now }
    requires goal { GoalInLimits (length (V.shape view.now)) goal }
    ensures { IfOk result (λ cost. cost ≡ cost_left (V.shape view.now) goal) }
{
    match goal {
        Goal::Satisfy => Ok(List::new(alloc)),
        Goal::Minimise(term) => open_part(alloc, 1, rest_term(term, places, view)),
        Goal::Maximise(term) => open_part(alloc, -1, rest_term(term, places, view)),
    }
}

/// The part of the cost that is constant in the box.
pub(crate) fn cost_offset<V: BoxView>(goal: Goal, places: &[u32], view: &V) -> i128
    requires places { ArePlaces (V.shape view.now) (length (V.shape view.now)) places.now }
    requires goal { GoalInLimits (length (V.shape view.now)) goal }
    ensures { result ≡ cost_offset (V.shape view.now) goal }
{
    match goal {
        Goal::Satisfy => 0,
        Goal::Minimise(term) => i128::from(constant_part(rest_term(term, places, view))),
        Goal::Maximise(term) => -i128::from(constant_part(rest_term(term, places, view))),
    }
}
