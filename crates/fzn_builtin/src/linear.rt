ghost use Rattle.std.specs.Prelude.{◌≡◌, Some, IfOk, All, map, pos};
ghost use Rattle.std.specs.List.{zip};
ghost use Rattle.fzn_builtin.specs.Arguments.{IsConst};
ghost use Rattle.fzn_builtin.specs.Constraints.{linear, difference, balance, weighed, sum, Builds};

use crate::arg::number;
use crate::fault::BuildFault;
use fzn_model::{Base, Lin, List, Rel, Term};
use std::alloc::{AllocError, Global};

/// `a - b` against `r`.
#[tactic(auto, unfolding(crate::specs::Constraints::linear))]
pub(crate) fn difference(
    alloc: Global,
    rel: Rel,
    a: Term,
    b: Term,
    r: i128,
) -> Result<Base, BuildFault>
    ensures { Builds result (Some (linear rel (difference a b) r)) }
{
    let mut terms = List::new(alloc);
    terms.push((1, a))?;
    terms.push((-1, b))?;
    Ok(Base::Lin(Lin { rel, terms, r }))
}

/// `a + b - c` is 0.
#[tactic(auto, unfolding(crate::specs::Constraints::linear))]
pub(crate) fn balance(alloc: Global, a: Term, b: Term, c: Term) -> Result<Base, BuildFault>
    ensures { Builds result (Some (linear Rel.Eq (balance a b c) (pos 0))) }
{
    let mut terms = List::new(alloc);
    terms.push((1, a))?;
    terms.push((1, b))?;
    terms.push((-1, c))?;
    Ok(Base::Lin(Lin {
        rel: Rel::Eq,
        terms,
        r: 0,
    }))
}

/// Each term with its coefficient.
fn weighed(alloc: Global, factors: &[Term], terms: &[Term]) -> Result<Vec<(i64, Term)>, AllocError>
    requires { All IsConst factors.now }
    ensures { IfOk result (λ parts. parts.items ≡ map weighed (zip factors.now terms.now)) }
{
    factors
        .iter()
        .zip(terms)
        .map(|(factor, term)| (number(*factor), *term))
        .collect(alloc)
}

/// The sum of coefficient times term, against `r`.
#[tactic(auto, unfolding(crate::specs::Constraints::sum, crate::specs::Constraints::linear))]
pub(crate) fn sum(
    alloc: Global,
    rel: Rel,
    factors: &[Term],
    terms: &[Term],
    r: i64,
) -> Result<Base, BuildFault>
    requires { All IsConst factors.now }
    ensures { Builds result (sum rel factors.now terms.now r) }
{
    if factors.len() != terms.len() {
        return Err(BuildFault::Lengths);
    }
    let parts = weighed(alloc, factors, terms)?;
    Ok(Base::Lin(Lin {
        rel,
        terms: List::from_vec(parts),
        r: i128::from(r),
    }))
}
