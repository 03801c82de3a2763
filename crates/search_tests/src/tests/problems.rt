//! Residual problems of which it is known that no solution costs less than a bound.

ghost use Rattle.std.specs.Prelude.{◌≡◌, ◌∷◌, [], ◌≤ℤ◌, ℤ, pos, length, All, IfOk};
ghost use Rattle.fzn_model.specs.Rests.{IsTrueEntry, CostInLimits};
ghost use Rattle.fzn_model.specs.Limits.{DomainInLimits, ConInLimits, ConTruths, of_call};

use fzn_model::{Base, Con, Lin, List, Rel, Rest, Runs, Term};
use std::alloc::{AllocError, Global};

/// The residual problem of one variable in this run, whose value is the cost. No solution costs less than the run's low.
pub(crate) fn least_of(alloc: Global, run: &(i64, i64)) -> Result<Rest, AllocError>
    requires low { pos 0 ≤ℤ run.now.0 }
    requires some { run.now.0 ≤ℤ run.now.1 }
    requires high { run.now.1 ≤ℤ pos 9 }
    ensures { IfOk result (λ rest. IsTrueEntry rest run.now.0) }
{
    let runs = List::from_slice(alloc, &[*run])?;
    let mut doms = List::new(alloc);
    doms.push(Runs { runs })?;
    let cost = List::from_slice(alloc, &[(1, 0)])?;
    Ok(Rest {
        doms,
        cost,
        cons: List::new(alloc),
        labels: List::new(alloc),
    })
}

fn set_of(alloc: Global, run: &(i64, i64)) -> Result<Runs, AllocError>
    requires { run.now.0 ≤ℤ run.now.1 }
    ensures { IfOk result (λ set. set ≡ run.now ∷ []) }
{
    let runs = List::from_slice(alloc, &[*run])?;
    Ok(Runs { runs })
}

fn domains_of(alloc: Global, run: &(i64, i64)) -> Result<List<Runs>, AllocError>
    requires low { pos 0 ≤ℤ run.now.0 }
    requires some { run.now.0 ≤ℤ run.now.1 }
    requires high { run.now.1 ≤ℤ pos 9 }
    ensures domains { IfOk result (λ domains. domains ≡ (run.now ∷ []) ∷ ((pos 0, pos 9) ∷ []) ∷ []) }
    ensures count { IfOk result (λ domains. length domains ≡ 2) }
    ensures limits { IfOk result (λ domains. All DomainInLimits domains) }
{
    let mut domains = List::new(alloc);
    domains.push(set_of(alloc, run)?)?;
    domains.push(set_of(alloc, &(0, 9))?)?;
    Ok(domains)
}

/// The sum of both variables is at most the number.
fn sum_at_most(alloc: Global, most: i64) -> Result<List<Con>, AllocError>
    ensures count { IfOk result (λ cons. length cons ≡ 1) }
    ensures limits { IfOk result (λ cons. All (ConInLimits of_call 2) cons) }
    ensures truths { IfOk result (λ cons. (ds : List (List (ℤ × ℤ))) → All (ConTruths ds) cons) }
{
    let terms = List::from_slice(alloc, &[(1, Term::Var(0)), (1, Term::Var(1))])?;
    let mut cons = List::new(alloc);
    cons.push(Con::Base(Base::Lin(Lin {
        rel: Rel::Le,
        terms,
        r: i128::from(most),
    })))?;
    Ok(cons)
}

fn cost_of_first(alloc: Global) -> Result<List<(i64, u32)>, AllocError>
    ensures cost { IfOk result (λ cost. cost ≡ (pos 1, 0) ∷ []) }
    ensures limits { IfOk result (λ cost. CostInLimits 2 cost) }
{
    List::from_slice(alloc, &[(1, 0)])
}

/// The residual problem. No solution costs less than the run's low.
pub(crate) fn rest_of(alloc: Global, run: &(i64, i64), most: i64) -> Result<Rest, AllocError>
    requires low { pos 0 ≤ℤ run.now.0 }
    requires some { run.now.0 ≤ℤ run.now.1 }
    requires high { run.now.1 ≤ℤ pos 9 }
    ensures { IfOk result (λ rest. (bound : ℤ) → bound ≤ℤ run.now.0 → IsTrueEntry rest bound) }
{
    let doms = domains_of(alloc, run)?;
    let cost = cost_of_first(alloc)?;
    let cons = sum_at_most(alloc, most)?;
    let labels = List::from_slice(alloc, &[0])?;
    Ok(Rest {
        doms,
        cost,
        cons,
        labels,
    })
}
