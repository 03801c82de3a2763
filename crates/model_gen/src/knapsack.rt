//! The model of a knapsack.

ghost use Rattle.std.specs.Prelude.{◌≡◌, ◌≤◌, ◌++◌, ◌∷◌, [], All, IfOk, length, pos, replicate};
ghost use Rattle.model_gen.specs.Made.{knapsack};

use crate::items::ITEMS;
use crate::sums::{total, weight_limit, worth_of_taken};
use fzn_model::{Con, Goal, List, Model, Runs, Term};
use std::alloc::{AllocError, Global};

/// The numbers from 0 to the high one.
fn up_to(alloc: Global, high: u32) -> Result<Runs, AllocError>
    ensures { IfOk result (λ domain. domain ≡ (pos 0, pos high) ∷ []) }
{
    let runs = List::from_slice(alloc, &[(0, i64::from(high))])?;
    Ok(Runs { runs })
}

/// 0 and 1 for each item, and the numbers up to the worth of all of them.
fn domains_for(alloc: Global, worth: u32) -> Result<Vec<Runs>, AllocError>
    ensures { IfOk result (λ domains. domains.items ≡ replicate 32 ((pos 0, pos 1) ∷ []) ++ ((pos 0, pos worth) ∷ []) ∷ []) }
{
    let mut domains = Vec::new(alloc);
    for _ in 0..ITEMS {
        domains.push(up_to(alloc, 1)?)?;
    }
    domains.push(up_to(alloc, worth)?)?;
    Ok(domains)
}

/// The two constraints, in order.
fn both(alloc: Global, first: Con, second: Con) -> Result<Vec<Con>, AllocError>
    ensures { IfOk result (λ constraints. constraints.items ≡ first ∷ second ∷ []) }
{
    let mut constraints = Vec::new(alloc);
    constraints.push(first)?;
    constraints.push(second)?;
    Ok(constraints)
}

/// The model of items with these weights and values.
#[tactic(auto, unfolding(crate::specs::Made::knapsack))]
pub(crate) fn knapsack_of(
    alloc: Global,
    weights: &[u32],
    values: &[u32],
) -> Result<Model, AllocError>
    requires weights_count { length weights.now ≡ 32 }
    requires weights_small { All (λ n. n ≤ 24) weights.now }
    requires values_count { length values.now ≡ 32 }
    requires values_small { All (λ n. n ≤ 24) values.now }
    ensures { IfOk result (λ m. m ≡ knapsack weights.now values.now) }
{
    let domains = domains_for(alloc, total(values))?;
    let limit = weight_limit(alloc, weights)?;
    let worth = worth_of_taken(alloc, values)?;
    let constraints = both(alloc, limit, worth)?;
    Ok(Model {
        doms: List::from_vec(domains),
        cons: List::from_vec(constraints),
        goal: Goal::Maximise(Term::Var(ITEMS)),
        outs: List::new(alloc),
        order: List::new(alloc),
    })
}
