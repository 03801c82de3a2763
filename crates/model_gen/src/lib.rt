//! A large valid model, made from a number.
//!
//! What it is for: models to measure and to try the solver on, of one shape and as many as there are numbers. The model is
//! a knapsack whose items are drawn from the number, so nothing has to be kept in a file.
//!
//! What contracts see: the model as the record of its parts.
//!
//! What it promises: [`make`] gives exactly the model of `made` in `specs/Made.antt`, which is within the limits, as each
//! `Model` is.
//!
//! What it stands on: fzn_model.
#![tactic(auto)]

// The numbers of a model.
mod generator;
mod items;

// The model over these numbers.
mod knapsack;
mod sums;
#[cfg(test)]
mod tests;

ghost use Rattle.std.specs.Prelude.{◌≡◌, IfOk};
ghost use Rattle.model_gen.specs.Made.{made};

use crate::items::draw_items;
use crate::knapsack::knapsack_of;
use fzn_model::Model;
use std::alloc::{AllocError, Global};

/// The model made from a number, a knapsack of 32 items. Variables 0 to 31 say whether each item is taken, and variable 32
/// is what all taken ones are worth, which is to be as great as can be; the taken ones weigh at most a third of what all
/// items weigh. So there are 33 variables. The same number makes the same model. An error is want of memory.
#[tactic(auto, unfolding(crate::specs::Made::made))]
pub fn make(alloc: Global, start: u64) -> Result<Model, AllocError>
    ensures { IfOk result (λ m. m ≡ made start) }
{
    let drawn = draw_items(alloc, start)?;
    knapsack_of(alloc, drawn.weights.as_slice(), drawn.values.as_slice())
}
