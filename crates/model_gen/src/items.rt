//! The items of a knapsack, drawn from a number.

ghost use Rattle.std.specs.Prelude.{◌≡◌, ◌+◌, ◌/◌, ◌%◌, ◌^◌, IfOk, map};
ghost use Rattle.model_gen.specs.Made.{next, draws, items};

use crate::generator::Generator;
use std::alloc::{AllocError, Global};

/// How many items there are.
pub(crate) const ITEMS: u32 = 32;

/// The weights and the values of the items, each by its place.
#[derive(Debug, Drop)]
pub(crate) struct Items {
    pub(crate) weights: Vec<u32>,
    pub(crate) values: Vec<u32>,
}

/// What an item weighs, of 1 to 16.
fn draw_weight(generator: &mut Generator) -> u32
    ensures stepped { generator.new.state ≡ next generator.old.state }
    ensures weight { result ≡ 1 + next generator.old.state / 2 ^ 33 % 16 }
{
    1 + (generator.draw() % 16) as u32
}

/// What an item is worth, of 1 to 24.
fn draw_value(generator: &mut Generator) -> u32
    ensures stepped { generator.new.state ≡ next generator.old.state }
    ensures value { result ≡ 1 + next generator.old.state / 2 ^ 33 % 24 }
{
    1 + (generator.draw() % 24) as u32
}

/// All items, each by its weight and then its value.
pub(crate) fn draw_items(alloc: Global, start: u64) -> Result<Items, AllocError>
    ensures weights { IfOk result (λ drawn. drawn.weights.items ≡ map (λ i. i.0) (items (draws 64 start))) }
    ensures values { IfOk result (λ drawn. drawn.values.items ≡ map (λ i. i.1) (items (draws 64 start))) }
{
    let mut generator = Generator { state: start };
    let mut weights = Vec::new(alloc);
    let mut values = Vec::new(alloc);
    for _ in 0..ITEMS {
        weights.push(draw_weight(&mut generator))?;
        values.push(draw_value(&mut generator))?;
    }
    Ok(Items { weights, values })
}
