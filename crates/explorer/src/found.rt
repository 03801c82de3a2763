ghost use Rattle.std.specs.Prelude.{◌≡◌, List, ℤ, length, pos, IfOk, IfSome, IfNone, None, Some};
ghost use Rattle.explorer.specs.Offers.{with_cheaper, HasValues};

use fzn_model::List;
use std::alloc::{AllocError, Global};
use std::marker::Model;

/// The cheapest solution that a worker has found. Contracts see it as `Kept` (`specs/Offers.antt`).
#[derive(Drop)]
pub struct Found {
    some: bool,
    cost: i64,
    values: Vec<i64>,
}

impl Model for Found {
    ghost use Rattle.std.specs.Prelude.{length, Some, None, if◌then◌else◌};
    ghost use Rattle.explorer.specs.Offers.{Kept};

    ghost Value = { Kept };

    ghost view = { λ f. record { count = length f.values.items; best = if f.some then Some (f.values.items, f.cost) else None } };
}

/// So many zeros.
fn zeros(alloc: Global, count: u32) -> Result<Vec<i64>, AllocError>
    ensures { IfOk result (λ values. length values.items ≡ count) }
{
    let mut values = Vec::with_capacity(alloc, count as usize)?;
    for _ in 0..count {
        values.push(0)?;
    }
    Ok(values)
}

impl Found {
    /// None so far, of a model with that many variables. Takes memory for their values.
    pub fn new(alloc: Global, variables: u32) -> Result<Found, AllocError>
        ensures { IfOk result (λ found. found ≡ record { count = variables; best = None }) }
    {
        Ok(Found {
            some: false,
            cost: 0,
            values: zeros(alloc, variables)?,
        })
    }

    /// The values of the solution, in the order of the variables; `None` where none was found.
    pub fn values(&self) -> Option<&[i64]>
        ensures some { IfSome result (λ values. HasValues self.now values.now) }
        ensures none { IfNone result (self.now.best ≡ None) }
    {
        if self.some {
            Some(self.values.as_slice())
        } else {
            None
        }
    }

    /// What the solution costs; 0 where none was found.
    pub fn cost(&self) -> i64
        ensures some { (best : List ℤ × ℤ) → self.now.best ≡ Some best → result ≡ best.1 }
        ensures none { self.now.best ≡ None → result ≡ pos 0 }
    {
        if self.some { self.cost } else { 0 }
    }

    /// The values of the solution; `None` where none was found.
    pub fn into_values(self) -> Option<List<i64>>
        ensures some { IfSome result (λ values. HasValues self values) }
        ensures none { IfNone result (self.best ≡ None) }
    {
        if self.some {
            Some(List::from_vec(self.values))
        } else {
            None
        }
    }

    /// Keeps a solution, where it is the first one or cheaper than the one that is kept. Takes no memory.
    pub(crate) fn keep(&mut self, values: &[i64], cost: &i64)
        requires { length values.now ≡ self.old.count }
        ensures { self.new ≡ record self.old { best = with_cheaper self.old.best (values.now, cost.now) } }
    {
        if self.some && self.cost <= *cost {
            return;
        }
        self.some = true;
        self.cost = *cost;
        self.values.as_mut_slice().copy_from_slice(values);
    }
}
