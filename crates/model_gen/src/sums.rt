//! The sums over the items of a knapsack.

ghost use Rattle.std.specs.Prelude.{◌≡◌, ◌≤◌, ◌<◌, ◌/◌, ◌^◌, ◌++◌, ◌∷◌, [], All, IfOk, length, negsuc, pos, sum};
ghost use Rattle.fzn_model.specs.declared.base.Base.TheVariants as base;
ghost use Rattle.fzn_model.specs.declared.con.Con.TheVariants as con;
ghost use Rattle.fzn_model.specs.declared.lin.Rel.TheVariants as rel;
ghost use Rattle.fzn_model.specs.declared.term.Term.TheVariants as term;
ghost use Rattle.model_gen.specs.Made.{terms_from};

use crate::items::ITEMS;
use fzn_model::{Base, Con, Lin, List, Rel, Term};
use std::alloc::{AllocError, Global};

/// The sum of the numbers.
pub(crate) fn total(numbers: &[u32]) -> u32
    requires { sum numbers.now < 2 ^ 32 }
    ensures { result ≡ sum numbers.now }
{
    numbers.iter().sum()
}

/// The numbers as coefficients of the variables from 0 on.
#[tactic(auto, unfolding(crate::specs::Made::terms_from))]
fn terms_of(alloc: Global, numbers: &[u32]) -> Result<Vec<(i64, Term)>, AllocError>
    requires { length numbers.now < 2 ^ 32 }
    ensures { IfOk result (λ terms. terms.items ≡ terms_from 0 numbers.now) }
{
    let mut terms = Vec::new(alloc);
    for number in numbers {
        let var = terms.len() as u32;
        terms.push((i64::from(*number), Term::Var(var)))?;
    }
    Ok(terms)
}

/// The taken items weigh at most a third of what all items weigh.
pub(crate) fn weight_limit(alloc: Global, weights: &[u32]) -> Result<Con, AllocError>
    requires count { length weights.now < 2 ^ 32 }
    requires small { sum weights.now < 2 ^ 32 }
    ensures { IfOk result (λ limit. limit ≡ con.Base (base.Lin (record { rel = rel.Le; terms = terms_from 0 weights.now; r = pos (sum weights.now / 3) }))) }
{
    let limit = Lin {
        rel: Rel::Le,
        terms: List::from_vec(terms_of(alloc, weights)?),
        r: i128::from(total(weights) / 3),
    };
    Ok(Con::Base(Base::Lin(limit)))
}

/// The variable behind those of the items is what the taken items are worth.
pub(crate) fn worth_of_taken(alloc: Global, values: &[u32]) -> Result<Con, AllocError>
    requires { length values.now < 2 ^ 32 }
    ensures { IfOk result (λ worth. worth ≡ con.Base (base.Lin (record { rel = rel.Eq; terms = terms_from 0 values.now ++ (negsuc 0, term.Var 32) ∷ []; r = pos 0 }))) }
{
    let mut terms = terms_of(alloc, values)?;
    terms.push((-1, Term::Var(ITEMS)))?;
    let worth = Lin {
        rel: Rel::Eq,
        terms: List::from_vec(terms),
        r: 0,
    };
    Ok(Con::Base(Base::Lin(worth)))
}
