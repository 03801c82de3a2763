//! The rest of a box, as far as a limit allows.

ghost use Rattle.std.specs.Prelude.{◌≡◌, ◌+◌, ◌*◌, ◌^◌, ◌<◌, ◌≤◌, ◌≤ℤ◌, ℤ, All, IfOk, length};
ghost use Rattle.fzn_model.specs.Solutions.{top};
ghost use Rattle.fzn_model.specs.Boxes.{IsBox};
ghost use Rattle.fzn_model.specs.Rests.{IsRest, LiesWithin};
ghost use Rattle.rest_key.specs.Counts.{IsNarrow, domains_count};
ghost use Rattle.rest_global.specs.Projection.{rest_variables};
ghost use Rattle.rest_global.specs.declared.projected.Projected.TheVariants as projected;
ghost use Rattle.rest_global.specs.Projected.{IsProjected, MeansRest};
ghost use Rattle.rest_global.specs.Making.{ArePlaces};

use crate::cost::{cost_left, cost_offset};
use crate::domains::domains_of;
use crate::labelled::{Labelled, left_of};
use crate::numbering::numbering_of;
use crate::projected::Projected;
use crate::wide::Wide;
use fzn_model::{BoxView, List, Model, Rest, Runs};
use rest_key::domains_count;
use std::alloc::{AllocError, Global};

/// The residual problem of these parts.
fn of_parts(doms: List<Runs>, cost: List<(i64, u32)>, left: Labelled) -> Rest
    requires { IsRest (record { doms = doms; cost = cost; cons = left.cons; labels = left.labels }) }
    ensures { result ≡ record { doms = doms; cost = cost; cons = left.cons; labels = left.labels } }
{
    Rest {
        doms,
        cost,
        cons: left.cons,
        labels: left.labels,
    }
}

/// How many words the domains, the cost and the number of constraints are.
fn words_before(doms: &[Runs], cost: &[(i64, u32)]) -> u64
    requires few { length doms.now ≤ 100000 }
    requires narrow { All IsNarrow doms.now }
    requires short { length cost.now ≤ 2000000 }
    ensures value { result ≡ 3 + domains_count doms.now + 2 * length cost.now }
    ensures small { result ≤ 2 ^ 60 }
{
    3 + domains_count(doms) + 2 * cost.len() as u64
}

/// The rest of these parts where it has at most as many words as the limit.
fn within_limit(
    doms: List<Runs>,
    cost: List<(i64, u32)>,
    left: Labelled,
    offset: &i128,
    limit: u32,
) -> Projected
    requires { left.words ≤ limit → IsRest (record { doms = doms; cost = cost; cons = left.cons; labels = left.labels }) }
    ensures whole { left.words ≤ limit → result ≡ projected.Whole (record { doms = doms; cost = cost; cons = left.cons; labels = left.labels }) offset.now }
    ensures wide { limit < left.words → result ≡ projected.Wide (record { words = left.words; limit = limit }) }
{
    if left.words <= u64::from(limit) {
        return Projected::Whole(of_parts(doms, cost, left), *offset);
    }
    Projected::Wide(Wide::new(left.words, limit))
}

/// The rest over these open variables, and its offset, as far as the limit allows.
#[tactic(auto, using(crate::proofs::ModelOverBox::model_goal, crate::proofs::RestKept::variables_inside))]
fn rest_over<V: BoxView>(
    alloc: Global,
    model: &Model,
    variables: &[u32],
    places: &[u32],
    view: &V,
    limit: u32,
) -> Result<Projected, AllocError>
    requires well_formed { IsBox (V.shape view.now) }
    requires within { LiesWithin (V.shape view.now) model.now }
    requires variables { variables.now ≡ rest_variables (V.shape view.now) }
    requires places { ArePlaces (V.shape view.now) (length (V.shape view.now)) places.now }
    ensures { IfOk result (λ answer. (below : ℤ) → IsProjected (V.shape view.now) model.now below limit answer) }
{
    let doms = domains_of(alloc, variables, view)?;
    let cost = cost_left(alloc, model.goal, places, view)?;
    let offset = cost_offset(model.goal, places, view);
    let words = words_before(doms.as_slice(), cost.as_slice());
    let left = left_of(alloc, model.cons.as_slice(), words, limit, places, view)?;
    let answer = within_limit(doms, cost, left, &offset, limit);
    Ok(answer)
}

/// What is left of a model in a box: the residual problem over the variables that are open there, with its offset, which
/// lies in -2^100..2^100. It is a rest of what lies in the box: on the solutions that cost less than the bound `below` it
/// agrees with the model, and costs differ by the offset. Where it has more words than `limit`, the answer is how many. The
/// one error is that memory runs out.
///
/// It goes once over the domains and over the constraints, and takes memory for what is left. Constraints that are left
/// beyond the limit are counted, and not kept.
pub fn project<V: BoxView>(
    alloc: Global,
    model: &Model,
    view: &V,
    below: i64,
    limit: u32,
) -> Result<Projected, AllocError>
    requires below { below ≤ℤ top model.now }
    requires within { LiesWithin (V.shape view.now) model.now }
    ensures exact { IfOk result (λ answer. IsProjected (V.shape view.now) model.now below limit answer) }
    ensures means { IfOk result (λ answer. MeansRest (V.shape view.now) model.now below answer) }
{
    let numbering = numbering_of(alloc, model.doms.as_slice().len() as u32, view)?;
    let answer = rest_over(
        alloc,
        model,
        numbering.variables.as_slice(),
        numbering.places.as_slice(),
        view,
        limit,
    )?;
    Ok(answer)
}
