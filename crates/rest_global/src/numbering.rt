//! The variables of the rest of a box, and the number that each variable of the box has among them.

ghost use Rattle.std.specs.Prelude.{◌≡◌, ◌+◌, ◌<◌, ◌++◌, ◌∷◌, [], if◌then◌else◌, IfOk, OnOk, length};
ghost use Rattle.fzn_model.specs.declared.term.Term.TheVariants as term;
ghost use Rattle.fzn_model.specs.Boxes.{IsBox};
ghost use Rattle.fzn_model.specs.Bounds.{is_open};
ghost use Rattle.rest_global.specs.Projection.{rest_variables};
ghost use Rattle.rest_global.specs.Making.{ArePlaces, AreNumbered};

use fzn_model::BoxView;
use std::alloc::{AllocError, Global};

/// The open variables of a box in order, and for each variable how many open ones stand before it.
#[derive(Drop)]
pub(crate) struct Numbering {
    pub(crate) variables: Vec<u32>,
    pub(crate) places: Vec<u32>,
}

/// Whether a variable has several values.
fn is_open_at<V: BoxView>(var: u32, view: &V) -> bool
    requires { var < length (V.shape view.now) }
    ensures value { result ≡ is_open (V.shape view.now) (term.Var var) }
    ensures well_formed { IsBox (V.shape view.now) }
{
    view.low(var) < view.high(var)
}

/// Adds the next variable where it has several values.
fn add_open<V: BoxView>(variables: &mut Vec<u32>, var: u32, view: &V) -> Result<(), AllocError>
    requires { var < length (V.shape view.now) }
    ensures variables { OnOk result (variables.new.items ≡ (if is_open (V.shape view.now) (term.Var var) then variables.old.items ++ var ∷ [] else variables.old.items)) }
    ensures well_formed { OnOk result (IsBox (V.shape view.now)) }
{
    if is_open_at(var, view) {
        variables.push(var)?;
    }
    Ok(())
}

/// Adds the place of the next variable, and the variable where it has several values.
#[tactic(auto, using(crate::proofs::Places::numbered_more))]
fn add<V: BoxView>(
    variables: &mut Vec<u32>,
    places: &mut Vec<u32>,
    var: u32,
    view: &V,
) -> Result<(), AllocError>
    requires var { var < length (V.shape view.now) }
    requires before { AreNumbered (V.shape view.now) var variables.old.items places.old.items }
    ensures { OnOk result (AreNumbered (V.shape view.now) (var + 1) variables.new.items places.new.items) }
{
    places.push(variables.len() as u32)?;
    add_open(variables, var, view)?;
    Ok(())
}

/// The open variables and the places of all.
#[tactic(auto, using(crate::proofs::Places::numbered_none, crate::proofs::Places::all_variables, crate::proofs::Places::all_places, crate::proofs::Places::all_sound))]
pub(crate) fn numbering_of<V: BoxView>(
    alloc: Global,
    count: u32,
    view: &V,
) -> Result<Numbering, AllocError>
    requires { count ≡ length (V.shape view.now) }
    ensures variables { IfOk result (λ n. n.variables.items ≡ rest_variables (V.shape view.now)) }
    ensures places { IfOk result (λ n. ArePlaces (V.shape view.now) (length (V.shape view.now)) n.places.items) }
    ensures well_formed { OnOk result (IsBox (V.shape view.now)) }
{
    let mut variables = Vec::new(alloc);
    let mut places = Vec::with_capacity(alloc, count as usize)?;
    for var in 0..count {
        add(&mut variables, &mut places, var, view)?;
    }
    Ok(Numbering { variables, places })
}
