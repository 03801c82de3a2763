//! What is left of the constraints of a model in a box, labelled by their places in the model.

ghost use Rattle.std.specs.Prelude.{◌≡◌, ◌≤◌, ◌^◌, ◌++◌, ◌∷◌, [], IfOk, OnOk, IsTrue, IsFalse, All, length};
ghost use Rattle.fzn_model.specs.Limits.{ConInLimits, of_call};
ghost use Rattle.fzn_model.specs.Boxes.{IsBox};
ghost use Rattle.fzn_model.specs.Booleans.{FitsBox};
ghost use Rattle.rest_basic.specs.Equivalence.{IsPlain};
ghost use Rattle.rest_forms.specs.Forms.{IsGlobal};
ghost use Rattle.rest_global.specs.Projection.{rest_term, IsForm};
ghost use Rattle.rest_global.specs.Renamed.{con_by};
ghost use Rattle.rest_global.specs.Making.{ArePlaces, IsOver, IsCounted, IsAdded, AreCounted};

use crate::renamed::rest_con;
use fzn_model::{BoxView, Con, List};
use rest_basic::{Reduced, reduce_plain};
use rest_forms::reduce_global;
use rest_key::con_count;
use std::alloc::{AllocError, Global};

/// What is left of constraints, and for each the place of its constraint in the model; and how many words a residual
/// problem has with them. Beyond a limit there may be more words than those of the constraints that are here.
#[derive(Drop)]
pub(crate) struct Labelled {
    pub(crate) cons: List<Con>,
    pub(crate) labels: List<u32>,
    pub(crate) words: u64,
}

/// Whether the constraint is a base, a reified base, or arithmetic.
fn is_plain(con: &Con) -> bool
    ensures plain { IsTrue result → IsPlain con.now }
    ensures global { IsFalse result → IsGlobal con.now }
{
    match con {
        Con::Base(_) | Con::Reif(_, _, _) => true,
        Con::Times(_, _, _) | Con::Abs(_, _) | Con::Div(_, _, _) | Con::Mod(_, _, _) => true,
        Con::Greatest(_, _) | Con::Least(_, _) | Con::Element(_, _, _) => false,
        Con::AllDiffExcept(_, _) | Con::CumulUsed(_, _, _) | Con::Table(_, _) => false,
    }
}

/// What is left of a constraint of any kind.
#[tactic(auto, using(crate::proofs::ConstraintsLeft::plain_is, crate::proofs::ConstraintsLeft::global_is))]
fn form_of_con<V: BoxView>(alloc: Global, con: &Con, view: &V) -> Result<Reduced, AllocError>
    requires { FitsBox (V.shape view.now) con.now }
    ensures { IfOk result (λ form. IsForm (V.shape view.now) con.now form) }
{
    if is_plain(con) {
        reduce_plain(alloc, con, view)
    } else {
        reduce_global(alloc, con, view)
    }
}

/// Adds a constraint over the variables of the rest, and its label.
fn keep<V: BoxView>(
    alloc: Global,
    left: &mut Labelled,
    form: Con,
    label: u32,
    places: &[u32],
    view: &V,
) -> Result<(), AllocError>
    requires places { ArePlaces (V.shape view.now) (length (V.shape view.now)) places.now }
    requires kept { ConInLimits of_call (length (V.shape view.now)) form }
    ensures cons { OnOk result (left.new.cons ≡ left.old.cons ++ con_by (rest_term (V.shape view.now)) form ∷ []) }
    ensures labels { OnOk result (left.new.labels ≡ left.old.labels ++ label ∷ []) }
    ensures words { OnOk result (left.new.words ≡ left.old.words) }
{
    left.cons.push(rest_con(alloc, form, places, view)?)?;
    left.labels.push(label)?;
    Ok(())
}

/// Counts a form, and adds it with its label where there are at most as many words as the limit.
#[tactic(auto, using(rest_key::proofs::WordCounts::con_short))]
fn add_form<V: BoxView>(
    alloc: Global,
    left: &mut Labelled,
    form: Con,
    label: u32,
    limit: u32,
    places: &[u32],
    view: &V,
) -> Result<(), AllocError>
    requires places { ArePlaces (V.shape view.now) (length (V.shape view.now)) places.now }
    requires kept { ConInLimits of_call (length (V.shape view.now)) form }
    requires room { left.old.words ≤ 2 ^ 62 }
    ensures { OnOk result (IsCounted (V.shape view.now) form label limit left.old left.new) }
{
    left.words += 1 + con_count(&form);
    if left.words <= u64::from(limit) {
        keep(alloc, left, form, label, places, view)?;
    }
    Ok(())
}

/// Adds what is left of a constraint, and its label, unless it holds.
#[tactic(auto, using(crate::proofs::ConstraintsLeft::form_kept, crate::proofs::ConstraintsLeft::added, crate::proofs::ConstraintsLeft::passed))]
fn add<V: BoxView>(
    alloc: Global,
    left: &mut Labelled,
    con: &Con,
    label: u32,
    limit: u32,
    places: &[u32],
    view: &V,
) -> Result<(), AllocError>
    requires well_formed { IsBox (V.shape view.now) }
    requires places { ArePlaces (V.shape view.now) (length (V.shape view.now)) places.now }
    requires con { IsOver (V.shape view.now) con.now }
    requires room { left.old.words ≤ 2 ^ 62 }
    ensures { OnOk result (IsAdded (V.shape view.now) con.now label limit left.old left.new) }
{
    match form_of_con(alloc, con, view)? {
        Reduced::Holds => {}
        Reduced::Is(form) => {
            add_form(alloc, left, form, label, limit, places, view)?;
        }
    }
    Ok(())
}

/// What is left of each constraint in order, over the variables of the rest, labelled by its place, and its words, added to
/// those of the other parts of a rest. Beyond the limit nothing more is kept, and the words are counted on.
#[tactic(auto, using(crate::proofs::ConstraintsLeft::left_none, crate::proofs::ConstraintsLeft::left_more, crate::proofs::ConstraintsLeft::left_all))]
pub(crate) fn left_of<V: BoxView>(
    alloc: Global,
    all: &[Con],
    words: u64,
    limit: u32,
    places: &[u32],
    view: &V,
) -> Result<Labelled, AllocError>
    requires well_formed { IsBox (V.shape view.now) }
    requires places { ArePlaces (V.shape view.now) (length (V.shape view.now)) places.now }
    requires over { All (IsOver (V.shape view.now)) all.now }
    requires few { length all.now ≤ 400000 }
    requires room { words ≤ 2 ^ 60 }
    ensures { IfOk result (λ left. AreCounted (V.shape view.now) all.now words limit left) }
{
    let mut left = Labelled {
        cons: List::new(alloc),
        labels: List::new(alloc),
        words,
    };
    for (at, con) in all.iter().enumerate() {
        add(alloc, &mut left, con, at as u32, limit, places, view)?;
    }
    Ok(left)
}
