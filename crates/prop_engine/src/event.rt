//! What a propagator has to hear of its variables, and what happened to a variable.
ghost use Rattle.std.specs.Prelude.{◌≡◌, ◌+◌, ◌<◌, ◌≤◌, length, IsTrue};
ghost use Rattle.fzn_model.specs.declared.term.Term.TheVariants.{Var};
ghost use Rattle.fzn_model.specs.Boxes.{domain_at};
ghost use Rattle.fzn_model.specs.Bounds.{IsFixed};
ghost use Rattle.dom_store.specs.Stores.{box_size};
ghost use Rattle.prop_engine.specs.Events.{relation_event, base_event, con_event, IsMinor};

use dom_store::Store;
use fzn_model::{Base, BoxView, Con, Rel};

/// What a propagator hears of a variable that it reads.
#[derive(Clone, Copy, Debug, PartialEq, Eq)]
pub(crate) enum Event {
    /// Any change of its domain.
    Changed,
    /// That it is fixed, and a change of a domain that had more than 1,024 values.
    Fixed,
}

/// What the propagator of a linear relation hears of.
fn event_of_relation(relation: Rel) -> Event
    ensures { result ≡ relation_event relation }
{
    match relation {
        Rel::Le => Event::Changed,
        Rel::Eq => Event::Changed,
        Rel::Ne => Event::Fixed,
    }
}

/// What the propagator of a base hears of.
fn event_of_base(base: &Base) -> Event
    ensures { result ≡ base_event base.now }
{
    match base {
        Base::Lin(lin) => event_of_relation(lin.rel),
        Base::Clause(_) => Event::Changed,
        Base::Member(_) => Event::Changed,
    }
}

/// What the propagator of a constraint hears of.
pub(crate) fn event_of(con: &Con) -> Event
    ensures { result ≡ con_event con.now }
{
    match con {
        Con::Base(base) => event_of_base(base),
        Con::Reif(..) => Event::Changed,
        Con::Times(..) => Event::Changed,
        Con::Abs(..) => Event::Changed,
        Con::Div(..) => Event::Fixed,
        Con::Mod(..) => Event::Fixed,
        Con::Greatest(..) => Event::Changed,
        Con::Least(..) => Event::Changed,
        Con::Element(..) => Event::Changed,
        Con::AllDiffExcept(..) => Event::Changed,
        Con::CumulUsed(..) => Event::Changed,
        Con::Table(..) => Event::Changed,
    }
}

/// A domain of more values may have a hull of more than 1,024 numbers.
const FEW_VALUES: u64 = 1024;

/// Whether a variable is open.
fn is_open(store: &Store, var: u32) -> bool
    requires { var < length store.now.box }
    ensures { IsTrue result → IsFixed store.now.box (Var var) → ⊥ }
{
    store.low(var) != store.high(var)
}

/// Whether a variable had at most 1,024 values when all domains together had so many.
fn had_few(store: &Store, var: u32, before: u64) -> bool
    requires { var < length store.now.box }
    ensures { IsTrue result → length (domain_at store.now.box var) + before ≤ 1024 + box_size store.now.box }
{
    let lost = before.saturating_sub(store.total());
    let size = store.size(var);
    lost <= FEW_VALUES && size <= FEW_VALUES - lost
}

/// Whether the change of a variable is one that a propagator need not hear of which hears of fixed variables alone. All
/// domains together had `before` values when that propagator's constraint had its strength.
pub(crate) fn is_minor(store: &Store, var: u32, before: u64) -> bool
    ensures { IsTrue result → IsMinor before store.now.box var }
{
    (var as usize) < store.count() && is_open(store, var) && had_few(store, var, before)
}
