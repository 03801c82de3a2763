//! The propagators of a reified base: its own, and those of its sides.
ghost use Rattle.std.specs.Prelude.{◌≡◌, IfOk};
ghost use Rattle.fzn_model.specs.Booleans.{FitsBox};
ghost use Rattle.dom_store.specs.Narrowing.{Prunes};
ghost use Rattle.prop_engine.specs.Plans.{CanHold};
ghost use Rattle.prop_engine.specs.Fixing.{PartsMean, WholeMeans};
ghost use Rattle.prop_engine.specs.Reified.{IsReified, Belongs};
ghost use Rattle.fzn_model.specs.Meaning.{Holds};

use crate::sides::{Sides, run_side, side_of};
use dom_store::{Propagator, Ran, Store};
use fzn_model::{Con, Term};
use reif_prop::ReifProp;
use std::alloc::{AllocError, Global};
use std::marker::Model;

/// The propagators of a reified base, which contracts see as their constraint.
#[derive(Drop)]
pub(crate) struct Reified {
    own: ReifProp,
    term: Term,
    flag: bool,
    sides: Sides,
}

impl Model for Reified {
    ghost use Rattle.fzn_model.specs.declared.con.Con.{Con};
    ghost use Rattle.prop_engine.specs.Reified.{Belongs};

    ghost Value = { Con };

    ghost view = { λ p. p.own };

    ghost invariant = { λ p. Belongs p.own p.term p.flag p.sides };
}

/// Runs the propagator of a reified base, and then what its term's side asks for.
#[tactic(auto, using(crate::proofs::Reifying::term_after, crate::proofs::Reifying::sides_settle))]
fn run_parts(
    own: &mut ReifProp,
    sides: &mut Sides,
    term: Term,
    flag: bool,
    store: &mut Store,
) -> Result<Ran, AllocError>
    requires belongs { Belongs own.old term flag sides.old }
    requires fits_box { FitsBox store.old.box own.old }
    requires can_hold { CanHold own.old }
    ensures own { own.new ≡ own.old }
    ensures sides { sides.new ≡ sides.old }
    ensures prunes { Prunes (Holds own.old) store.old store.new }
    ensures means { IfOk result (PartsMean own.old store.old.box store.new.box) }
{
    match own.run(store)? {
        Ran::Kept => {}
        Ran::Empty => return Ok(Ran::Empty),
        Ran::EarlyStop => return Ok(Ran::EarlyStop),
    }
    let side = side_of(store, term, flag);
    run_side(sides, side, store)
}

/// Runs the parts of a reified base until nothing goes.
#[tactic(auto, using(dom_store::proofs::Laws::fits_pruned, dom_store::proofs::Laws::prunes_refl, dom_store::proofs::Laws::prunes_trans, crate::proofs::Reifying::parts_none, crate::proofs::Reifying::parts_far, crate::proofs::Reifying::parts_kept, crate::proofs::Reifying::parts_less))]
fn run_on(
    own: &mut ReifProp,
    sides: &mut Sides,
    term: Term,
    flag: bool,
    store: &mut Store,
) -> Result<Ran, AllocError>
    requires belongs { Belongs own.old term flag sides.old }
    requires fits_box { FitsBox store.old.box own.old }
    requires can_hold { CanHold own.old }
    ensures own { own.new ≡ own.old }
    ensures sides { sides.new ≡ sides.old }
    ensures prunes { Prunes (Holds own.old) store.old store.new }
    ensures means { IfOk result (WholeMeans own.old store.old.box store.new.box) }
{
    loop {
        let before = store.total();
        match run_parts(own, sides, term, flag, store)? {
            Ran::Kept => {}
            Ran::Empty => return Ok(Ran::Empty),
            Ran::EarlyStop => return Ok(Ran::EarlyStop),
        }
        if store.total() == before {
            return Ok(Ran::Kept);
        }
    }
}

impl Reified {
    /// The propagators of a reified base.
    pub(crate) fn new(alloc: Global, con: &Con) -> Result<Reified, AllocError>
        requires reified { IsReified con.now }
        requires can_hold { CanHold con.now }
        ensures { IfOk result (λ p. p ≡ con.now) }
    {
        let Con::Reif(base, term, flag) = con else {
            unreachable!()
        };
        Ok(Reified {
            own: ReifProp::new(alloc, con)?,
            term: *term,
            flag: *flag,
            sides: Sides::new(alloc, base)?,
        })
    }

    /// Narrows for the constraint.
    pub(crate) fn run(&mut self, store: &mut Store) -> Result<Ran, AllocError>
        requires fits_box { FitsBox store.old.box self.old }
        requires can_hold { CanHold self.old }
        ensures same { self.new ≡ self.old }
        ensures prunes { Prunes (Holds self.old) store.old store.new }
        ensures means { IfOk result (WholeMeans self.old store.old.box store.new.box) }
    {
        run_on(&mut self.own, &mut self.sides, self.term, self.flag, store)
    }
}
