ghost use Rattle.std.specs.Prelude.{◌≡◌, IfOk};
ghost use Rattle.reif_prop.specs.Kinds.{IsReified};

use crate::pass_reified::pass_reified;
use dom_store::{Pass, Passed, Propagator, Ran, Store, pass_on};
use fzn_model::{Base, Con, Term};
use std::alloc::{AllocError, Global};
use std::marker::Model;

/// A propagator for a base that holds exactly where a term has a value, which contracts see as its constraint.
#[derive(Drop)]
pub struct ReifProp {
    base: Base,
    term: Term,
    flag: bool,
}

impl Model for ReifProp {
    ghost use Rattle.fzn_model.specs.declared.con.Con.{Con};
    ghost use Rattle.fzn_model.specs.declared.con.Con.TheVariants as con;

    ghost Value = { Con };

    ghost view = { λ p. con.Reif p.base p.term p.flag };
}

impl ReifProp {
    /// The propagator for a reified base, `Con::Reif(..)`.
    pub fn new(alloc: Global, con: &Con) -> Result<ReifProp, AllocError>
        requires { IsReified con.now }
        ensures { IfOk result (λ p. p ≡ con.now) }
    {
        let Con::Reif(base, term, flag) = con else {
            unreachable!()
        };
        Ok(ReifProp {
            base: base.copy(alloc)?,
            term: *term,
            flag: *flag,
        })
    }
}

impl Pass for ReifProp {
    ghost subject = { λ c. c };

    fn pass(&mut self, store: &mut Store) -> Result<Passed, AllocError> {
        Ok(pass_reified(store, &self.base, self.term, self.flag))
    }
}

impl Propagator for ReifProp {
    ghost constraint = { λ c. c };

    fn run(&mut self, store: &mut Store) -> Result<Ran, AllocError> {
        pass_on(self, store)
    }
}
