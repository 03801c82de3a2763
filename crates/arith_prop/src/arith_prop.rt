ghost use Rattle.std.specs.Prelude.{◌≡◌, IfOk, length};
ghost use Rattle.fzn_model.specs.Limits.{ConInLimits, of_call};
ghost use Rattle.arith_prop.specs.Kinds.{IsArithmetic};
ghost use Rattle.arith_prop.specs.Parts.{con_of};
ghost use Rattle.arith_prop.specs.Passes.{IsPass};

use crate::abs::pass_abs;
use crate::division::{Part, pass_division};
use crate::extremes::pass_extreme;
use crate::times::pass_times;
use dom_store::{Extreme, Pass, Passed, Propagator, Ran, Store, pass_on};
use fzn_model::{Con, List, Term};
use std::alloc::{AllocError, Global};
use std::marker::Model;

/// The kinds of constraint that the propagator is for.
#[derive(Drop)]
pub(crate) enum Kind {
    Times(Term, Term, Term),
    Abs(Term, Term),
    Division(Part, Term, Term, Term),
    Extreme(Extreme, Term, List<Term>),
}

/// The propagator of an arithmetic constraint.
#[derive(Drop)]
pub struct ArithProp {
    kind: Kind,
}

impl Model for ArithProp {
    ghost use Rattle.fzn_model.specs.declared.con.Con.{Con};
    ghost use Rattle.arith_prop.specs.Parts.{con_of};

    ghost Value = { Con };

    ghost view = { λ p. con_of p.kind };
}

impl ArithProp {
    /// The propagator of an arithmetic constraint.
    pub fn new(alloc: Global, con: &Con) -> Result<ArithProp, AllocError>
        requires { IsArithmetic con.now }
        ensures { IfOk result (λ p. p ≡ con.now) }
    {
        let kind = match con {
            Con::Times(a, b, c) => Kind::Times(*a, *b, *c),
            Con::Abs(a, b) => Kind::Abs(*a, *b),
            Con::Div(a, b, c) => Kind::Division(Part::Quotient, *a, *b, *c),
            Con::Mod(a, b, c) => Kind::Division(Part::Remainder, *a, *b, *c),
            Con::Greatest(m, terms) => Kind::Extreme(Extreme::Greatest, *m, terms.copy(alloc)?),
            Con::Least(m, terms) => Kind::Extreme(Extreme::Least, *m, terms.copy(alloc)?),
            _ => unreachable!(),
        };
        Ok(ArithProp { kind })
    }
}

/// One pass over a constraint of each kind.
#[tactic(auto, using(crate::proofs::Choosing::result_in, crate::proofs::Choosing::members_in, crate::proofs::Dividing::terms_in))]
fn pass_kind(store: &mut Store, kind: &Kind) -> Passed
    requires { ConInLimits of_call (length store.old.box) (con_of kind.now) }
    ensures { IsPass (con_of kind.now) store.old store.new result }
{
    match kind {
        Kind::Times(a, b, c) => pass_times(store, *a, *b, *c),
        Kind::Abs(a, b) => pass_abs(store, *a, *b),
        Kind::Division(part, a, b, c) => pass_division(store, *part, *a, *b, *c),
        Kind::Extreme(extreme, m, terms) => pass_extreme(store, *extreme, *m, terms.as_slice()),
    }
}

impl Pass for ArithProp {
    ghost subject = { λ c. c };

    fn pass(&mut self, store: &mut Store) -> Result<Passed, AllocError> {
        Ok(pass_kind(store, &self.kind))
    }
}

impl Propagator for ArithProp {
    ghost constraint = { λ c. c };

    fn run(&mut self, store: &mut Store) -> Result<Ran, AllocError> {
        pass_on(self, store)
    }
}
