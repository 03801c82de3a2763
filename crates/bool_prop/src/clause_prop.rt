ghost use Rattle.std.specs.Prelude.{◌≡◌, IfOk};
ghost use Rattle.fzn_model.specs.Booleans.{FitsBox};
ghost use Rattle.bool_prop.specs.Kinds.{IsClausal};
ghost use Rattle.bool_prop.specs.Parts.{con_of};
ghost use Rattle.dom_store.specs.Steps.{Step};
ghost use Rattle.dom_store.specs.Strength.{ConIsOwed};
ghost use Rattle.fzn_model.specs.Meaning.{Holds};

use crate::clause::pass_clause;
use crate::member::pass_member;
use dom_store::{Pass, Passed, Propagator, Ran, Store, pass_on};
use fzn_model::{Base, Clause, Con, Member};
use std::alloc::{AllocError, Global};
use std::marker::Model;

/// The kinds of constraint that the propagator is for.
#[derive(Drop)]
pub(crate) enum Kind {
    Clause(Clause),
    Member(Member),
}

/// The propagator of a clause, or of a term that lies in a constant set.
#[derive(Drop)]
pub struct ClauseProp {
    kind: Kind,
}

impl Model for ClauseProp {
    ghost use Rattle.fzn_model.specs.declared.con.Con.{Con};
    ghost use Rattle.bool_prop.specs.Parts.{con_of};

    ghost Value = { Con };

    ghost view = { λ p. con_of p.kind };
}

/// One pass over the constraint.
fn pass_kind(kind: &Kind, store: &mut Store) -> Passed
    requires { FitsBox store.old.box (con_of kind.now) }
    ensures { Step (ConIsOwed (con_of kind.now)) (Holds (con_of kind.now)) store.old store.new result }
{
    match kind {
        Kind::Clause(clause) => pass_clause(store, clause.pos.as_slice(), clause.neg.as_slice()),
        Kind::Member(member) => {
            let _runs = &member.set.runs;
            pass_member(store, member.x, &member.set)
        }
    }
}

impl ClauseProp {
    /// The propagator of a clause, or of a term that lies in a constant set.
    pub fn new(alloc: Global, con: &Con) -> Result<ClauseProp, AllocError>
        requires { IsClausal con.now }
        ensures { IfOk result (λ p. p ≡ con.now) }
    {
        let kind = match con {
            Con::Base(Base::Clause(clause)) => Kind::Clause(clause.copy(alloc)?),
            Con::Base(Base::Member(member)) => Kind::Member(member.copy(alloc)?),
            _ => unreachable!(),
        };
        Ok(ClauseProp { kind })
    }
}

impl Pass for ClauseProp {
    ghost subject = { λ c. c };

    #[tactic(auto, using(dom_store::proofs::Stepping::step_concludes))]
    fn pass(&mut self, store: &mut Store) -> Result<Passed, AllocError> {
        Ok(pass_kind(&self.kind, store))
    }
}

impl Propagator for ClauseProp {
    ghost constraint = { λ c. c };

    fn run(&mut self, store: &mut Store) -> Result<Ran, AllocError> {
        pass_on(self, store)
    }
}
