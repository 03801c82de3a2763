ghost use Rattle.std.specs.Prelude.{◌≡◌, IfOk};
ghost use Rattle.element_prop.specs.Kinds.{IsElement};

use crate::pass_element::pass_element;
use dom_store::{Pass, Passed, Propagator, Ran, Store, pass_on};
use fzn_model::{Con, List, Term};
use std::alloc::{AllocError, Global};
use std::marker::Model;

/// A propagator for an element of a list, which contracts see as its constraint.
#[derive(Drop)]
pub struct ElementProp {
    index: Term,
    members: List<Term>,
    chosen: Term,
}

impl Model for ElementProp {
    ghost use Rattle.fzn_model.specs.declared.con.Con.{Con};
    ghost use Rattle.fzn_model.specs.declared.con.Con.TheVariants as con;

    ghost Value = { Con };

    ghost view = { λ p. con.Element p.index p.members p.chosen };
}

impl ElementProp {
    /// The propagator for an element of a list, `Con::Element(..)`.
    pub fn new(alloc: Global, con: &Con) -> Result<ElementProp, AllocError>
        requires { IsElement con.now }
        ensures { IfOk result (λ p. p ≡ con.now) }
    {
        let Con::Element(index, members, chosen) = con else {
            unreachable!()
        };
        Ok(ElementProp {
            index: *index,
            members: members.copy(alloc)?,
            chosen: *chosen,
        })
    }
}

impl Pass for ElementProp {
    ghost subject = { λ c. c };

    fn pass(&mut self, store: &mut Store) -> Result<Passed, AllocError> {
        Ok(pass_element(store, self.index, self.members.as_slice(), self.chosen))
    }
}

impl Propagator for ElementProp {
    ghost constraint = { λ c. c };

    fn run(&mut self, store: &mut Store) -> Result<Ran, AllocError> {
        pass_on(self, store)
    }
}
