ghost use Rattle.std.specs.Prelude.{◌≡◌, IfOk};
ghost use Rattle.alldiff_prop.specs.Kinds.{IsAllDifferent};

use crate::narrow::Lists;
use crate::pass_all_different::pass_all_different;
use crate::taken::Taken;
use dom_store::{Pass, Passed, Propagator, Ran, Store, pass_on};
use fzn_model::{Con, List, Term};
use std::alloc::{AllocError, Global};
use std::marker::Model;

/// A propagator for values that differ in pairs and from taken numbers, which contracts see as its constraint.
#[derive(Drop)]
pub struct AllDiffProp {
    members: List<Term>,
    taken: Taken,
    /// Where a pass puts what it looks at.
    lists: Lists,
}

impl Model for AllDiffProp {
    ghost use Rattle.fzn_model.specs.declared.con.Con.{Con};
    ghost use Rattle.fzn_model.specs.declared.con.Con.TheVariants as con;

    ghost Value = { Con };

    ghost view = { λ p. con.AllDiffExcept p.members p.taken };
}

impl AllDiffProp {
    /// The propagator for values that differ, `Con::AllDiffExcept(..)`.
    pub fn new(alloc: Global, con: &Con) -> Result<AllDiffProp, AllocError>
        requires { IsAllDifferent con.now }
        ensures { IfOk result (λ p. p ≡ con.now) }
    {
        let Con::AllDiffExcept(members, taken) = con else {
            unreachable!()
        };
        Ok(AllDiffProp {
            members: members.copy(alloc)?,
            taken: Taken::new(alloc, taken)?,
            lists: Lists::new(alloc),
        })
    }
}

impl Pass for AllDiffProp {
    ghost subject = { λ c. c };

    fn pass(&mut self, store: &mut Store) -> Result<Passed, AllocError> {
        pass_all_different(store, self.members.as_slice(), &self.taken, &mut self.lists)
    }
}

impl Propagator for AllDiffProp {
    ghost constraint = { λ c. c };

    fn run(&mut self, store: &mut Store) -> Result<Ran, AllocError> {
        pass_on(self, store)
    }
}
