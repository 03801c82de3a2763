ghost use Rattle.std.specs.Prelude.{◌≡◌, IfOk};
ghost use Rattle.cumul_prop.specs.Kinds.{IsCumulative};

use crate::narrow::Lists;
use crate::pass_cumulative::pass_cumulative;
use dom_store::{Pass, Passed, Propagator, Ran, Store, pass_on};
use fzn_model::{Con, CumTask, List, Term, Used};
use std::alloc::{AllocError, Global};
use std::marker::Model;

/// A propagator for tasks that share a capacity, which contracts see as its constraint.
#[derive(Drop)]
pub struct CumulProp {
    tasks: List<CumTask>,
    used: List<Used>,
    capacity: Term,
    /// Where a pass puts what it finds out.
    lists: Lists,
}

impl Model for CumulProp {
    ghost use Rattle.fzn_model.specs.declared.con.Con.{Con};
    ghost use Rattle.fzn_model.specs.declared.con.Con.TheVariants as con;

    ghost Value = { Con };

    ghost view = { λ p. con.CumulUsed p.tasks p.used p.capacity };
}

impl CumulProp {
    /// The propagator for tasks that share a capacity, `Con::CumulUsed(..)`.
    pub fn new(alloc: Global, con: &Con) -> Result<CumulProp, AllocError>
        requires { IsCumulative con.now }
        ensures { IfOk result (λ p. p ≡ con.now) }
    {
        let Con::CumulUsed(tasks, used, capacity) = con else {
            unreachable!()
        };
        Ok(CumulProp {
            tasks: tasks.copy(alloc)?,
            used: used.copy(alloc)?,
            capacity: *capacity,
            lists: Lists::new(alloc),
        })
    }
}

impl Pass for CumulProp {
    ghost subject = { λ c. c };

    fn pass(&mut self, store: &mut Store) -> Result<Passed, AllocError> {
        pass_cumulative(
            store,
            self.tasks.as_slice(),
            self.used.as_slice(),
            self.capacity,
            &mut self.lists,
        )
    }
}

impl Propagator for CumulProp {
    ghost constraint = { λ c. c };

    fn run(&mut self, store: &mut Store) -> Result<Ran, AllocError> {
        pass_on(self, store)
    }
}
