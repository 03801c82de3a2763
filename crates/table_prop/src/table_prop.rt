ghost use Rattle.std.specs.Prelude.{◌≡◌, IfOk};
ghost use Rattle.table_prop.specs.Kinds.{IsTable};

use crate::pass_table::pass_table;
use dom_store::{Pass, Passed, Propagator, Ran, Store, pass_on};
use fzn_model::{Con, List, Term};
use std::alloc::{AllocError, Global};
use std::marker::Model;

/// A propagator for a table, which contracts see as its constraint.
#[derive(Drop)]
pub struct TableProp {
    columns: List<Term>,
    rows: List<i64>,
    /// Where a pass puts the numbers of the possible rows, and their entries in a column.
    found: Vec<usize>,
    entries: Vec<i64>,
}

impl Model for TableProp {
    ghost use Rattle.fzn_model.specs.declared.con.Con.{Con};
    ghost use Rattle.fzn_model.specs.declared.con.Con.TheVariants as con;

    ghost Value = { Con };

    ghost view = { λ p. con.Table p.columns p.rows };
}

impl TableProp {
    /// The propagator for a table, `Con::Table(..)`.
    pub fn new(alloc: Global, con: &Con) -> Result<TableProp, AllocError>
        requires { IsTable con.now }
        ensures { IfOk result (λ p. p ≡ con.now) }
    {
        let Con::Table(columns, rows) = con else {
            unreachable!()
        };
        Ok(TableProp {
            columns: columns.copy(alloc)?,
            rows: rows.copy(alloc)?,
            found: Vec::new(alloc),
            entries: Vec::new(alloc),
        })
    }
}

impl Pass for TableProp {
    ghost subject = { λ c. c };

    fn pass(&mut self, store: &mut Store) -> Result<Passed, AllocError> {
        pass_table(
            store,
            self.columns.as_slice(),
            self.rows.as_slice(),
            &mut self.found,
            &mut self.entries,
        )
    }
}

impl Propagator for TableProp {
    ghost constraint = { λ c. c };

    fn run(&mut self, store: &mut Store) -> Result<Ran, AllocError> {
        pass_on(self, store)
    }
}
