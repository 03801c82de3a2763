//! A whole pass.
ghost use Rattle.std.specs.Prelude.{IfOk};
ghost use Rattle.fzn_model.specs.declared.con.Con.TheVariants as con;
ghost use Rattle.fzn_model.specs.Booleans.{FitsBox};
ghost use Rattle.dom_store.specs.Narrowing.{Prunes};
ghost use Rattle.dom_store.specs.Passes.{Concludes};
ghost use Rattle.fzn_model.specs.Meaning.{Holds};

use crate::narrow::{Lists, narrow_starts};
use crate::signs::sign_terms;
use dom_store::{Passed, Store, recall_domains};
use fzn_model::{CumTask, Term, Used};
use std::alloc::AllocError;

/// One pass over tasks that share a capacity. What it finds out is put in lists.
pub(crate) fn pass_cumulative(
    store: &mut Store,
    tasks: &[CumTask],
    used: &[Used],
    capacity: Term,
    lists: &mut Lists,
) -> Result<Passed, AllocError>
    requires { FitsBox store.old.box (con.CumulUsed tasks.now used.now capacity) }
    ensures prunes { Prunes (Holds (con.CumulUsed tasks.now used.now capacity)) store.old store.new }
    ensures means { IfOk result (Concludes (con.CumulUsed tasks.now used.now capacity) store.old.box store.new.box) }
{
    recall_domains(store);
    match sign_terms(store, tasks, used, capacity) {
        Passed::Empty => return Ok(Passed::Empty),
        Passed::Done => {}
    }
    narrow_starts(store, tasks, used, capacity, lists)
}
