//! A whole pass.
ghost use Rattle.std.specs.Prelude.{IfOk};
ghost use Rattle.fzn_model.specs.declared.con.Con.TheVariants as con;
ghost use Rattle.fzn_model.specs.Booleans.{FitsBox};
ghost use Rattle.dom_store.specs.Narrowing.{Prunes};
ghost use Rattle.dom_store.specs.Passes.{Concludes};
ghost use Rattle.fzn_model.specs.Meaning.{Holds};

use crate::narrow::{Lists, narrow_all};
use crate::taken::Taken;
use crate::untaken::{are_free, drop_taken};
use dom_store::{Passed, Store, recall_domains};
use fzn_model::Term;
use std::alloc::AllocError;

/// One pass over members whose values differ. Where a taken bound goes, the next pass looks for intervals. The lists
/// are for what the pass looks at.
pub fn pass_all_different(
    store: &mut Store,
    members: &[Term],
    taken: &Taken,
    lists: &mut Lists,
) -> Result<Passed, AllocError>
    requires { FitsBox store.old.box (con.AllDiffExcept members.now taken.now) }
    ensures prunes { Prunes (Holds (con.AllDiffExcept members.now taken.now)) store.old store.new }
    ensures means { IfOk result (Concludes (con.AllDiffExcept members.now taken.now) store.old.box store.new.box) }
{
    recall_domains(store);
    if !are_free(store, members, taken) {
        return Ok(drop_taken(store, members, taken));
    }
    narrow_all(store, members, taken, lists)
}
