//! A whole pass.
ghost use Rattle.std.specs.Prelude.{◌≡◌, length};
ghost use Rattle.fzn_model.specs.declared.con.Con.TheVariants as con;
ghost use Rattle.fzn_model.specs.Booleans.{FitsBox};
ghost use Rattle.dom_store.specs.Narrowing.{Prunes};
ghost use Rattle.dom_store.specs.Passes.{Concludes};
ghost use Rattle.element_prop.specs.Places.{IsReady, IsIndexed, IsImpossible, MeetsBefore, IsWithin, IsJoined};
ghost use Rattle.fzn_model.specs.Meaning.{Holds};

use crate::ends::bound_terms;
use crate::index::bound_index;
use crate::places::drop_places;
use dom_store::{Passed, Store, recall_domains};
use fzn_model::Term;

/// Narrows all terms, where the index can have only places.
#[tactic(auto, using(dom_store::proofs::Laws::prunes_trans, crate::proofs::Passing::ready_on, crate::proofs::Passing::indexed_on, crate::proofs::Passing::none_at_first, crate::proofs::Passing::meets_first, crate::proofs::Passing::within_second, crate::proofs::Passing::joined_second))]
fn narrow_terms(store: &mut Store, index: Term, members: &[Term], chosen: Term) -> Passed
    requires ready { IsReady store.old.box index members.now chosen }
    requires indexed { IsIndexed store.old.box index (length members.now) }
    ensures prunes { Prunes (Holds (con.Element index members.now chosen)) store.old store.new }
    ensures meets { result ≡ Passed.Done → store.new.box ≡ store.old.box → MeetsBefore store.old.box index members.now chosen (length members.now) }
    ensures within { result ≡ Passed.Done → store.new.box ≡ store.old.box → IsWithin store.old.box index members.now chosen }
    ensures joined { result ≡ Passed.Done → store.new.box ≡ store.old.box → IsJoined store.old.box index members.now chosen }
    ensures none { result ≡ Passed.Empty → IsImpossible store.old.box index members.now chosen }
{
    if let Passed::Empty = drop_places(store, index, members, chosen) {
        return Passed::Empty;
    }
    bound_terms(store, index, members, chosen)
}

/// One pass over an index, a list, and the chosen term.
#[tactic(auto, using(dom_store::proofs::Laws::prunes_trans, crate::proofs::Passing::ready_on, crate::proofs::Passing::ready_first))]
pub fn pass_element(store: &mut Store, index: Term, members: &[Term], chosen: Term) -> Passed
    requires { FitsBox store.old.box (con.Element index members.now chosen) }
    ensures prunes { Prunes (Holds (con.Element index members.now chosen)) store.old store.new }
    ensures joined { result ≡ Passed.Done → store.new.box ≡ store.old.box → IsJoined store.new.box index members.now chosen }
    ensures means { Concludes (con.Element index members.now chosen) store.old.box store.new.box result }
{
    recall_domains(store);
    if let Passed::Empty = bound_index(store, index, members, chosen) {
        return Passed::Empty;
    }
    narrow_terms(store, index, members, chosen)
}
