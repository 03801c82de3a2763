//! The bounds of members that are taken.
ghost use Rattle.std.specs.Prelude.{◌↔◌, Contains, All, IsTrue, length};
ghost use Rattle.fzn_model.specs.Limits.{IsValue, TermIn};
ghost use Rattle.fzn_model.specs.declared.con.Con.TheVariants as con;
ghost use Rattle.dom_store.specs.Steps.{Step, EachTo};
ghost use Rattle.alldiff_prop.specs.Members.{IsReady};
ghost use Rattle.alldiff_prop.specs.Untaken.{IsDropped, BoundsAreFree, AreFree};
ghost use Rattle.fzn_model.specs.Meaning.{Holds};

use crate::taken::Taken;
use dom_store::{Passed, Store, drop_value, greatest, least, recall_domains};
use fzn_model::Term;

/// Whether no bound of a term is taken.
#[tactic(auto, unfolding(crate::specs::Untaken::BoundsAreFree))]
fn is_free(store: &Store, taken: &Taken, term: Term) -> bool
    requires { TermIn (length store.now.box) term }
    ensures { IsTrue result ↔ BoundsAreFree taken.now term store.now.box }
{
    !taken.has(&least(store, term)) && !taken.has(&greatest(store, term))
}

/// Whether no bound of a member is taken.
#[tactic(auto, unfolding(crate::specs::Untaken::AreFree))]
pub fn are_free(store: &Store, members: &[Term], taken: &Taken) -> bool
    requires { All (TermIn (length store.now.box)) members.now }
    ensures { IsTrue result ↔ AreFree taken.now members.now store.now.box }
{
    if taken.is_empty() {
        return true;
    }
    members.iter().all(|term| is_free(store, taken, *term))
}

/// Drops a value of a member where it is taken.
fn drop_where_taken(
    store: &mut Store,
    members: &[Term],
    taken: &Taken,
    term: Term,
    value: &i64,
) -> Passed
    requires ready { IsReady store.old.box members.now }
    requires member { Contains members.now term }
    requires value { IsValue value.now }
    ensures { Step (IsDropped taken.now term value.now) (Holds (con.AllDiffExcept members.now taken.now)) store.old store.new result }
{
    if !taken.has(value) {
        return Passed::Done;
    }
    drop_value(store, term, value)
}

/// Drops each bound of a member that is taken.
fn drop_bounds(store: &mut Store, members: &[Term], taken: &Taken, term: Term) -> Passed
    requires ready { IsReady store.old.box members.now }
    requires member { Contains members.now term }
    ensures { Step (BoundsAreFree taken.now term) (Holds (con.AllDiffExcept members.now taken.now)) store.old store.new result }
{
    let low = least(store, term);
    if let Passed::Empty = drop_where_taken(store, members, taken, term, &low) {
        return Passed::Empty;
    }
    let high = greatest(store, term);
    drop_where_taken(store, members, taken, term, &high)
}

/// Drops each bound of the members that is taken.
pub fn drop_taken(store: &mut Store, members: &[Term], taken: &Taken) -> Passed
    requires { IsReady store.old.box members.now }
    ensures { Step (EachTo (BoundsAreFree taken.now) members.now (length members.now)) (Holds (con.AllDiffExcept members.now taken.now)) store.old store.new result }
{
    recall_domains(store);
    for term in members {
        if let Passed::Empty = drop_bounds(store, members, taken, *term) {
            return Passed::Empty;
        }
    }
    Passed::Done
}
