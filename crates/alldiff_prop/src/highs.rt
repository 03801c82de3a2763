//! The greatest values of the members from a number on, in order.
ghost use Rattle.std.specs.Prelude.{◌≡◌, length, All, OnOk};
ghost use Rattle.fzn_model.specs.Limits.{TermIn};
ghost use Rattle.alldiff_prop.specs.Members.{IsReady};
ghost use Rattle.alldiff_prop.specs.Highs.{highs_of, IsHighs};

use dom_store::{Store, greatest, least};
use fzn_model::Term;
use std::alloc::AllocError;

/// Puts the greatest values of the members whose least value is at least a number in a list, member by member.
#[tactic(auto, using(crate::proofs::Gathering::highs_more, crate::proofs::Gathering::highs_pass))]
fn highs_by_member(
    store: &Store,
    members: &[Term],
    low: &i64,
    highs: &mut Vec<i64>,
) -> Result<(), AllocError>
    requires { All (TermIn (length store.now.box)) members.now }
    ensures { OnOk result (highs.new.items ≡ highs_of store.now.box low.now members.now) }
{
    highs.clear();
    for term in members {
        if least(store, *term) < *low {
            continue;
        }
        highs.push(greatest(store, *term))?;
    }
    Ok(())
}

/// The same, in order.
pub fn put_highs(
    store: &Store,
    members: &[Term],
    low: &i64,
    highs: &mut Vec<i64>,
) -> Result<(), AllocError>
    requires ready { IsReady store.now.box members.now }
    ensures { OnOk result (IsHighs store.now.box members.now low.now highs.new.items) }
{
    highs_by_member(store, members, low, highs)?;
    highs.sort_unstable();
    Ok(())
}
