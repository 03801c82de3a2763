//! The bounds of all members.
ghost use Rattle.std.specs.Prelude.{◌≡◌, map, length, All, OnOk};
ghost use Rattle.fzn_model.specs.Limits.{TermIn};
ghost use Rattle.fzn_model.specs.Bounds.{term_low};
ghost use Rattle.alldiff_prop.specs.Members.{IsReady};
ghost use Rattle.alldiff_prop.specs.Highs.{AreLows};
ghost use Rattle.alldiff_prop.specs.Spans.{span_of, AreSpans};

use crate::rising::make_rising;
use dom_store::{Store, greatest, least};
use fzn_model::Term;
use std::alloc::AllocError;

/// The greatest value of a term, and its least.
fn span(store: &Store, term: Term) -> (i64, i64)
    requires { TermIn (length store.now.box) term }
    ensures { result ≡ span_of store.now.box term }
{
    (greatest(store, term), least(store, term))
}

/// Puts the spans of the members in a list, member by member.
#[tactic(auto, using(crate::proofs::Spanning::spans_more))]
fn spans_by_member(
    store: &Store,
    members: &[Term],
    spans: &mut Vec<(i64, i64)>,
) -> Result<(), AllocError>
    requires { All (TermIn (length store.now.box)) members.now }
    ensures { OnOk result (spans.new.items ≡ map (span_of store.now.box) members.now) }
{
    spans.clear();
    for term in members {
        spans.push(span(store, *term))?;
    }
    Ok(())
}

/// The same, in the order of their greatest values.
pub fn put_spans(
    store: &Store,
    members: &[Term],
    spans: &mut Vec<(i64, i64)>,
) -> Result<(), AllocError>
    requires { IsReady store.now.box members.now }
    ensures { OnOk result (AreSpans store.now.box members.now spans.new.items) }
{
    spans_by_member(store, members, spans)?;
    spans.sort_unstable();
    Ok(())
}

/// Puts the least values of the members in a list, member by member.
#[tactic(auto, using(crate::proofs::Gathering::lows_more))]
fn lows_by_member(store: &Store, members: &[Term], lows: &mut Vec<i64>) -> Result<(), AllocError>
    requires { All (TermIn (length store.now.box)) members.now }
    ensures { OnOk result (lows.new.items ≡ map (term_low store.now.box) members.now) }
{
    lows.clear();
    for term in members {
        lows.push(least(store, *term))?;
    }
    Ok(())
}

/// The same, each of them once, rising.
pub fn put_lows(store: &Store, members: &[Term], lows: &mut Vec<i64>) -> Result<(), AllocError>
    requires { IsReady store.now.box members.now }
    ensures { OnOk result (AreLows store.now.box members.now lows.new.items) }
{
    lows_by_member(store, members, lows)?;
    make_rising(lows);
    Ok(())
}
