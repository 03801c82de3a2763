//! Members are narrowed to what full intervals leave.
ghost use Rattle.std.specs.Prelude.{◌≤ℤ◌, ◌<ℤ◌, Contains, length, IfOk};
ghost use Rattle.fzn_model.specs.declared.con.Con.TheVariants as con;
ghost use Rattle.fzn_model.specs.Limits.{IsValue, TermIn};
ghost use Rattle.fzn_model.specs.Bounds.{term_low, term_high};
ghost use Rattle.dom_store.specs.Narrowing.{Prunes};
ghost use Rattle.alldiff_prop.specs.Rising.{Climbs, IsSplit};
ghost use Rattle.dom_store.specs.Steps.{Step, EachTo};
ghost use Rattle.alldiff_prop.specs.Members.{IsReady};
ghost use Rattle.alldiff_prop.specs.Highs.{AreLows};
ghost use Rattle.alldiff_prop.specs.Spans.{AreSpans};
ghost use Rattle.alldiff_prop.specs.Halls.{AreFull, IsApart, IsNarrowedFrom, AreNarrowed};
ghost use Rattle.fzn_model.specs.Meaning.{Holds};

use crate::fulls::put_fulls;
use crate::highs::put_highs;
use crate::rising::count_below;
use crate::spans::{put_lows, put_spans};
use crate::strict::{keep_above, keep_below};
use crate::sweep::is_clear;
use crate::taken::Taken;
use dom_store::{Passed, Store, greatest, least, recall_domains};
use fzn_model::Term;
use std::alloc::{AllocError, Global};

/// How many of the full intervals from a number on end before a member does.
fn count_ended(store: &Store, term: Term, fulls: &[i64]) -> usize
    requires term { TermIn (length store.now.box) term }
    requires climbs { Climbs fulls.now }
    ensures { IsSplit fulls.now (term_high store.now.box term) result }
{
    count_below(fulls, &greatest(store, term))
}

/// Keeps the values of a member outside the full intervals from a number on that it isn't within, at its bounds. Where it
/// begins there or later it is raised past the last of them that ends before it does; where it begins before, it is capped
/// unless it ends past them all.
fn narrow_member(
    store: &mut Store,
    members: &[Term],
    taken: &Taken,
    term: Term,
    low: &i64,
    fulls: &[i64],
) -> Passed
    requires ready { IsReady store.old.box members.now }
    requires member { Contains members.now term }
    requires low { IsValue low.now }
    requires full { AreFull members.now taken.now low.now fulls.now store.old.box }
    ensures { Step (IsApart low.now fulls.now term) (Holds (con.AllDiffExcept members.now taken.now)) store.old store.new result }
{
    let ended = count_ended(store, term, fulls);
    if least(store, term) < *low {
        if ended == fulls.len() {
            return Passed::Done;
        }
        return keep_below(store, term, low);
    }
    if ended == 0 {
        return Passed::Done;
    }
    keep_above(store, term, &fulls[ended - 1])
}

/// The same for each member.
fn narrow_members(
    store: &mut Store,
    members: &[Term],
    taken: &Taken,
    low: &i64,
    fulls: &[i64],
) -> Passed
    requires ready { IsReady store.old.box members.now }
    requires low { IsValue low.now }
    requires full { AreFull members.now taken.now low.now fulls.now store.old.box }
    ensures { Step (EachTo (IsApart low.now fulls.now) members.now (length members.now)) (Holds (con.AllDiffExcept members.now taken.now)) store.old store.new result }
{
    recall_domains(store);
    for term in members {
        if let Passed::Empty = narrow_member(store, members, taken, *term, low, fulls) {
            return Passed::Empty;
        }
    }
    Passed::Done
}

/// What a pass looks at: the bounds of the members and their least values, and from one of these on, the greatest values and
/// those up to which an interval is full.
#[derive(Drop)]
pub struct Lists {
    spans: Vec<(i64, i64)>,
    lows: Vec<i64>,
    highs: Vec<i64>,
    fulls: Vec<i64>,
}

impl Lists {
    /// Lists that are empty.
    pub fn new(alloc: Global) -> Lists {
        Lists {
            spans: Vec::new(alloc),
            lows: Vec::new(alloc),
            highs: Vec::new(alloc),
            fulls: Vec::new(alloc),
        }
    }
}

/// Narrows by the intervals from a number on to the greatest values of members, which are put in a list, and so are the ends
/// of the full ones.
fn narrow_from(
    store: &mut Store,
    members: &[Term],
    taken: &Taken,
    low: &i64,
    highs: &mut Vec<i64>,
    fulls: &mut Vec<i64>,
) -> Result<Passed, AllocError>
    requires ready { IsReady store.old.box members.now }
    requires low { IsValue low.now }
    ensures prunes { Prunes (Holds (con.AllDiffExcept members.now taken.now)) store.old store.new }
    ensures steps { IfOk result (Step (IsNarrowedFrom members.now taken.now low.now) (Holds (con.AllDiffExcept members.now taken.now)) store.old store.new) }
{
    put_highs(store, members, low, highs)?;
    if !put_fulls(taken, low, highs.as_slice(), fulls)? {
        return Ok(Passed::Empty);
    }
    Ok(narrow_members(store, members, taken, low, fulls.as_slice()))
}

/// Narrows by the intervals from some numbers to the greatest values of members. Of most numbers a look along the spans
/// tells that there is nothing to narrow.
fn narrow_each(
    store: &mut Store,
    members: &[Term],
    taken: &Taken,
    spans: &[(i64, i64)],
    lows: &[i64],
    highs: &mut Vec<i64>,
    fulls: &mut Vec<i64>,
) -> Result<Passed, AllocError>
    requires ready { IsReady store.old.box members.now }
    requires spans { AreSpans store.old.box members.now spans.now }
    requires lows { AreLows store.old.box members.now lows.now }
    ensures prunes { Prunes (Holds (con.AllDiffExcept members.now taken.now)) store.old store.new }
    ensures steps { IfOk result (Step (AreNarrowed members.now taken.now) (Holds (con.AllDiffExcept members.now taken.now)) store.old store.new) }
{
    for low in lows {
        if is_clear(taken, low, spans) {
            continue;
        }
        if let Passed::Empty = narrow_from(store, members, taken, low, highs, fulls)? {
            return Ok(Passed::Empty);
        }
    }
    Ok(Passed::Done)
}

/// Narrows by the intervals from the least values of members to the greatest of members. What it looks at is put in lists.
pub fn narrow_all(
    store: &mut Store,
    members: &[Term],
    taken: &Taken,
    lists: &mut Lists,
) -> Result<Passed, AllocError>
    requires { IsReady store.old.box members.now }
    ensures prunes { Prunes (Holds (con.AllDiffExcept members.now taken.now)) store.old store.new }
    ensures steps { IfOk result (Step (AreNarrowed members.now taken.now) (Holds (con.AllDiffExcept members.now taken.now)) store.old store.new) }
{
    put_spans(store, members, &mut lists.spans)?;
    put_lows(store, members, &mut lists.lows)?;
    narrow_each(
        store,
        members,
        taken,
        lists.spans.as_slice(),
        lists.lows.as_slice(),
        &mut lists.highs,
        &mut lists.fulls,
    )
}
