//! What is used for sure fits, and each task fits at its first and at its last start.
ghost use Rattle.std.specs.Prelude.{◌↔◌, length, IsTrue, IfOk};
ghost use Rattle.fzn_model.specs.declared.con.Con.TheVariants as con;
ghost use Rattle.dom_store.specs.Narrowing.{Prunes};
ghost use Rattle.dom_store.specs.Steps.{Step};
ghost use Rattle.fzn_model.specs.Limits.{TermIn};
ghost use Rattle.fzn_model.specs.Bounds.{term_high};
ghost use Rattle.cumul_prop.specs.Parts.{IsReady, IsProfile, AreWithin};
ghost use Rattle.cumul_prop.specs.Limits.{AreLimits};
ghost use Rattle.cumul_prop.specs.Narrowing.{IsFitted};
ghost use Rattle.fzn_model.specs.Meaning.{Holds};

use crate::limits::put_limits;
use crate::parts::put_parts;
use crate::profile::{are_within, put_profile};
use crate::starts::limit_starts;
use dom_store::{Passed, Store, greatest};
use fzn_model::{CumTask, Term, Used};
use std::alloc::{AllocError, Global};

/// What a pass finds out: what is used for sure, how much at which moments, and what the starts can be.
#[derive(Drop)]
pub(crate) struct Lists {
    parts: Vec<Used>,
    profile: Vec<(i64, i128)>,
    limits: Vec<(i64, i64)>,
}

impl Lists {
    /// Lists that are empty.
    pub(crate) fn new(alloc: Global) -> Lists {
        Lists {
            parts: Vec::new(alloc),
            profile: Vec::new(alloc),
            limits: Vec::new(alloc),
        }
    }
}

/// Whether what is used for sure fits.
fn fits(store: &Store, profile: &[(i64, i128)], capacity: Term) -> bool
    requires { TermIn (length store.now.box) capacity }
    ensures { IsTrue result ↔ AreWithin (term_high store.now.box capacity) profile.now }
{
    are_within(profile, &greatest(store, capacity))
}

/// Keeps the starts within limits, where what is used for sure fits.
#[tactic(auto, using(crate::proofs::Limiting::all_bounded))]
fn limit_by(
    store: &mut Store,
    tasks: &[CumTask],
    used: &[Used],
    capacity: Term,
    all: &[Used],
    profile: &[(i64, i128)],
    limits: &[(i64, i64)],
) -> Passed
    requires ready { IsReady store.old.box tasks.now used.now capacity }
    requires profile { IsProfile store.old.box tasks.now used.now all.now profile.now }
    requires within { AreWithin (term_high store.old.box capacity) profile.now }
    requires limits { AreLimits store.old.box tasks.now used.now capacity (length tasks.now) limits.now }
    ensures { Step (IsFitted tasks.now used.now capacity) (Holds (con.CumulUsed tasks.now used.now capacity)) store.old store.new result }
{
    limit_starts(store, tasks, used, capacity, limits)
}

/// Narrows the starts by what is used at moments.
fn narrow_by(
    store: &mut Store,
    tasks: &[CumTask],
    used: &[Used],
    capacity: Term,
    all: &[Used],
    profile: &[(i64, i128)],
    limits: &mut Vec<(i64, i64)>,
) -> Result<Passed, AllocError>
    requires ready { IsReady store.old.box tasks.now used.now capacity }
    requires profile { IsProfile store.old.box tasks.now used.now all.now profile.now }
    ensures prunes { Prunes (Holds (con.CumulUsed tasks.now used.now capacity)) store.old store.new }
    ensures steps { IfOk result (Step (IsFitted tasks.now used.now capacity) (Holds (con.CumulUsed tasks.now used.now capacity)) store.old store.new) }
{
    if !fits(store, profile, capacity) {
        return Ok(Passed::Empty);
    }
    put_limits(store, tasks, used, capacity, all, profile, limits)?;
    Ok(limit_by(
        store,
        tasks,
        used,
        capacity,
        all,
        profile,
        limits.as_slice(),
    ))
}

/// Narrows the starts by what is used for sure, which is put in lists.
pub(crate) fn narrow_starts(
    store: &mut Store,
    tasks: &[CumTask],
    used: &[Used],
    capacity: Term,
    lists: &mut Lists,
) -> Result<Passed, AllocError>
    requires { IsReady store.old.box tasks.now used.now capacity }
    ensures prunes { Prunes (Holds (con.CumulUsed tasks.now used.now capacity)) store.old store.new }
    ensures steps { IfOk result (Step (IsFitted tasks.now used.now capacity) (Holds (con.CumulUsed tasks.now used.now capacity)) store.old store.new) }
{
    put_parts(store, tasks, used, &mut lists.parts)?;
    put_profile(&mut lists.profile, lists.parts.as_slice(), used.len())?;
    narrow_by(
        store,
        tasks,
        used,
        capacity,
        lists.parts.as_slice(),
        lists.profile.as_slice(),
        &mut lists.limits,
    )
}
