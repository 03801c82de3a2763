// One node: the bound, the propagation, and a leaf's values.
ghost use Rattle.std.specs.Prelude.{◌≡◌, ◌≤◌, ◌^◌, ◌≤ℤ◌, List, IfOk, IfErr, OnOk, length, true, false, All, ℤ};
ghost use Rattle.fzn_model.specs.Limits.{IsValue, IsNear};
ghost use Rattle.fzn_model.specs.Solutions.{Solves, cost};
ghost use Rattle.prop_engine.specs.Plans.{plan_of, IsFor, IsReady};
ghost use Rattle.prop_engine.specs.Fixing.{Fixes, FixedMeans};
ghost use Rattle.search_core.specs.Paths.{Meets, Settled};
ghost use Rattle.explorer.specs.Benches.{IsAble};
ghost use Rattle.explorer.specs.Nodes.{IsNode};
ghost use Rattle.explorer.specs.Offers.{IsOffer};
ghost use Rattle.explorer.specs.Works.{IsCause};
ghost use Rattle.explorer.specs.Telling.{SameTasks};
ghost use Rattle.explorer.specs.Looking.{Listened, Finds, FindsNone, NotesFound, StaysAt, AreLeast, IsOnly, IsLooked, IsReached, IsOpenNode};
ghost use Rattle.explorer.specs.RightLogs.{IsPropagated};
ghost use Rattle.explorer.specs.Recording.{IsFresh};

use crate::bench::Bench;
use crate::found::Found;
use crate::frame::Stop;
use crate::meter::Meter;
use crate::noting::note_solution;
use crate::task::Task;
use crate::telling::{tell_offer, tell_seen};
use brancher::choose;
use dom_store::{Store, recall_domains};
use fzn_model::{BoxView, cost_of, satisfies};
use incumbent_board::BoardPass;
use prop_engine::{Engine, Fixed};
use run_log::Journal;
use search_core::{Decision, Local, Path};
use std::alloc::AllocError;

/// What a first look says of a node.
#[derive(Drop)]
pub(crate) enum Node {
    /// It is settled at this bound.
    Closed(i64),
    /// It is to be cut, with this side first.
    Open(Decision),
}

/// Loads the bound, and hears whether to stop.
pub(crate) fn listen(task: &Task, pass: &mut BoardPass, local: &mut Local) -> Result<i64, Stop>
    requires own { pass.old.board ≡ task.now.board.now }
    requires room { local.old.expands ≤ 2 ^ 120 }
    ensures pass { Listened pass.old pass.new }
    ensures bound { IfOk result (λ seen. pass.new.seen ≡ seen) }
    ensures top { IfOk result (λ seen. seen ≤ℤ task.now.board.now.top) }
    ensures fresh { IsFresh pass.new }
    ensures local { SameTasks local.old local.new }
    ensures cause { IfErr result (λ stop. IsCause stop pass.old pass.new) }
{
    let seen = task.board.best(pass);
    if tell_seen(local, &seen).is_err() {
        return Err(Stop::NoMemory);
    }
    if let Some(why) = task.board.stopped(pass) {
        return Err(Stop::Told(why));
    }
    Ok(seen)
}

/// Narrows the store for solutions below the bound.
fn fix_below(store: &mut Store, engine: &mut Engine, seen: &i64) -> Result<Fixed, AllocError>
    requires fits { IsFor store.old.box engine.old }
    requires ready { IsReady store.old engine.old }
    ensures same { engine.new ≡ engine.old }
    ensures fixes { Fixes engine.old seen.now store.old store.new }
    ensures means { IfOk result (FixedMeans engine.old seen.now store.old.box store.new.box) }
    ensures ready { IsReady store.new engine.new }
{
    engine.fix(store, *seen)
}

/// Propagates below the bound. True where nothing cheaper is left.
fn is_empty(
    task: &Task,
    store: &mut Store,
    engine: &mut Engine,
    here: &Path,
    seen: &i64,
) -> Result<bool, AllocError>
    requires node { IsNode task.now.model.now here.now store.old.box seen.now }
    requires plan { engine.old ≡ plan_of task.now.model.now }
    requires ready { IsReady store.old engine.old }
    ensures plan { engine.new ≡ engine.old }
    ensures saved { store.new.saved ≡ store.old.saved }
    ensures node { IsNode task.now.model.now here.now store.new.box seen.now }
    ensures settled { IfOk result (λ empty. empty ≡ true → Settled task.now.model.now here.now seen.now) }
    ensures reached { IfOk result (λ empty. empty ≡ false → IsPropagated task.now.model.now here.now seen.now store.new.box) }
    ensures ready { IsReady store.new engine.new }
{
    let model = task.model;
    let _kept = &model.cons;
    let fixed = fix_below(store, engine, seen);
    recall_domains(store);
    match fixed {
        Ok(answer) => match answer {
            Fixed::Empty => Ok(true),
            Fixed::Kept | Fixed::EarlyStop => Ok(false),
        },
        Err(fault) => Err(fault),
    }
}

/// The least value of each variable.
fn read_values(store: &Store, values: &mut Vec<i64>) -> Result<(), AllocError>
    ensures { OnOk result (AreLeast store.now.box values.new.items) }
{
    values.clear();
    for var in 0..store.count() as u32 {
        values.push(store.low(var))?;
    }
    Ok(())
}

/// A solution is offered. Answers the bound at which its node is settled.
fn close_solution<J: Journal>(
    task: &Task,
    here: &Path,
    values: &[i64],
    seen: &i64,
    pass: &mut BoardPass,
    local: &mut Local,
    found: &mut Found,
    meter: &mut Meter,
    journal: &mut J,
) -> Result<i64, Stop>
    requires own { pass.old.board ≡ task.now.board.now }
    requires room { local.old.expands ≤ 2 ^ 120 }
    requires seen { seen.now ≡ pass.old.seen }
    requires meets { Meets here.now values.now }
    requires only { IsOnly task.now.model.now here.now values.now seen.now }
    requires solves { Solves task.now.model.now values.now }
    requires count { length values.now ≡ length task.now.model.now.doms }
    requires found { found.old.count ≡ length task.now.model.now.doms }
    ensures finds { Finds task.now.model.now pass.old pass.new meter.old meter.new found.old found.new }
    ensures notes { NotesFound task.now.model.now here.now pass.old pass.new meter.old meter.new (J.noted journal.old) (J.noted journal.new) }
    ensures places { J.places journal.new ≡ J.places journal.old }
    ensures bound { IfOk result (λ bound. bound ≡ pass.new.seen) }
    ensures settled { OnOk result (Settled task.now.model.now here.now pass.new.seen) }
    ensures local { SameTasks local.old local.new }
    ensures memory { IfErr result (λ stop. stop ≡ Stop.NoMemory) }
{
    let model = task.model;
    let _kept = &model.cons;
    let cost = cost_of(task.model, values);
    note_solution(journal, &cost, values);
    task.board.offer(pass, cost);
    meter.offer(cost);
    found.keep(values, &cost);
    if tell_offer(local, &cost).is_err() {
        return Err(Stop::NoMemory);
    }
    Ok((*seen).min(cost))
}

/// A node with all variables fixed. Answers the bound at which it is settled.
fn close_fixed<J: Journal>(
    task: &Task,
    here: &Path,
    values: &[i64],
    seen: &i64,
    pass: &mut BoardPass,
    local: &mut Local,
    found: &mut Found,
    meter: &mut Meter,
    journal: &mut J,
) -> Result<i64, Stop>
    requires own { pass.old.board ≡ task.now.board.now }
    requires room { local.old.expands ≤ 2 ^ 120 }
    requires seen { seen.now ≡ pass.old.seen }
    requires meets { Meets here.now values.now }
    requires only { IsOnly task.now.model.now here.now values.now seen.now }
    requires count { length values.now ≡ length task.now.model.now.doms }
    requires found { found.old.count ≡ length task.now.model.now.doms }
    ensures finds { Finds task.now.model.now pass.old pass.new meter.old meter.new found.old found.new }
    ensures notes { NotesFound task.now.model.now here.now pass.old pass.new meter.old meter.new (J.noted journal.old) (J.noted journal.new) }
    ensures places { J.places journal.new ≡ J.places journal.old }
    ensures bound { IfOk result (λ bound. bound ≡ pass.new.seen) }
    ensures settled { OnOk result (Settled task.now.model.now here.now pass.new.seen) }
    ensures local { SameTasks local.old local.new }
    ensures memory { IfErr result (λ stop. stop ≡ Stop.NoMemory) }
{
    if satisfies(task.model, values) {
        close_solution(task, here, values, seen, pass, local, found, meter, journal)
    } else {
        Ok(*seen)
    }
}

/// Looks at a node before the cache is asked.
pub(crate) fn look<J: Journal>(
    task: &Task,
    bench: &mut Bench,
    seen: &i64,
    pass: &mut BoardPass,
    local: &mut Local,
    found: &mut Found,
    meter: &mut Meter,
    journal: &mut J,
) -> Result<Node, Stop>
    requires own { pass.old.board ≡ task.now.board.now }
    requires room { local.old.expands ≤ 2 ^ 120 }
    requires seen { seen.now ≡ pass.old.seen }
    requires node { IsNode task.now.model.now bench.old.here bench.old.store.box seen.now }
    requires plan { bench.old.engine ≡ plan_of task.now.model.now }
    requires able { IsAble bench.old }
    requires found { found.old.count ≡ length task.now.model.now.doms }
    ensures stays { StaysAt bench.old bench.new }
    ensures finds { Finds task.now.model.now pass.old pass.new meter.old meter.new found.old found.new }
    ensures notes { NotesFound task.now.model.now bench.old.here pass.old pass.new meter.old meter.new (J.noted journal.old) (J.noted journal.new) }
    ensures still { IfOk result (λ node. IsOpenNode node → J.noted journal.new ≡ J.noted journal.old) }
    ensures places { J.places journal.new ≡ J.places journal.old }
    ensures reached { IfOk result (IsReached task.now.model.now bench.new seen.now) }
    ensures node { IfOk result (IsLooked task.now.model.now bench.new pass.new.seen) }
    ensures able { IsAble bench.new }
    ensures none { IfOk result (λ node. IsOpenNode node → FindsNone pass.old pass.new meter.old meter.new found.old found.new) }
    ensures local { SameTasks local.old local.new }
    ensures memory { IfErr result (λ stop. stop ≡ Stop.NoMemory) }
{
    match is_empty(task, &mut bench.store, &mut bench.engine, &bench.here, seen) {
        Ok(false) => {}
        Ok(true) => return Ok(Node::Closed(*seen)),
        Err(_) => return Err(Stop::NoMemory),
    }
    if let Some(cut) = choose(&bench.store, task.model) {
        return Ok(Node::Open(Decision {
            var: cut.var,
            at: cut.at,
            up: cut.up_first,
        }));
    }
    if read_values(&bench.store, &mut bench.values).is_err() {
        return Err(Stop::NoMemory);
    }
    match close_fixed(
        task,
        &bench.here,
        bench.values.as_slice(),
        seen,
        pass,
        local,
        found,
        meter,
        journal,
    ) {
        Ok(bound) => Ok(Node::Closed(bound)),
        Err(stop) => Err(stop),
    }
}
