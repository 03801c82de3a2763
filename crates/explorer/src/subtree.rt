//! The search of one path's subtree.

ghost use Rattle.std.specs.Prelude.{◌≡◌, ◌+◌, ◌^◌, ◌≤◌, ◌<◌, List, ℤ, length, All, IfOk, IfErr};
ghost use Rattle.fzn_model.specs.Limits.{IsValue};
ghost use Rattle.fzn_model.specs.Solutions.{top};
ghost use Rattle.explorer.specs.Benches.{IsBench, IsAble};
ghost use Rattle.explorer.specs.Holding.{times_held};
ghost use Rattle.explorer.specs.Frames.{weight};
ghost use Rattle.explorer.specs.Walking.{NoneMeets};
ghost use Rattle.explorer.specs.Works.{Works};
ghost use Rattle.explorer.specs.Explored.{IfSettled, Closes, closings, IsCauseOf, CountedBy};
ghost use Rattle.explorer.specs.Going.{aim, state};
ghost use Rattle.explorer.specs.Logged.{Logged};
ghost use Rattle.explorer.specs.Ending.{IsStart, HasRun, HasClosed, HasStopped, HasLogged, HasLevels, answer_of};

use crate::bench::Bench;
use crate::edge::{enter, follow, leave};
use crate::found::Found;
use crate::frame::Stop;
use crate::meter::Meter;
use crate::node::listen;
use crate::noting::{depth_of, note_leaf};
use crate::search::search;
use crate::task::Task;
use crate::telling::tell_leaf;
use entry_slab::Shelf;
use evictor::{Cache, Reader};
use fzn_model::Model;
use incumbent_board::{Board, BoardPass, Why};
use run_log::Journal;
use search_core::{Local, Path};
use std::alloc::Global;

/// How the search of a path ended.
#[derive(Clone, Copy, Debug, PartialEq, Eq)]
pub enum Explored {
    /// No solution of the path costs less than this, the bound that was seen last.
    Settled(i64),
    /// The board had no credit left.
    Dry,
    /// The board told this reason to stop.
    Told(Why),
    /// Memory was wanting.
    NoMemory,
}

/// A path that no assignment within the domains meets.
#[tactic(auto, using(crate::proofs::Exploring::empty_runs, crate::proofs::Exploring::empty_halts, crate::proofs::Exploring::empty_closes, crate::proofs::Exploring::empty_stops, crate::proofs::Exploring::still_held, crate::proofs::Exploring::room_enough))]
fn close_empty<H: Shelf, J: Journal>(
    task: &Task,
    bench: &Bench,
    reader: &Reader<H>,
    pass: &mut BoardPass,
    local: &mut Local,
    found: &Found,
    meter: &Meter,
    journal: &mut J,
) -> Result<i64, Stop>
    requires none { NoneMeets task.now.model.now task.now.path.now }
    requires board { pass.old.board ≡ task.now.board.now }
    requires held { 1 ≤ times_held task.now.path.now local.old }
    requires expands { local.old.expands ≤ 2 ^ 100 }
    ensures ran { HasRun (aim task.now) (state bench.now pass.old local.old reader.now meter.now found.now) (state bench.now pass.new local.new reader.now meter.now found.now) }
    ensures closed { IfOk result (λ b. HasClosed (aim task.now) b (state bench.now pass.old local.old reader.now meter.now found.now) (state bench.now pass.new local.new reader.now meter.now found.now)) }
    ensures stopped { IfErr result (λ why. HasStopped why (state bench.now pass.old local.old reader.now meter.now found.now) (state bench.now pass.new local.new reader.now meter.now found.now)) }
    ensures logged { HasLogged (aim task.now) result (state bench.now pass.old local.old reader.now meter.now found.now) (J.noted journal.old) (state bench.now pass.new local.new reader.now meter.now found.now) (J.noted journal.new) }
    ensures places { J.places journal.new ≡ J.places journal.old }
{
    let _ = bench;
    let _ = reader;
    let _ = found;
    let _ = meter;
    let depth = match depth_of(task.path) {
        Ok(depth) => depth,
        Err(stop) => return Err(stop),
    };
    match listen(task, pass, local) {
        Ok(seen) => match tell_leaf(local, task.path) {
            Ok(()) => {
                note_leaf(journal, &depth, &seen);
                Ok(seen)
            }
            Err(stop) => Err(stop),
        },
        Err(stop) => Err(stop),
    }
}

/// Searches below the path, from the model's domains.
#[tactic(auto, using(crate::proofs::Exploring::start_can, crate::proofs::Exploring::start_box, crate::proofs::Exploring::done_runs, crate::proofs::Exploring::done_closes, crate::proofs::Exploring::done_levels, crate::proofs::Exploring::ends_runs, crate::proofs::Exploring::ends_stops, crate::proofs::Exploring::ends_levels, crate::proofs::Exploring::moved_runs, crate::proofs::Exploring::moved_closes, crate::proofs::Exploring::moved_stops, prop_engine::proofs::Ready::ready_same))]
fn search_below<H: Shelf, J: Journal>(
    task: &Task,
    bench: &mut Bench,
    reader: &mut Reader<H>,
    pass: &mut BoardPass,
    local: &mut Local,
    found: &mut Found,
    meter: &mut Meter,
    journal: &mut J,
) -> Result<i64, Stop>
    requires start { IsStart task.now.model.now task.now.path.now bench.old }
    requires able { IsAble bench.old }
    requires path { All (λ d. (d.var < length task.now.model.now.doms) × IsValue d.at) task.now.path.now }
    requires board { pass.old.board ≡ task.now.board.now }
    requires top { task.now.board.now.top ≡ top task.now.model.now }
    requires cache { reader.old.pass.cache ≡ task.now.cache.now }
    requires held { 1 ≤ times_held task.now.path.now local.old }
    requires expands { local.old.expands ≤ 2 ^ 100 }
    requires found { found.old.count ≡ length task.now.model.now.doms }
    requires meter { meter.old.count ≤ 2 ^ 100 }
    ensures ran { HasRun (aim task.now) (state bench.old pass.old local.old reader.old meter.old found.old) (state bench.new pass.new local.new reader.new meter.new found.new) }
    ensures closed { IfOk result (λ b. HasClosed (aim task.now) b (state bench.old pass.old local.old reader.old meter.old found.old) (state bench.new pass.new local.new reader.new meter.new found.new)) }
    ensures stopped { IfErr result (λ why. HasStopped why (state bench.old pass.old local.old reader.old meter.old found.old) (state bench.new pass.new local.new reader.new meter.new found.new)) }
    ensures logged { HasLogged (aim task.now) result (state bench.old pass.old local.old reader.old meter.old found.old) (J.noted journal.old) (state bench.new pass.new local.new reader.new meter.new found.new) (J.noted journal.new) }
    ensures places { J.places journal.new ≡ J.places journal.old }
    ensures levels { (area : List (List ℤ)) → HasLevels bench.old area → HasLevels bench.new area }
    ensures able { IsAble bench.new }
{
    let model = task.model;
    let _kept = &model.cons;
    let _ = pass.out();
    if follow(task, &mut bench.store, task.path.decisions()) {
        return close_empty(task, bench, reader, pass, local, found, meter, journal);
    }
    match search(task, bench, reader, pass, local, found, meter, journal) {
        Ok(closed) => Ok(closed.bound),
        Err(stop) => Err(stop),
    }
}

/// Searches the subtree of the path, and leaves the bench as it was.
#[tactic(auto, using(crate::proofs::Exploring::none_runs, crate::proofs::Exploring::none_stops, crate::proofs::Exploring::whole_runs, crate::proofs::Exploring::moved_closes, crate::proofs::Exploring::moved_stops, crate::proofs::Exploring::can_leave, crate::proofs::Exploring::left_bench, crate::proofs::Exploring::bench_full))]
fn try_explore<H: Shelf, J: Journal>(
    task: &Task,
    bench: &mut Bench,
    reader: &mut Reader<H>,
    pass: &mut BoardPass,
    local: &mut Local,
    found: &mut Found,
    meter: &mut Meter,
    journal: &mut J,
) -> Result<i64, Stop>
    requires bench { IsBench task.now.model.now bench.old }
    requires path { All (λ d. (d.var < length task.now.model.now.doms) × IsValue d.at) task.now.path.now }
    requires board { pass.old.board ≡ task.now.board.now }
    requires top { task.now.board.now.top ≡ top task.now.model.now }
    requires cache { reader.old.pass.cache ≡ task.now.cache.now }
    requires held { 1 ≤ times_held task.now.path.now local.old }
    requires expands { local.old.expands ≤ 2 ^ 100 }
    requires found { found.old.count ≡ length task.now.model.now.doms }
    requires meter { meter.old.count ≤ 2 ^ 100 }
    ensures ran { HasRun (aim task.now) (state bench.old pass.old local.old reader.old meter.old found.old) (state bench.new pass.new local.new reader.new meter.new found.new) }
    ensures closed { IfOk result (λ b. HasClosed (aim task.now) b (state bench.old pass.old local.old reader.old meter.old found.old) (state bench.new pass.new local.new reader.new meter.new found.new)) }
    ensures stopped { IfErr result (λ why. HasStopped why (state bench.old pass.old local.old reader.old meter.old found.old) (state bench.new pass.new local.new reader.new meter.new found.new)) }
    ensures logged { HasLogged (aim task.now) result (state bench.old pass.old local.old reader.old meter.old found.old) (J.noted journal.old) (state bench.new pass.new local.new reader.new meter.new found.new) (J.noted journal.new) }
    ensures places { J.places journal.new ≡ J.places journal.old }
    ensures bench { IsBench task.now.model.now bench.new }
{
    if let Err(_) = enter(task, bench) {
        return Err(Stop::NoMemory);
    }
    let ended = search_below(task, bench, reader, pass, local, found, meter, journal);
    leave(bench, task.alloc);
    ended
}

/// What a search says to its caller.
fn answer(ended: Result<i64, Stop>) -> Explored
    ensures { result ≡ answer_of ended }
{
    match ended {
        Ok(bound) => Explored::Settled(bound),
        Err(Stop::Dry) => Explored::Dry,
        Err(Stop::Told(why)) => Explored::Told(why),
        Err(Stop::NoMemory) => Explored::NoMemory,
    }
}

/// Counts a path that was settled.
fn count_closed(meter: &mut Meter, explored: &Explored)
    requires { meter.old.closed ≤ 2 ^ 100 }
    ensures { meter.new ≡ record meter.old { closed = meter.old.closed + closings explored.now } }
{
    if let Explored::Settled(_) = explored {
        meter.closed += 1;
    }
}

/// Searches the subtree of a path, depth first, for solutions that cost less than the best that the board knows.
///
/// At each node it loads the best cost, asks the board whether to stop, and propagates below that cost. A node is a leaf where
/// nothing cheaper is left, or where each variable has one value: then these values are offered if they are a solution.
/// Else its residual problem is made, and looked up if it has at most `limit` words; a hit settles the node. Else it is
/// expanded, for one credit of the board and one ticket, at the cut of [`choose`](brancher::choose). When both sides are
/// settled, the residual problem is published with the bound at that time.
///
/// The board was made with the model's top, `pass` is of this board and the reader's pass of this cache; the path is held in
/// `local`, its variables are the model's and each `at` is a value of the language. `found` was made for the model's number
/// of variables.
///
/// `Settled(b)`: no solution of the path costs less than b, which the pass last saw. `Dry`: the board gave no credit. `Told`: it
/// told that reason to stop. In every case `works` says what was spent and found, `log` what was noted (`specs/Logged.antt`), the credits are at most one less than
/// the path's assignments, none where it has none, and the bench is as it was.
///
/// It takes memory for each open expansion and its level, for residual problems, and for entries that the shelf keeps.
#[tactic(auto, using(crate::proofs::Exploring::closes_if, crate::proofs::Exploring::works_all, crate::proofs::Exploring::weighs, crate::proofs::Exploring::counts_by, crate::proofs::Exploring::causes))]
pub fn explore<H: Shelf, J: Journal>(
    alloc: Global,
    model: &Model,
    bench: &mut Bench,
    path: &Path,
    limit: u32,
    cache: &Cache,
    reader: &mut Reader<H>,
    board: &Board,
    pass: &mut BoardPass,
    local: &mut Local,
    journal: &mut J,
    found: &mut Found,
    meter: &mut Meter,
) -> Explored
    requires bench { IsBench model.now bench.old }
    requires path { All (λ d. (d.var < length model.now.doms) × IsValue d.at) path.now }
    requires board { pass.old.board ≡ board.now }
    requires top { board.now.top ≡ top model.now }
    requires cache { reader.old.pass.cache ≡ cache.now }
    requires held { 1 ≤ times_held path.now local.old }
    requires expands { local.old.expands ≤ 2 ^ 100 }
    requires found { found.old.count ≡ length model.now.doms }
    requires meter { (meter.old.count ≤ 2 ^ 100) × (meter.old.closed ≤ 2 ^ 100) }
    ensures settled { IfSettled result (λ b. Closes model.now path.now b pass.new local.old local.new) }
    ensures works { Works model.now path.now limit pass.old pass.new reader.old reader.new meter.old meter.new found.old found.new }
    ensures closed { meter.new.closed ≡ meter.old.closed + closings result }
    ensures weight { pass.new.credits ≤ pass.old.credits + weight model.now path.now }
    ensures expands { CountedBy result local.old local.new pass.old pass.new }
    ensures cause { IsCauseOf result pass.old pass.new }
    ensures log { Logged model.now path.now limit result pass.old pass.new reader.old reader.new meter.old meter.new (J.noted journal.old) (J.noted journal.new) }
    ensures places { J.places journal.new ≡ J.places journal.old }
    ensures bench { IsBench model.now bench.new }
{
    let task = Task {
        alloc,
        model,
        path,
        limit,
        cache,
        board,
    };
    let explored = answer(try_explore(&task, bench, reader, pass, local, found, meter, journal));
    count_closed(meter, &explored);
    explored
}
