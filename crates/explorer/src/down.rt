// A step down: a node is settled at once or expanded.
ghost use Rattle.std.specs.Prelude.{◌≡◌, ◌≤◌, ◌^◌, ◌+◌, ◌≤ℤ◌, ◌-ℤ◌, List, IfOk, IfErr, OnOk, OnErr, length, ℤ, Some, None};
ghost use Rattle.fzn_model.specs.Solutions.{top};
ghost use Rattle.fzn_model.specs.Rests.{LiesWithin};
ghost use Rattle.rest_global.specs.Projected.{IsProjected, MeansRest, IsOffset};
ghost use Rattle.incumbent_board.specs.Passes.{IsAlone};
ghost use Rattle.evictor.specs.Looks.{IsLook};
ghost use Rattle.explorer.specs.declared.frame.Turn.TheVariants as turn;
ghost use Rattle.explorer.specs.declared.ticket.Ticket.TheVariants as ticket;
ghost use Rattle.explorer.specs.Benches.{IsAble};
ghost use Rattle.explorer.specs.Nodes.{IsNode};
ghost use Rattle.explorer.specs.Holding.{times_held};
ghost use Rattle.explorer.specs.Works.{IsCause};
ghost use Rattle.explorer.specs.Frames.{HasBoth, HasSide};
ghost use Rattle.explorer.specs.Looking.{IsOpenNode};
ghost use Rattle.explorer.specs.Opening.{IsProjectedBelow, IsLookedUp, IsPaid, Opens, IsStarted, IsEmptyHanded, first_frame};
ghost use Rattle.evictor.specs.Standings.{LooksAt};
ghost use Rattle.explorer.specs.RightLogs.{IsPropagated};
ghost use Rattle.explorer.specs.Recording.{IsFresh, Records, Stops};
ghost use Rattle.explorer.specs.Going.{aim, state, Goes, Ends, CanGo};

use crate::bench::Bench;
use crate::found::Found;
use crate::frame::{Frame, Side, Stop, Turn, Whole, up_at};
use crate::meter::Meter;
use crate::node::{Node, listen, look};
use crate::noting::{depth_of, note_hit, note_leaf, note_opened, note_wide_opened};
use crate::task::Task;
use crate::telling::{tell_expand, tell_hit, tell_leaf};
use crate::ticket::{Ticket, expand};
use crate::walking::push_frame;
use dom_store::Store;
use entry_slab::Shelf;
use evictor::{Cache, Look, Reader};
use fzn_model::Rest;
use incumbent_board::BoardPass;
use rest_global::{Projected, Wide, project};
use run_log::Journal;
use search_core::{Decision, Local};
use std::alloc::AllocError;

/// What is left of the model in the box.
fn project_below(task: &Task, store: &Store, seen: &i64) -> Result<Projected, AllocError>
    requires below { seen.now ≤ℤ top task.now.model.now }
    requires within { LiesWithin store.now.box task.now.model.now }
    ensures { IfOk result (IsProjectedBelow task.now.model.now store.now.box seen.now task.now.limit) }
{
    project(task.alloc, task.model, store, *seen, task.limit)
}

/// The bound that an entry needs to settle the node.
fn need(seen: &i64, offset: &i128) -> i128
    requires { IsOffset offset.now }
    ensures { result ≡ seen.now -ℤ offset.now }
{
    i128::from(*seen) - *offset
}

/// Looks a residual problem up.
fn look_up<'a, H: Shelf>(
    cache: &Cache,
    reader: &mut Reader<H>,
    rest: &'a Rest,
    need: &i128,
) -> Look<'a>
    requires own { reader.old.pass.cache ≡ cache.now }
    ensures look { IsLookedUp rest.now need.now result reader.old reader.new }
    ensures stands { LooksAt rest.now need.now result reader.old reader.new }
    ensures cache { reader.new.pass.cache ≡ reader.old.pass.cache }
{
    cache.lookup(reader, rest, *need)
}

/// Draws a credit and spends it with the ticket.
fn pay(task: &Task, ticket: Ticket<'_>, pass: &mut BoardPass, meter: &mut Meter) -> Result<(), Stop>
    requires own { pass.old.board ≡ task.now.board.now }
    requires room { meter.old.count ≤ 2 ^ 120 }
    ensures ok { OnOk result (IsPaid pass.old pass.new meter.old meter.new) }
    ensures err { IfErr result (λ stop. IsEmptyHanded stop pass.old pass.new meter.old meter.new) }
{
    let _ = pass.out();
    let Some(credit) = task.board.draw(pass) else {
        ticket.end();
        return Err(Stop::Dry);
    };
    expand(credit, ticket, meter);
    Ok(())
}

/// The first side of an expansion is held and open.
#[tactic(auto, using(crate::proofs::Opening::first_side))]
fn start(
    bench: &mut Bench,
    cut: &Decision,
    seen: &i64,
    whole: Option<Whole>,
    local: &mut Local,
) -> Result<(), Stop>
    requires room { local.old.expands ≤ 2 ^ 120 }
    requires held { 1 ≤ times_held bench.old.here local.old }
    requires both { HasBoth bench.old.store.box cut.now }
    requires able { IsAble bench.old }
    ensures ok { OnOk result (Opens cut.now seen.now whole bench.old bench.new local.old local.new) }
    ensures err { OnErr result (IsStarted bench.old bench.new local.old local.new) }
    ensures memory { IfErr result (λ stop. stop ≡ Stop.NoMemory) }
    ensures able { IsAble bench.new }
{
    if tell_expand(local, &bench.here, *cut).is_err() {
        return Err(Stop::NoMemory);
    }
    let frame = Frame {
        cut: *cut,
        side: Side::First,
        seen: *seen,
        whole,
    };
    if push_frame(bench, cut, frame).is_err() {
        return Err(Stop::NoMemory);
    }
    Ok(())
}

/// A node whose residual problem has too many words is expanded.
#[tactic(auto, using(crate::proofs::Opening::wide_goes, crate::proofs::Opening::dry_ends, crate::proofs::Opening::wide_drawn, crate::proofs::Opening::down_room, crate::proofs::Opening::down_meter, crate::proofs::Opening::down_own, crate::proofs::Opening::down_held))]
fn open_wide<H: Shelf, J: Journal>(
    task: &Task,
    bench: &mut Bench,
    cut: &Decision,
    seen: &i64,
    depth: &u32,
    wide: Wide,
    reader: &Reader<H>,
    pass: &mut BoardPass,
    local: &mut Local,
    found: &Found,
    meter: &mut Meter,
    journal: &mut J,
) -> Result<Turn, Stop>
    requires can { CanGo (aim task.now) Turn.Down (state bench.old pass.old local.old reader.now meter.old found.now) }
    requires fresh { IsFresh pass.old }
    requires seen { seen.now ≡ pass.old.seen }
    requires reached { IsPropagated task.now.model.now bench.old.here seen.now bench.old.store.box }
    requires depth { depth.now ≡ length bench.old.here }
    requires both { HasBoth bench.old.store.box cut.now }
    requires wide { IsProjectedBelow task.now.model.now bench.old.store.box seen.now task.now.limit (Projected.Wide wide) }
    requires able { IsAble bench.old }
    ensures ok { IfOk result (λ v. Goes (aim task.now) 1 Turn.Down (state bench.old pass.old local.old reader.now meter.old found.now) v (state bench.new pass.new local.new reader.now meter.new found.now)) }
    ensures err { IfErr result (λ why. Ends (aim task.now) Turn.Down (state bench.old pass.old local.old reader.now meter.old found.now) why (state bench.new pass.new local.new reader.now meter.new found.now)) }
    ensures records { IfOk result (λ v. Records (aim task.now) Turn.Down (state bench.old pass.old local.old reader.now meter.old found.now) (J.noted journal.old) v (state bench.new pass.new local.new reader.now meter.new found.now) (J.noted journal.new)) }
    ensures stops { IfErr result (λ _. Stops (aim task.now) Turn.Down (state bench.old pass.old local.old reader.now meter.old found.now) (J.noted journal.old) (state bench.new pass.new local.new reader.now meter.new found.now) (J.noted journal.new)) }
    ensures places { J.places journal.new ≡ J.places journal.old }
    ensures able { IsAble bench.new }
{
    let _ = reader;
    let _ = found;
    let words = wide.count();
    if let Err(stop) = pay(task, Ticket::Wide(wide), pass, meter) {
        return Err(stop);
    }
    note_wide_opened(journal, depth, seen, &words, cut);
    if let Err(stop) = start(bench, cut, seen, None, local) {
        return Err(stop);
    }
    Ok(Turn::Down)
}

/// A node with its residual problem is settled by the cache, or expanded.
#[tactic(auto, using(crate::proofs::Opening::hit_goes, crate::proofs::Opening::hit_ends, crate::proofs::Opening::miss_goes, crate::proofs::Opening::dry_ends, crate::proofs::Opening::miss_drawn, crate::proofs::Opening::whole_offset, crate::proofs::Opening::down_room, crate::proofs::Opening::down_meter, crate::proofs::Opening::down_own, crate::proofs::Opening::down_cache, crate::proofs::Opening::down_held))]
fn open_whole<H: Shelf, J: Journal>(
    task: &Task,
    bench: &mut Bench,
    cut: &Decision,
    seen: &i64,
    depth: &u32,
    whole: Whole,
    reader: &mut Reader<H>,
    pass: &mut BoardPass,
    local: &mut Local,
    found: &Found,
    meter: &mut Meter,
    journal: &mut J,
) -> Result<Turn, Stop>
    requires can { CanGo (aim task.now) Turn.Down (state bench.old pass.old local.old reader.old meter.old found.now) }
    requires fresh { IsFresh pass.old }
    requires seen { seen.now ≡ pass.old.seen }
    requires reached { IsPropagated task.now.model.now bench.old.here seen.now bench.old.store.box }
    requires depth { depth.now ≡ length bench.old.here }
    requires both { HasBoth bench.old.store.box cut.now }
    requires whole { IsProjectedBelow task.now.model.now bench.old.store.box seen.now task.now.limit (Projected.Whole whole.rest whole.offset) }
    requires able { IsAble bench.old }
    ensures ok { IfOk result (λ v. Goes (aim task.now) 1 Turn.Down (state bench.old pass.old local.old reader.old meter.old found.now) v (state bench.new pass.new local.new reader.new meter.new found.now)) }
    ensures err { IfErr result (λ why. Ends (aim task.now) Turn.Down (state bench.old pass.old local.old reader.old meter.old found.now) why (state bench.new pass.new local.new reader.new meter.new found.now)) }
    ensures records { IfOk result (λ v. Records (aim task.now) Turn.Down (state bench.old pass.old local.old reader.old meter.old found.now) (J.noted journal.old) v (state bench.new pass.new local.new reader.new meter.new found.now) (J.noted journal.new)) }
    ensures stops { IfErr result (λ _. Stops (aim task.now) Turn.Down (state bench.old pass.old local.old reader.old meter.old found.now) (J.noted journal.old) (state bench.new pass.new local.new reader.new meter.new found.now) (J.noted journal.new)) }
    ensures places { J.places journal.new ≡ J.places journal.old }
    ensures able { IsAble bench.new }
{
    let _ = found;
    let need = need(seen, &whole.offset);
    match look_up(task.cache, reader, &whole.rest, &need) {
        Look::Hit(_, place) => {
            if let Err(stop) = tell_hit(local, &bench.here) {
                return Err(stop);
            }
            note_hit(journal, depth, seen, &whole, &place);
            return Ok(up_at(seen));
        }
        Look::Miss(missed) => {
            let (places, reports) = (missed.places(), missed.reports());
            if let Err(stop) = pay(task, Ticket::Missed(missed), pass, meter) {
                return Err(stop);
            }
            note_opened(journal, depth, seen, &whole, &places, &reports, cut);
        }
    }
    if let Err(stop) = start(bench, cut, seen, Some(whole), local) {
        return Err(stop);
    }
    Ok(Turn::Down)
}

/// A node with a cut: its residual problem is made, and the cache settles it or it is expanded.
#[tactic(auto, using(crate::proofs::Opening::ends_same, crate::proofs::Opening::down_below, crate::proofs::Opening::down_within, crate::proofs::Resting::at_offset))]
fn open<H: Shelf, J: Journal>(
    task: &Task,
    bench: &mut Bench,
    cut: &Decision,
    seen: &i64,
    depth: &u32,
    reader: &mut Reader<H>,
    pass: &mut BoardPass,
    local: &mut Local,
    found: &Found,
    meter: &mut Meter,
    journal: &mut J,
) -> Result<Turn, Stop>
    requires can { CanGo (aim task.now) Turn.Down (state bench.old pass.old local.old reader.old meter.old found.now) }
    requires fresh { IsFresh pass.old }
    requires seen { seen.now ≡ pass.old.seen }
    requires below { seen.now ≤ℤ task.now.board.now.top }
    requires reached { IsPropagated task.now.model.now bench.old.here seen.now bench.old.store.box }
    requires depth { depth.now ≡ length bench.old.here }
    requires both { HasBoth bench.old.store.box cut.now }
    requires able { IsAble bench.old }
    ensures ok { IfOk result (λ v. Goes (aim task.now) 1 Turn.Down (state bench.old pass.old local.old reader.old meter.old found.now) v (state bench.new pass.new local.new reader.new meter.new found.now)) }
    ensures err { IfErr result (λ why. Ends (aim task.now) Turn.Down (state bench.old pass.old local.old reader.old meter.old found.now) why (state bench.new pass.new local.new reader.new meter.new found.now)) }
    ensures records { IfOk result (λ v. Records (aim task.now) Turn.Down (state bench.old pass.old local.old reader.old meter.old found.now) (J.noted journal.old) v (state bench.new pass.new local.new reader.new meter.new found.now) (J.noted journal.new)) }
    ensures stops { IfErr result (λ _. Stops (aim task.now) Turn.Down (state bench.old pass.old local.old reader.old meter.old found.now) (J.noted journal.old) (state bench.new pass.new local.new reader.new meter.new found.now) (J.noted journal.new)) }
    ensures places { J.places journal.new ≡ J.places journal.old }
    ensures able { IsAble bench.new }
{
    match project_below(task, &bench.store, seen) {
        Ok(Projected::Wide(wide)) => open_wide(
            task, bench, cut, seen, depth, wide, reader, pass, local, found, meter, journal,
        ),
        Ok(Projected::Whole(rest, offset)) => {
            let whole = Whole { rest, offset };
            open_whole(
                task, bench, cut, seen, depth, whole, reader, pass, local, found, meter, journal,
            )
        }
        Err(_) => Err(Stop::NoMemory),
    }
}

/// A node below the bound that was loaded.
#[tactic(auto, using(crate::proofs::Visiting::closed_goes, crate::proofs::Visiting::looked_ends, crate::proofs::Visiting::looked_can, crate::proofs::Visiting::looked_then, crate::proofs::Visiting::then_ends, crate::proofs::Visiting::closed_held, crate::proofs::Visiting::down_node, crate::proofs::Visiting::down_plan, crate::proofs::Visiting::down_found, crate::proofs::Visiting::open_sides, crate::proofs::Visiting::open_seen, crate::proofs::Visiting::closed_room, crate::proofs::Opening::down_room, crate::proofs::Opening::down_own))]
fn visit<H: Shelf, J: Journal>(
    task: &Task,
    bench: &mut Bench,
    seen: &i64,
    reader: &mut Reader<H>,
    pass: &mut BoardPass,
    local: &mut Local,
    found: &mut Found,
    meter: &mut Meter,
    journal: &mut J,
) -> Result<Turn, Stop>
    requires can { CanGo (aim task.now) Turn.Down (state bench.old pass.old local.old reader.old meter.old found.old) }
    requires fresh { IsFresh pass.old }
    requires seen { seen.now ≡ pass.old.seen }
    requires below { seen.now ≤ℤ task.now.board.now.top }
    requires able { IsAble bench.old }
    ensures ok { IfOk result (λ v. Goes (aim task.now) 1 Turn.Down (state bench.old pass.old local.old reader.old meter.old found.old) v (state bench.new pass.new local.new reader.new meter.new found.new)) }
    ensures err { IfErr result (λ why. Ends (aim task.now) Turn.Down (state bench.old pass.old local.old reader.old meter.old found.old) why (state bench.new pass.new local.new reader.new meter.new found.new)) }
    ensures records { IfOk result (λ v. Records (aim task.now) Turn.Down (state bench.old pass.old local.old reader.old meter.old found.old) (J.noted journal.old) v (state bench.new pass.new local.new reader.new meter.new found.new) (J.noted journal.new)) }
    ensures stops { IfErr result (λ _. Stops (aim task.now) Turn.Down (state bench.old pass.old local.old reader.old meter.old found.old) (J.noted journal.old) (state bench.new pass.new local.new reader.new meter.new found.new) (J.noted journal.new)) }
    ensures places { J.places journal.new ≡ J.places journal.old }
    ensures able { IsAble bench.new }
{
    let depth = match depth_of(&bench.here) {
        Ok(depth) => depth,
        Err(stop) => return Err(stop),
    };
    match look(task, bench, seen, pass, local, found, meter, journal) {
        Ok(Node::Closed(bound)) => {
            if let Err(stop) = tell_leaf(local, &bench.here) {
                return Err(stop);
            }
            note_leaf(journal, &depth, &bound);
            Ok(up_at(&bound))
        }
        Ok(Node::Open(cut)) => open(
            task, bench, &cut, seen, &depth, reader, pass, local, found, meter, journal,
        ),
        Err(stop) => Err(stop),
    }
}

/// One step down.
#[tactic(auto, using(crate::proofs::Visiting::heard_can, crate::proofs::Visiting::heard_then, crate::proofs::Visiting::heard_ends, crate::proofs::Visiting::heard_stops, crate::proofs::Opening::down_room, crate::proofs::Opening::down_own))]
pub(crate) fn descend<H: Shelf, J: Journal>(
    task: &Task,
    bench: &mut Bench,
    reader: &mut Reader<H>,
    pass: &mut BoardPass,
    local: &mut Local,
    found: &mut Found,
    meter: &mut Meter,
    journal: &mut J,
) -> Result<Turn, Stop>
    requires can { CanGo (aim task.now) Turn.Down (state bench.old pass.old local.old reader.old meter.old found.old) }
    requires able { IsAble bench.old }
    ensures ok { IfOk result (λ v. Goes (aim task.now) 1 Turn.Down (state bench.old pass.old local.old reader.old meter.old found.old) v (state bench.new pass.new local.new reader.new meter.new found.new)) }
    ensures err { IfErr result (λ why. Ends (aim task.now) Turn.Down (state bench.old pass.old local.old reader.old meter.old found.old) why (state bench.new pass.new local.new reader.new meter.new found.new)) }
    ensures records { IfOk result (λ v. Records (aim task.now) Turn.Down (state bench.old pass.old local.old reader.old meter.old found.old) (J.noted journal.old) v (state bench.new pass.new local.new reader.new meter.new found.new) (J.noted journal.new)) }
    ensures stops { IfErr result (λ _. Stops (aim task.now) Turn.Down (state bench.old pass.old local.old reader.old meter.old found.old) (J.noted journal.old) (state bench.new pass.new local.new reader.new meter.new found.new) (J.noted journal.new)) }
    ensures places { J.places journal.new ≡ J.places journal.old }
    ensures able { IsAble bench.new }
{
    match listen(task, pass, local) {
        Ok(seen) => visit(
            task, bench, &seen, reader, pass, local, found, meter, journal,
        ),
        Err(stop) => Err(stop),
    }
}
