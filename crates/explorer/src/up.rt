// The way back up: the second side of an expansion, or the join of both.
ghost use Rattle.std.specs.Prelude.{◌≡◌, ◌≤◌, ◌^◌, ◌-ℤ◌, IfOk, IfErr, length};
ghost use Rattle.fzn_model.specs.Rests.{IsTrueEntry};
ghost use Rattle.rest_global.specs.Projected.{IsOffset};
ghost use Rattle.explorer.specs.Benches.{IsAble};
ghost use Rattle.explorer.specs.Frames.{IsSecond};
ghost use Rattle.explorer.specs.Opening.{IsStorable};
ghost use Rattle.evictor.specs.Standings.{PutsAt};
ghost use Rattle.run_log.specs.Journals.{Noted};
ghost use Rattle.explorer.specs.Recording.{StoresIn, Records, Stops};
ghost use Rattle.explorer.specs.Going.{aim, state, Goes, Ends, CanGo};

use crate::bench::Bench;
use crate::found::Found;
use crate::frame::{Closed, Frame, Side, Stop, Turn, Whole, up_at};
use crate::meter::Meter;
use crate::noting::{depth_of, note_join, note_stored};
use crate::task::Task;
use crate::telling::tell_join;
use crate::walking::{back, push_frame};
use entry_slab::{Entry, Shelf};
use evictor::{Cache, Put, Reader};
use fzn_model::Rest;
use incumbent_board::BoardPass;
use run_log::Journal;
use search_core::Local;

/// Back to the deepest open expansion, where there is one.
#[tactic(auto, using(crate::proofs::Climbing::up_levels, crate::proofs::Climbing::up_path, crate::proofs::Climbing::back_goes, crate::proofs::Climbing::done_goes))]
pub(crate) fn climb<H: Shelf>(
    task: &Task,
    bench: &mut Bench,
    closed: Closed,
    reader: &Reader<H>,
    pass: &BoardPass,
    local: &Local,
    found: &Found,
    meter: &Meter,
) -> Turn
    requires can { CanGo (aim task.now) (Turn.Up closed) (state bench.old pass.now local.now reader.now meter.now found.now) }
    requires able { IsAble bench.old }
    ensures goes { Goes (aim task.now) 1 (Turn.Up closed) (state bench.old pass.now local.now reader.now meter.now found.now) result (state bench.new pass.now local.now reader.now meter.now found.now) }
    ensures records { (j : Noted) → Records (aim task.now) (Turn.Up closed) (state bench.old pass.now local.now reader.now meter.now found.now) j result (state bench.new pass.now local.now reader.now meter.now found.now) j }
    ensures able { IsAble bench.new }
{
    let _ = task;
    let _ = reader;
    let _ = pass;
    let _ = local;
    let _ = found;
    let _ = meter;
    match back(bench) {
        Some(frame) => Turn::Back(frame, closed),
        None => Turn::Done(closed),
    }
}

/// The second side of an expansion.
#[tactic(auto, using(crate::proofs::Climbing::second_side, crate::proofs::Climbing::second_goes, crate::proofs::Climbing::failed_ends))]
fn turn_over<H: Shelf>(
    task: &Task,
    bench: &mut Bench,
    frame: Frame,
    closed: &Closed,
    reader: &Reader<H>,
    pass: &BoardPass,
    local: &Local,
    found: &Found,
    meter: &Meter,
) -> Result<Turn, Stop>
    requires can { CanGo (aim task.now) (Turn.Back frame closed.now) (state bench.old pass.now local.now reader.now meter.now found.now) }
    requires first { frame.side ≡ Side.First }
    requires able { IsAble bench.old }
    ensures ok { IfOk result (λ v. Goes (aim task.now) 1 (Turn.Back frame closed.now) (state bench.old pass.now local.now reader.now meter.now found.now) v (state bench.new pass.now local.now reader.now meter.now found.now)) }
    ensures err { IfErr result (λ why. Ends (aim task.now) (Turn.Back frame closed.now) (state bench.old pass.now local.now reader.now meter.now found.now) why (state bench.new pass.now local.now reader.now meter.now found.now)) }
    ensures records { IfOk result (λ v. (j : Noted) → Records (aim task.now) (Turn.Back frame closed.now) (state bench.old pass.now local.now reader.now meter.now found.now) j v (state bench.new pass.now local.now reader.now meter.now found.now) j) }
    ensures stops { IfErr result (λ _. (j : Noted) → Stops (aim task.now) (Turn.Back frame closed.now) (state bench.old pass.now local.now reader.now meter.now found.now) j (state bench.new pass.now local.now reader.now meter.now found.now) j) }
    ensures able { IsAble bench.new }
{
    let _ = task;
    let _ = closed;
    let _ = reader;
    let _ = pass;
    let _ = local;
    let _ = found;
    let _ = meter;
    let second = frame.cut.opposite();
    let next = Frame {
        cut: frame.cut,
        side: Side::Second,
        seen: frame.seen,
        whole: frame.whole,
    };
    if push_frame(bench, &second, next).is_err() {
        return Err(Stop::NoMemory);
    }
    Ok(Turn::Down)
}

/// The bound of an entry.
fn less_offset(bound: &i64, offset: &i128) -> i128
    requires { IsOffset offset.now }
    ensures { result ≡ bound.now -ℤ offset.now }
{
    i128::from(*bound) - *offset
}

/// Publishes a residual problem with its bound.
fn publish_at<H: Shelf>(cache: &Cache, reader: &mut Reader<H>, rest: Rest, bound: &i128) -> Put
    requires own { reader.old.pass.cache ≡ cache.now }
    requires truth { IsTrueEntry rest bound.now }
    ensures cache { reader.new.pass.cache ≡ reader.old.pass.cache }
    ensures stands { PutsAt (record { rest = rest; bound = bound.now }) result reader.old reader.new }
{
    cache.publish(reader, Entry::new(rest, *bound))
}

/// Stores the residual problem of an expansion with the bound at closing. Where it finds no room it is dropped.
#[tactic(auto, using(crate::proofs::Climbing::storable_truth, crate::proofs::Climbing::storable_offset))]
fn store_joined<H: Shelf, J: Journal>(
    cache: &Cache,
    reader: &mut Reader<H>,
    whole: Option<Whole>,
    closed: &Closed,
    journal: &mut J,
)
    requires own { reader.old.pass.cache ≡ cache.now }
    requires storable { IsStorable whole closed.now.bound }
    ensures cache { reader.new.pass.cache ≡ reader.old.pass.cache }
    ensures stores { StoresIn whole closed.now.bound (J.noted journal.old) (J.noted journal.new) reader.old reader.new }
    ensures places { J.places journal.new ≡ J.places journal.old }
{
    if let Some(whole) = whole {
        let bound = less_offset(&closed.bound, &whole.offset);
        let put = publish_at(cache, reader, whole.rest, &bound);
        note_stored(journal, &put, &bound);
    }
}

/// Joins both sides of an expansion, and stores its residual problem.
#[tactic(auto, using(crate::proofs::Climbing::back_room, crate::proofs::Climbing::back_cache, crate::proofs::Climbing::back_first, crate::proofs::Climbing::back_second, crate::proofs::Climbing::back_storable, crate::proofs::Climbing::joined_goes, crate::proofs::Climbing::told_ends))]
fn join<H: Shelf, J: Journal>(
    task: &Task,
    bench: &Bench,
    frame: Frame,
    closed: &Closed,
    reader: &mut Reader<H>,
    pass: &BoardPass,
    local: &mut Local,
    found: &Found,
    meter: &Meter,
    journal: &mut J,
) -> Result<Turn, Stop>
    requires can { CanGo (aim task.now) (Turn.Back frame closed.now) (state bench.now pass.now local.old reader.old meter.now found.now) }
    requires second { frame.side ≡ Side.Second }
    ensures ok { IfOk result (λ v. Goes (aim task.now) 1 (Turn.Back frame closed.now) (state bench.now pass.now local.old reader.old meter.now found.now) v (state bench.now pass.now local.new reader.new meter.now found.now)) }
    ensures err { IfErr result (λ why. Ends (aim task.now) (Turn.Back frame closed.now) (state bench.now pass.now local.old reader.old meter.now found.now) why (state bench.now pass.now local.new reader.new meter.now found.now)) }
    ensures records { IfOk result (λ v. Records (aim task.now) (Turn.Back frame closed.now) (state bench.now pass.now local.old reader.old meter.now found.now) (J.noted journal.old) v (state bench.now pass.now local.new reader.new meter.now found.now) (J.noted journal.new)) }
    ensures stops { IfErr result (λ _. Stops (aim task.now) (Turn.Back frame closed.now) (state bench.now pass.now local.old reader.old meter.now found.now) (J.noted journal.old) (state bench.now pass.now local.new reader.new meter.now found.now) (J.noted journal.new)) }
    ensures places { J.places journal.new ≡ J.places journal.old }
{
    let _ = pass;
    let _ = found;
    let _ = meter;
    let depth = match depth_of(&bench.here) {
        Ok(depth) => depth,
        Err(stop) => return Err(stop),
    };
    if let Err(stop) = tell_join(local, &bench.here, frame.cut) {
        return Err(stop);
    }
    note_join(journal, &depth, &closed.bound);
    store_joined(task.cache, reader, frame.whole, closed, journal);
    Ok(up_at(&closed.bound))
}

/// Goes on from an expansion whose open side is settled.
pub(crate) fn turn_back<H: Shelf, J: Journal>(
    task: &Task,
    bench: &mut Bench,
    frame: Frame,
    closed: &Closed,
    reader: &mut Reader<H>,
    pass: &BoardPass,
    local: &mut Local,
    found: &Found,
    meter: &Meter,
    journal: &mut J,
) -> Result<Turn, Stop>
    requires can { CanGo (aim task.now) (Turn.Back frame closed.now) (state bench.old pass.now local.old reader.old meter.now found.now) }
    requires able { IsAble bench.old }
    ensures ok { IfOk result (λ v. Goes (aim task.now) 1 (Turn.Back frame closed.now) (state bench.old pass.now local.old reader.old meter.now found.now) v (state bench.new pass.now local.new reader.new meter.now found.now)) }
    ensures err { IfErr result (λ why. Ends (aim task.now) (Turn.Back frame closed.now) (state bench.old pass.now local.old reader.old meter.now found.now) why (state bench.new pass.now local.new reader.new meter.now found.now)) }
    ensures records { IfOk result (λ v. Records (aim task.now) (Turn.Back frame closed.now) (state bench.old pass.now local.old reader.old meter.now found.now) (J.noted journal.old) v (state bench.new pass.now local.new reader.new meter.now found.now) (J.noted journal.new)) }
    ensures stops { IfErr result (λ _. Stops (aim task.now) (Turn.Back frame closed.now) (state bench.old pass.now local.old reader.old meter.now found.now) (J.noted journal.old) (state bench.new pass.now local.new reader.new meter.now found.now) (J.noted journal.new)) }
    ensures places { J.places journal.new ≡ J.places journal.old }
    ensures able { IsAble bench.new }
{
    match frame.side {
        Side::First => turn_over(
            task, bench, frame, closed, reader, pass, local, found, meter,
        ),
        Side::Second => join(
            task, bench, frame, closed, reader, pass, local, found, meter, journal,
        ),
    }
}
