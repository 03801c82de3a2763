// The loop of a search.
ghost use Rattle.std.specs.Prelude.{◌≡◌, IfOk, IfErr};
ghost use Rattle.explorer.specs.Benches.{IsAble};
ghost use Rattle.explorer.specs.Turns.{IsGoing};
ghost use Rattle.explorer.specs.Recording.{Records, Stops};
ghost use Rattle.explorer.specs.Going.{aim, state, Goes, Ends, CanGo};

use crate::bench::Bench;
use crate::down::descend;
use crate::found::Found;
use crate::frame::{Closed, Stop, Turn};
use crate::meter::Meter;
use crate::task::Task;
use crate::up::{climb, turn_back};
use entry_slab::Shelf;
use evictor::Reader;
use incumbent_board::BoardPass;
use run_log::Journal;
use search_core::Local;

/// One step.
#[tactic(auto, unfolding(crate::specs::Turns::IsGoing))]
fn advance<H: Shelf, J: Journal>(
    task: &Task,
    bench: &mut Bench,
    turn: Turn,
    reader: &mut Reader<H>,
    pass: &mut BoardPass,
    local: &mut Local,
    found: &mut Found,
    meter: &mut Meter,
    journal: &mut J,
) -> Result<Turn, Stop>
    requires going { IsGoing turn }
    requires can { CanGo (aim task.now) turn (state bench.old pass.old local.old reader.old meter.old found.old) }
    requires able { IsAble bench.old }
    ensures ok { IfOk result (λ v. Goes (aim task.now) 1 turn (state bench.old pass.old local.old reader.old meter.old found.old) v (state bench.new pass.new local.new reader.new meter.new found.new)) }
    ensures err { IfErr result (λ why. Ends (aim task.now) turn (state bench.old pass.old local.old reader.old meter.old found.old) why (state bench.new pass.new local.new reader.new meter.new found.new)) }
    ensures records { IfOk result (λ v. Records (aim task.now) turn (state bench.old pass.old local.old reader.old meter.old found.old) (J.noted journal.old) v (state bench.new pass.new local.new reader.new meter.new found.new) (J.noted journal.new)) }
    ensures stops { IfErr result (λ _. Stops (aim task.now) turn (state bench.old pass.old local.old reader.old meter.old found.old) (J.noted journal.old) (state bench.new pass.new local.new reader.new meter.new found.new) (J.noted journal.new)) }
    ensures places { J.places journal.new ≡ J.places journal.old }
    ensures able { IsAble bench.new }
{
    match turn {
        Turn::Down => descend(task, bench, reader, pass, local, found, meter, journal),
        Turn::Up(closed) => Ok(climb(task, bench, closed, reader, pass, local, found, meter)),
        Turn::Back(frame, closed) => turn_back(
            task, bench, frame, &closed, reader, pass, local, found, meter, journal,
        ),
        Turn::Done(_) => unreachable!(),
    }
}

/// Searches from the node that the bench shows.
#[tactic(auto, unfolding(crate::specs::Turns::IsGoing), using(crate::proofs::Going::goes_none, crate::proofs::Going::goes_more, crate::proofs::Going::can_go, crate::proofs::Going::goes_ends, crate::proofs::Going::goes_less))]
pub(crate) fn search<H: Shelf, J: Journal>(
    task: &Task,
    bench: &mut Bench,
    reader: &mut Reader<H>,
    pass: &mut BoardPass,
    local: &mut Local,
    found: &mut Found,
    meter: &mut Meter,
    journal: &mut J,
) -> Result<Closed, Stop>
    requires can { CanGo (aim task.now) Turn.Down (state bench.old pass.old local.old reader.old meter.old found.old) }
    requires able { IsAble bench.old }
    ensures ok { IfOk result (λ closed. Goes (aim task.now) 0 Turn.Down (state bench.old pass.old local.old reader.old meter.old found.old) (Turn.Done closed) (state bench.new pass.new local.new reader.new meter.new found.new)) }
    ensures err { IfErr result (λ why. Ends (aim task.now) Turn.Down (state bench.old pass.old local.old reader.old meter.old found.old) why (state bench.new pass.new local.new reader.new meter.new found.new)) }
    ensures records { IfOk result (λ closed. Records (aim task.now) Turn.Down (state bench.old pass.old local.old reader.old meter.old found.old) (J.noted journal.old) (Turn.Done closed) (state bench.new pass.new local.new reader.new meter.new found.new) (J.noted journal.new)) }
    ensures stops { IfErr result (λ _. Stops (aim task.now) Turn.Down (state bench.old pass.old local.old reader.old meter.old found.old) (J.noted journal.old) (state bench.new pass.new local.new reader.new meter.new found.new) (J.noted journal.new)) }
    ensures places { J.places journal.new ≡ J.places journal.old }
    ensures able { IsAble bench.new }
{
    let mut turn = Turn::Down;
    'steps: loop {
        if let Turn::Done(closed) = turn {
            return Ok(closed);
        }
        match advance(
            task, bench, turn, reader, pass, local, found, meter, journal,
        ) {
            Ok(next) => turn = next,
            Err(stop) => return Err(stop),
        }
    }
}
