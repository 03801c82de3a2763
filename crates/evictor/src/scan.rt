//! The reading of the words at some places.

ghost use Rattle.std.specs.Prelude.{◌≡◌, ◌<◌, ℕ, List, ℤ, length, All};
ghost use Rattle.evictor.specs.Reports.{IsFound, gone_by, gone_in, IsOneOfEight, IsScan};
ghost use Rattle.evictor.specs.Readers.{raised, CountsAbsences};

use crate::found::Found;
use crate::report::Report;
use entry_slab::{Reading, Shelf};
use fzn_model::Rest;

/// What reading eight places in order found: the first entry that serves, with the reports on those before it; or none, with a
/// report on each.
pub(crate) enum Scanned {
    Served {
        bound: i128,
        at: usize,
        reports: [Report; 8],
    },
    Unserved {
        reports: [Report; 8],
    },
}

/// Reads the entry that a word leads to, and counts where the shelf finds nothing.
#[tactic(auto, unfolding(crate::specs::Reports::IsReport, crate::specs::Reports::IsServed, entry_slab::specs::Readings::CountsAbsence))]
fn read_word<H: Shelf>(word: u64, shelf: &mut H, gone: &mut u64, rest: &Rest, need: &i128) -> Found
    ensures found { IsFound (H.contents shelf.old) rest.now need.now word result }
    ensures contents { H.contents shelf.new ≡ H.contents shelf.old }
    ensures refusals { H.refusals shelf.new ≡ H.refusals shelf.old }
    ensures absences { CountsAbsences (gone_by result) (H.absences shelf.old) (H.absences shelf.new) }
    ensures gone { gone.new ≡ raised gone.old (gone_by result) }
{
    if word == 0 {
        return Found::Not(Report::Empty);
    }
    match shelf.with(word - 1, rest, *need) {
        Reading::Hit(bound) => Found::Serves(bound),
        Reading::Weak(bound) => Found::Not(Report::Weak(bound)),
        Reading::Unlike => Found::Not(Report::Unlike),
        Reading::Gone => {
            *gone = gone.saturating_add(1);
            Found::Not(Report::Gone)
        }
    }
}

/// Reads the words at eight places in order, up to the first that leads to an entry that serves.
pub(crate) fn scan<H: Shelf>(
    words: &[u64],
    places: &[u32; 8],
    shelf: &mut H,
    gone: &mut u64,
    rest: &Rest,
    need: &i128,
) -> Scanned
    requires { All (λ place. place < length words.now) places.now }
    ensures eight { IsOneOfEight result }
    ensures scan { IsScan (H.contents shelf.old) words.now rest.now need.now places.now result }
    ensures contents { H.contents shelf.new ≡ H.contents shelf.old }
    ensures refusals { H.refusals shelf.new ≡ H.refusals shelf.old }
    ensures absences { CountsAbsences (gone_in result) (H.absences shelf.old) (H.absences shelf.new) }
    ensures gone { gone.new ≡ raised gone.old (gone_in result) }
{
    let mut reports = [Report::NoCache; 8];
    for at in 0..8 {
        match read_word(words[places[at] as usize], shelf, gone, rest, need) {
            Found::Serves(bound) => return Scanned::Served { bound, at, reports },
            Found::Not(report) => reports[at] = report,
        }
    }
    Scanned::Unserved { reports }
}
