//! Where an entry is stored, and how.

ghost use Rattle.std.specs.Prelude.{◌≡◌, ◌≢◌, ◌<◌, ◌-◌, ℕ, length, All, IfSome, IfNone, IsTrue};
ghost use Rattle.std.specs.List.{position};
ghost use Rattle.evictor.specs.Reports.{is_weak, is_free};
ghost use Rattle.evictor.specs.Puts.{place_or, place_taken};

use crate::report::Report;

fn is_weak(report: &Report) -> bool
    ensures { result ≡ is_weak report.now }
{
    match report {
        Report::Weak(_) => true,
        Report::Empty | Report::Gone | Report::Unlike | Report::NoCache => false,
    }
}

fn is_free(report: &Report) -> bool
    ensures { result ≡ is_free report.now }
{
    match report {
        Report::Empty | Report::Gone => true,
        Report::Weak(_) | Report::Unlike | Report::NoCache => false,
    }
}

/// The number of the first report that is weak.
fn first_weak(reports: &[Report]) -> Option<usize>
    ensures value { result ≡ position is_weak reports.now }
    ensures below { IfSome result (λ at. at < length reports.now) }
{
    reports.iter().position(|report| is_weak(report))
}

/// The number of the first report on a word that is 0 or whose reading found nothing.
fn first_free(reports: &[Report]) -> Option<usize>
    ensures value { result ≡ position is_free reports.now }
    ensures below { IfSome result (λ at. at < length reports.now) }
{
    reports.iter().position(|report| is_free(report))
}

/// The place of that number, or the other one.
fn place_or(places: &[u32; 8], other: u32, at: Option<usize>) -> u32
    requires { IfSome at (λ k. k < 8) }
    ensures place { result ≡ place_or places.now other at }
    ensures below { (n : ℕ) → All (λ place. place < n) places.now → other < n → result < n }
{
    match at {
        Some(at) => places[at],
        None => other,
    }
}

/// The place that is taken, where `other` is the one by turn.
#[tactic(auto, unfolding(crate::specs::Puts::place_taken))]
pub(crate) fn place_taken(places: &[u32; 8], reports: &[Report; 8], other: u32) -> u32
    ensures place { result ≡ place_taken places.now reports.now other }
    ensures below { (n : ℕ) → All (λ place. place < n) places.now → other < n → result < n }
{
    let free = place_or(places, other, first_free(reports));
    place_or(places, free, first_weak(reports))
}
