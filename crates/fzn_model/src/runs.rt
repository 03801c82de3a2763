ghost use Rattle.std.specs.Prelude.{[], ◌≡◌, ◌↔◌, ◌<◌, ◌≤ℤ◌, ◌<ℤ◌, ℤ, IsTrue, IfOk, length};
ghost use Rattle.fzn_model.specs.Sets.{IsIn, AreRuns, low_of, high_of};
ghost use Rattle.fzn_model.specs.Reached.{IsFirstReaching};

use crate::list::List;
use std::alloc::{AllocError, Global};
use std::marker::Model;

/// A finite set of whole numbers as runs `(low, high)`, both ends within: the runs rise, each low is at most its high,
/// and between two of them there is a gap of one number at least. No run is the empty set.
#[derive(Debug, Drop)]
pub struct Runs {
    pub runs: List<(i64, i64)>,
}

impl Model for Runs {
    ghost use Rattle.std.specs.Prelude.{List, ℤ};

    ghost Value = { List (ℤ × ℤ) };

    ghost use Rattle.fzn_model.specs.Sets.{AreRuns};

    ghost view = { λ set. set.runs };

    ghost invariant = { λ set. AreRuns set.runs };
}

/// Whether the run ends below the value.
fn ends_below(run: &(i64, i64), value: &i64) -> bool
    ensures { IsTrue result ↔ (run.now.1 <ℤ value.now) }
{
    run.1 < *value
}

/// Whether the run begins at the value or below it.
fn begins_by(run: &(i64, i64), value: &i64) -> bool
    ensures { IsTrue result ↔ (run.now.0 ≤ℤ value.now) }
{
    run.0 <= *value
}

/// The place of the first run that ends at the value or above it, or the number of runs, by halves.
fn first_reaching(runs: &[(i64, i64)], value: &i64) -> usize
    requires { AreRuns runs.now }
    ensures { IsFirstReaching runs.now value.now result }
{
    let mut first = 0;
    let mut end = runs.len();
    while first < end {
        let middle = first + (end - first) / 2;
        if ends_below(&runs[middle], value) {
            first = middle + 1;
        } else {
            end = middle;
        }
    }
    first
}

/// Whether the value lies in one of the runs.
fn in_runs(runs: &[(i64, i64)], value: &i64) -> bool
    requires { AreRuns runs.now }
    ensures { IsTrue result ↔ IsIn runs.now value.now }
{
    let place = first_reaching(runs, value);
    if place == runs.len() {
        return false;
    }
    begins_by(&runs[place], value)
}

fn low_end(run: &(i64, i64)) -> i64
    ensures { result ≡ run.now.0 }
{
    run.0
}

fn high_end(run: &(i64, i64)) -> i64
    ensures { result ≡ run.now.1 }
{
    run.1
}

#[tactic(auto, using(crate::proofs::Tops::least, crate::proofs::Tops::low_in))]
fn least(runs: &[(i64, i64)]) -> i64
    requires runs { AreRuns runs.now }
    requires some { 0 < length runs.now }
    ensures value { result ≡ low_of runs.now }
    ensures within { IsIn runs.now result }
    ensures least { (z : ℤ) → IsIn runs.now z → result ≤ℤ z }
{
    low_end(&runs[0])
}

#[tactic(auto, using(crate::proofs::Tops::greatest, crate::proofs::Tops::high_in))]
fn greatest(runs: &[(i64, i64)]) -> i64
    requires runs { AreRuns runs.now }
    requires some { 0 < length runs.now }
    ensures value { result ≡ high_of runs.now }
    ensures within { IsIn runs.now result }
    ensures greatest { (z : ℤ) → IsIn runs.now z → z ≤ℤ result }
{
    high_end(&runs[runs.len() - 1])
}

impl Runs {
    /// Whether the value is in the set. As many steps as the logarithm of the number of runs.
    pub fn contains(&self, value: i64) -> bool
        ensures { IsTrue result ↔ IsIn self.now value }
    {
        in_runs(self.runs.as_slice(), &value)
    }

    /// The place of the first run that ends at the value or above it, or the number of runs. As many steps as the
    /// logarithm of that number.
    pub fn first_reaching(&self, value: &i64) -> usize
        ensures { IsFirstReaching self.now value.now result }
    {
        first_reaching(self.runs.as_slice(), value)
    }

    /// Whether the set is empty.
    pub fn is_empty(&self) -> bool
        ensures { IsTrue result ↔ (self.now ≡ []) }
    {
        self.runs.as_slice().is_empty()
    }

    /// The least value.
    pub fn low(&self) -> i64
        requires { 0 < length self.now }
        ensures value { result ≡ low_of self.now }
        ensures within { IsIn self.now result }
        ensures least { (z : ℤ) → IsIn self.now z → result ≤ℤ z }
    {
        least(self.runs.as_slice())
    }

    /// The greatest value.
    pub fn high(&self) -> i64
        requires { 0 < length self.now }
        ensures value { result ≡ high_of self.now }
        ensures within { IsIn self.now result }
        ensures greatest { (z : ℤ) → IsIn self.now z → z ≤ℤ result }
    {
        greatest(self.runs.as_slice())
    }

    /// The same set.
    pub fn copy(&self, alloc: Global) -> Result<Runs, AllocError>
        ensures { IfOk result (λ copy. copy ≡ self.now) }
    {
        Ok(Runs {
            runs: self.runs.copy(alloc)?,
        })
    }
}
