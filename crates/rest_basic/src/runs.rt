//! The values of a term as runs, and those that a set has.

ghost use Rattle.std.specs.Prelude.{◌≡◌, ◌↔◌, ◌≤ℤ◌, ◌<ℤ◌, ◌+ℤ◌, ◌-ℤ◌, pos, ◌∷◌, ◌++◌, [], IfOk, OnOk, IsTrue, Contains, length};
ghost use Rattle.fzn_model.specs.Sets.{IsIn};
ghost use Rattle.fzn_model.specs.Limits.{IsValue, TermIn};
ghost use Rattle.fzn_model.specs.Boxes.{IsDomain};
ghost use Rattle.fzn_model.specs.Bounds.{term_low, term_high};
ghost use Rattle.fzn_model.specs.Grouping.{runs_of};
ghost use Rattle.rest_basic.specs.Forms.{term_values, set_left};
ghost use Rattle.rest_basic.specs.Gathered.{Gathered, AreBelow, IsAdded, HasAll, meets, cut, clipped};

use crate::view::{can_have, high_of, low_of, size_of};
use fzn_model::{BoxView, List, Runs, Term};
use std::alloc::{AllocError, Global};

/// A variable whose greatest value less its least is at least this has no gap.
const WIDE: i64 = 1_024;

/// Whether the number is one more than the greatest of a run.
fn touches(run: &(i64, i64), number: &i64) -> bool
    ensures { IsTrue result ↔ (run.now.1 +ℤ pos 1 ≡ number.now) }
{
    i128::from(run.1) + 1 == i128::from(*number)
}

/// The run of one number.
fn alone(number: &i64) -> (i64, i64)
    ensures { result ≡ (number.now, number.now) }
{
    (*number, *number)
}

/// The run from the least of another to a number.
fn up_to(run: &(i64, i64), number: &i64) -> (i64, i64)
    ensures { result ≡ (run.now.0, number.now) }
{
    (run.0, *number)
}

/// Adds a run at the end.
fn push(runs: &mut Vec<(i64, i64)>, run: (i64, i64)) -> Result<(), AllocError>
    ensures { OnOk result (runs.new.items ≡ runs.old.items ++ run ∷ []) }
{
    runs.push(run)?;
    Ok(())
}

/// Adds a number that is greater than all of the set.
#[tactic(auto, using(crate::proofs::GatheredRuns::add_first, crate::proofs::GatheredRuns::add_touching, crate::proofs::GatheredRuns::add_apart))]
fn add_greatest(runs: &mut Vec<(i64, i64)>, number: &i64) -> Result<(), AllocError>
    requires { AreBelow number.now runs.old.items }
    ensures { OnOk result (IsAdded number.now runs.old.items runs.new.items) }
{
    match runs.pop() {
        None => {
            push(runs, alone(number))?;
        }
        Some(last) if touches(&last, number) => {
            push(runs, up_to(&last, number))?;
        }
        Some(last) => {
            push(runs, last)?;
            push(runs, alone(number))?;
        }
    }
    Ok(())
}

/// Whether the term can have the number, and the set has it.
fn is_left<V: BoxView>(x: Term, set: &Runs, number: &i64, view: &V) -> bool
    requires { TermIn (length (V.shape view.now)) x }
    ensures { IsTrue result ↔ (Contains (term_values (V.shape view.now) x) number.now × IsIn set.now number.now) }
{
    can_have(x, *number, view) && set.contains(*number)
}

/// Adds the next number where the term can have it and the set has it.
#[tactic(auto, using(crate::proofs::GatheredRuns::are_below, crate::proofs::GatheredRuns::added, crate::proofs::GatheredRuns::passed))]
fn gather_next<V: BoxView>(
    runs: &mut Vec<(i64, i64)>,
    x: Term,
    set: &Runs,
    number: &i64,
    view: &V,
) -> Result<(), AllocError>
    requires term { TermIn (length (V.shape view.now)) x }
    requires runs { Gathered (term_values (V.shape view.now) x) set.now number.now runs.old.items }
    ensures { OnOk result (Gathered (term_values (V.shape view.now) x) set.now (number.now +ℤ pos 1) runs.new.items) }
{
    if is_left(x, set, number, view) {
        add_greatest(runs, number)?;
    }
    Ok(())
}

/// The numbers of the set that a term between two numbers can have.
fn gather<V: BoxView>(
    alloc: Global,
    x: Term,
    set: &Runs,
    low: i64,
    end: i64,
    view: &V,
) -> Result<Runs, AllocError>
    requires term { TermIn (length (V.shape view.now)) x }
    requires well_formed { IsDomain (term_values (V.shape view.now) x) }
    requires low { low ≡ term_low (V.shape view.now) x }
    requires end { term_high (V.shape view.now) x <ℤ end }
    ensures { IfOk result (λ left. left ≡ set_left (V.shape view.now) set.now x) }
{
    let mut runs = Vec::new(alloc);
    for number in low..end {
        gather_next(&mut runs, x, set, &number, view)?;
    }
    Ok(Runs {
        runs: List::from_vec(runs),
    })
}

/// Whether the run has a number between the bounds.
fn meets(run: &(i64, i64), bounds: &(i64, i64)) -> bool
    ensures { result ≡ meets bounds.now.0 bounds.now.1 run.now }
{
    run.0 <= bounds.1 && bounds.0 <= run.1
}

/// The run, cut off at the bounds.
fn cut(run: &(i64, i64), bounds: &(i64, i64)) -> (i64, i64)
    ensures { result ≡ cut bounds.now.0 bounds.now.1 run.now }
{
    (run.0.max(bounds.0), run.1.min(bounds.1))
}

/// The numbers of a set from a number to another.
#[tactic(auto, unfolding(crate::specs::Gathered::clipped))]
fn clipped(
    alloc: Global,
    set: &[(i64, i64)],
    bounds: &(i64, i64),
) -> Result<List<(i64, i64)>, AllocError>
    ensures { IfOk result (λ left. left ≡ clipped bounds.now.0 bounds.now.1 set.now) }
{
    let mut left = List::new(alloc);
    for run in set {
        if meets(run, bounds) {
            left.push(cut(run, bounds))?;
        }
    }
    Ok(left)
}

/// The least and the greatest value of a term.
#[tactic(auto, using(crate::proofs::GatheredRuns::domain_order))]
pub(crate) fn bounds_of<V: BoxView>(x: Term, view: &V) -> (i64, i64)
    requires { TermIn (length (V.shape view.now)) x }
    ensures low { result.0 ≡ term_low (V.shape view.now) x }
    ensures high { result.1 ≡ term_high (V.shape view.now) x }
    ensures order { result.0 ≤ℤ result.1 }
    ensures small_low { IsValue result.0 }
    ensures small_high { IsValue result.1 }
    ensures well_formed { IsDomain (term_values (V.shape view.now) x) }
{
    (low_of(x, view), high_of(x, view))
}

/// Whether no number lies between the bounds.
fn is_near(bounds: &(i64, i64)) -> bool
    requires low { IsValue bounds.now.0 }
    requires high { IsValue bounds.now.1 }
    ensures { IsTrue result ↔ ((bounds.now.1 -ℤ bounds.now.0) ≤ℤ pos 1) }
{
    bounds.1 - bounds.0 <= 1
}

/// Whether a variable with these bounds has no gap, whatever its values are.
fn is_wide(bounds: &(i64, i64)) -> bool
    requires low { IsValue bounds.now.0 }
    requires high { IsValue bounds.now.1 }
    ensures { IsTrue result ↔ (pos 1024 ≤ℤ (bounds.now.1 -ℤ bounds.now.0)) }
{
    bounds.1 - bounds.0 >= WIDE
}

/// Whether the term has as many values as there are numbers from the one bound to the other.
fn is_full<V: BoxView>(x: Term, bounds: &(i64, i64), view: &V) -> bool
    requires term { TermIn (length (V.shape view.now)) x }
    requires low { IsValue bounds.now.0 }
    requires high { IsValue bounds.now.1 }
    ensures { IsTrue result ↔ ((bounds.now.1 -ℤ bounds.now.0) <ℤ pos (length (term_values (V.shape view.now) x))) }
{
    i128::from(bounds.1 - bounds.0) < i128::from(size_of(x, view))
}

/// Whether the values of a term with these bounds have no gap.
#[tactic(auto, using(crate::proofs::WholeDomains::near_whole, crate::proofs::WholeDomains::wide_whole, crate::proofs::WholeDomains::full_whole))]
fn is_whole<V: BoxView>(x: Term, bounds: &(i64, i64), view: &V) -> bool
    requires term { TermIn (length (V.shape view.now)) x }
    requires well_formed { IsDomain (term_values (V.shape view.now) x) }
    requires low { bounds.now.0 ≡ term_low (V.shape view.now) x }
    requires high { bounds.now.1 ≡ term_high (V.shape view.now) x }
    requires small_low { IsValue bounds.now.0 }
    requires small_high { IsValue bounds.now.1 }
    ensures { IsTrue result → HasAll (term_values (V.shape view.now) x) bounds.now.0 bounds.now.1 }
{
    is_near(bounds) || is_wide(bounds) || is_full(x, bounds, view)
}

/// The numbers of a set that a term can have, where its values have no gap.
#[tactic(auto, using(crate::proofs::GatheredRuns::clipped_runs, crate::proofs::GatheredRuns::clipped_left))]
fn set_between<V: BoxView>(
    alloc: Global,
    x: Term,
    set: &Runs,
    bounds: &(i64, i64),
    view: &V,
) -> Result<Runs, AllocError>
    requires well_formed { IsDomain (term_values (V.shape view.now) x) }
    requires low { bounds.now.0 ≡ term_low (V.shape view.now) x }
    requires high { bounds.now.1 ≡ term_high (V.shape view.now) x }
    requires whole { HasAll (term_values (V.shape view.now) x) bounds.now.0 bounds.now.1 }
    ensures { IfOk result (λ left. left ≡ set_left (V.shape view.now) set.now x) }
{
    Ok(Runs {
        runs: clipped(alloc, set.runs.as_slice(), bounds)?,
    })
}

/// The numbers of a set that a term can have.
pub(crate) fn set_left<V: BoxView>(
    alloc: Global,
    x: Term,
    set: &Runs,
    view: &V,
) -> Result<Runs, AllocError>
    requires { TermIn (length (V.shape view.now)) x }
    ensures { IfOk result (λ left. left ≡ set_left (V.shape view.now) set.now x) }
{
    let bounds = bounds_of(x, view);
    if is_whole(x, &bounds, view) {
        return set_between(alloc, x, set, &bounds, view);
    }
    gather(alloc, x, set, bounds.0, bounds.1 + 1, view)
}

/// The set of one run.
fn one_run(alloc: Global, run: (i64, i64)) -> Result<Runs, AllocError>
    requires { run.0 ≤ℤ run.1 }
    ensures { IfOk result (λ set. set ≡ run ∷ []) }
{
    let mut runs = List::new(alloc);
    runs.push(run)?;
    Ok(Runs { runs })
}

/// Whether the term can have the number.
fn is_value<V: BoxView>(x: Term, number: &i64, view: &V) -> bool
    requires { TermIn (length (V.shape view.now)) x }
    ensures { IsTrue result ↔ Contains (term_values (V.shape view.now) x) number.now }
{
    can_have(x, *number, view)
}

/// Adds the next number where the term can have it.
#[tactic(auto, using(crate::proofs::GatheredRuns::are_below, crate::proofs::WholeDomains::passed_value))]
fn gather_value<V: BoxView>(
    runs: &mut Vec<(i64, i64)>,
    x: Term,
    bounds: &(i64, i64),
    number: &i64,
    view: &V,
) -> Result<(), AllocError>
    requires term { TermIn (length (V.shape view.now)) x }
    requires well_formed { IsDomain (term_values (V.shape view.now) x) }
    requires low { bounds.now.0 ≡ term_low (V.shape view.now) x }
    requires high { bounds.now.1 ≡ term_high (V.shape view.now) x }
    requires runs { Gathered (term_values (V.shape view.now) x) (bounds.now ∷ []) number.now runs.old.items }
    ensures { OnOk result (Gathered (term_values (V.shape view.now) x) (bounds.now ∷ []) (number.now +ℤ pos 1) runs.new.items) }
{
    if is_value(x, number, view) {
        add_greatest(runs, number)?;
    }
    Ok(())
}

/// The values of a term with these bounds, the least as `low` again, and `end` one more than the greatest.
fn gather_values<V: BoxView>(
    alloc: Global,
    x: Term,
    bounds: &(i64, i64),
    low: i64,
    end: i64,
    view: &V,
) -> Result<Runs, AllocError>
    requires term { TermIn (length (V.shape view.now)) x }
    requires well_formed { IsDomain (term_values (V.shape view.now) x) }
    requires least { bounds.now.0 ≡ term_low (V.shape view.now) x }
    requires greatest { bounds.now.1 ≡ term_high (V.shape view.now) x }
    requires low { low ≡ term_low (V.shape view.now) x }
    requires end { term_high (V.shape view.now) x <ℤ end }
    ensures { IfOk result (λ values. values ≡ runs_of (term_values (V.shape view.now) x)) }
{
    let mut runs = Vec::new(alloc);
    for number in low..end {
        gather_value(&mut runs, x, bounds, &number, view)?;
    }
    Ok(Runs {
        runs: List::from_vec(runs),
    })
}

/// The values of a term in the box, as runs. Without a gap they are one run, which takes no walk over them; else each
/// number from the least to the greatest is asked for. The one error is that memory runs out.
pub fn runs_of_values<V: BoxView>(alloc: Global, x: Term, view: &V) -> Result<Runs, AllocError>
    requires { TermIn (length (V.shape view.now)) x }
    ensures { IfOk result (λ values. values ≡ runs_of (term_values (V.shape view.now) x)) }
{
    let bounds = bounds_of(x, view);
    if is_whole(x, &bounds, view) {
        let values = one_run(alloc, bounds)?;
        return Ok(values);
    }
    gather_values(alloc, x, &bounds, bounds.0, bounds.1 + 1, view)
}
