//! Sets of numbers.

ghost use Rattle.std.specs.Prelude.{◌≡◌, ◌∷◌, ◌++◌, [], ◌≤ℤ◌, not, ◌||◌, IfOk, OnOk, filter, length};
ghost use Rattle.std.specs.Bool.{OnFalse};
ghost use Rattle.std.specs.Ordering.{int_cmp, int_eq};
ghost use Rattle.std.specs.List.{list_any};
ghost use Rattle.std.specs.BTreeSet.{keys_between};
ghost use Rattle.std.specs.declared.ops.Bound.TheVariants.{Included};
ghost use Rattle.std.specs.List.Sorted.{IsStrictlySortedBy};
ghost use Rattle.fzn_model.specs.Limits.{TermIn};
ghost use Rattle.fzn_model.specs.Boxes.{IsDomain};
ghost use Rattle.fzn_model.specs.Bounds.{term_low, term_high};
ghost use Rattle.rest_basic.specs.Forms.{term_values};
ghost use Rattle.rest_forms.specs.Forms.{term_has, has_twice, share_one};
ghost use Rattle.rest_forms.specs.Numbers.{HasSame, IsWith, IsWithout, AreMoved, HadAreMoved};

use crate::values::{push, term_has};
use fzn_model::{BoxView, List, Term};
use rest_basic::{high_of, low_of};
use std::alloc::{AllocError, Global};
use std::collections::BTreeSet;
use std::collections::btree_set::Range;

/// Adds a number, and tells whether it is new.
#[tactic(auto, using(crate::proofs::NumberSets::inserted))]
fn insert(numbers: &mut BTreeSet<i64>, number: &i64) -> Result<bool, AllocError>
    ensures new { IfOk result (λ new. new ≡ not (list_any (int_eq number.now) numbers.old.keys)) }
    ensures has { OnOk result (IsWith number.now numbers.old.keys numbers.new.keys) }
{
    Ok(numbers.insert(*number)?)
}

/// Takes a number out.
#[tactic(auto, using(crate::proofs::NumberSets::removed))]
fn remove(numbers: &mut BTreeSet<i64>, number: &i64)
    ensures { IsWithout number.now numbers.old.keys numbers.new.keys }
{
    let _was = numbers.remove(number);
}

/// The numbers of a list.
#[tactic(auto, using(crate::proofs::NumberSets::same_none, crate::proofs::NumberSets::same_all))]
pub(crate) fn set_of(alloc: Global, list: &[i64]) -> Result<BTreeSet<i64>, AllocError>
    ensures { IfOk result (λ numbers. HasSame list.now numbers.keys) }
{
    let mut numbers = BTreeSet::new(alloc);
    for number in list {
        let _new = insert(&mut numbers, number)?;
    }
    Ok(numbers)
}

/// Adds the numbers of a list, unless one of them is there already or twice in the list, and tells whether one is.
#[tactic(auto, using(crate::proofs::NumberSets::clash_here, crate::proofs::NumberSets::clash_none, crate::proofs::NumberSets::same_all))]
pub(crate) fn clash_with(numbers: &mut BTreeSet<i64>, list: &[i64]) -> Result<bool, AllocError>
    ensures clash { IfOk result (λ clash. clash ≡ (has_twice list.now || share_one list.now numbers.old.keys)) }
    ensures has { IfOk result (λ clash. OnFalse clash (HasSame (list.now ++ numbers.old.keys) numbers.new.keys)) }
{
    for number in list {
        if !insert(numbers, number)? {
            return Ok(true);
        }
    }
    Ok(false)
}

/// The numbers from one to another, rising.
#[tactic(auto, using(crate::proofs::NumberSets::forward))]
fn between<'a>(numbers: &'a BTreeSet<i64>, low: &i64, high: &i64) -> Range<'a, i64>
    requires { low.now ≤ℤ high.now }
    ensures { result ≡ keys_between int_cmp (Included low.now) (Included high.now) numbers.now }
{
    numbers.range(low..=high)
}

/// The numbers that the term, with these bounds, can have, rising.
#[tactic(auto, using(rest_basic::proofs::GatheredRuns::domain_order))]
fn had_between<V: BoxView>(
    alloc: Global,
    numbers: &BTreeSet<i64>,
    x: Term,
    low: &i64,
    high: &i64,
    view: &V,
) -> Result<Vec<i64>, AllocError>
    requires x { TermIn (length (V.shape view.now)) x }
    requires values { IsDomain (term_values (V.shape view.now) x) }
    requires low { low.now ≡ term_low (V.shape view.now) x }
    requires high { high.now ≡ term_high (V.shape view.now) x }
    ensures { IfOk result (λ had. had.items ≡ filter (λ z. term_has (V.shape view.now) z x) numbers.now.keys) }
{
    let mut had = Vec::new(alloc);
    for number in between(numbers, low, high) {
        if term_has(x, number, view) {
            push(&mut had, number)?;
        }
    }
    Ok(had)
}

/// The numbers that the term can have, rising.
fn had_by<V: BoxView>(
    alloc: Global,
    numbers: &BTreeSet<i64>,
    x: Term,
    view: &V,
) -> Result<Vec<i64>, AllocError>
    requires { TermIn (length (V.shape view.now)) x }
    ensures { IfOk result (λ had. had.items ≡ filter (λ z. term_has (V.shape view.now) z x) numbers.now.keys) }
{
    had_between(alloc, numbers, x, &low_of(x, view), &high_of(x, view), view)
}

/// Moves numbers from one set to another.
#[tactic(auto, using(crate::proofs::NumberSets::moved_none, crate::proofs::NumberSets::moved_all))]
fn move_all(
    numbers: &[i64],
    from: &mut BTreeSet<i64>,
    to: &mut BTreeSet<i64>,
) -> Result<(), AllocError>
    ensures { OnOk result (AreMoved numbers.now from.old.keys from.new.keys to.old.keys to.new.keys) }
{
    for number in numbers {
        remove(from, number);
        let _new = insert(to, number)?;
    }
    Ok(())
}

/// Moves those numbers that the term can have from one set to another.
#[tactic(auto, using(crate::proofs::NumberSets::had_moved))]
pub(crate) fn move_had<V: BoxView>(
    alloc: Global,
    x: Term,
    from: &mut BTreeSet<i64>,
    to: &mut BTreeSet<i64>,
    view: &V,
) -> Result<(), AllocError>
    requires { TermIn (length (V.shape view.now)) x }
    ensures { OnOk result (HadAreMoved (V.shape view.now) x from.old.keys from.new.keys to.old.keys to.new.keys) }
{
    let had = had_by(alloc, from, x, view)?;
    move_all(had.as_slice(), from, to)
}

/// The numbers of a set, rising.
pub(crate) fn list_of(alloc: Global, numbers: BTreeSet<i64>) -> Result<List<i64>, AllocError>
    ensures is { IfOk result (λ list. list ≡ numbers.keys) }
    ensures rising { IfOk result (IsStrictlySortedBy int_cmp) }
{
    let list: Vec<i64> = numbers.into_iter().collect(alloc)?;
    Ok(List::from_vec(list))
}
