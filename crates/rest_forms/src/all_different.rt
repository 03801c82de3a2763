//! Values that differ.

ghost use Rattle.std.specs.Prelude.{◌≡◌, ◌++◌, not, ◌||◌, if◌then◌else◌, IfOk, IfSome, is_some, All, length};
ghost use Rattle.fzn_model.specs.declared.con.Con.TheVariants as con;
ghost use Rattle.fzn_model.specs.Limits.{TermIn};
ghost use Rattle.rest_basic.specs.Forms.{open_terms};
ghost use Rattle.rest_basic.specs.declared.reduced.Reduced.TheVariants as reduced;
ghost use Rattle.rest_forms.specs.Forms.{fixed_values, has_twice, share_one, is_decided, taken_left, all_different_form};
ghost use Rattle.rest_forms.specs.Numbers.{HasSame, AreParted};

use crate::numbers::{clash_with, list_of, move_had, set_of};
use crate::rising::{are_rising, had_of, in_order};
use crate::values::fixed_values;
use fzn_model::{BoxView, Con, List, Term};
use rest_basic::{Reduced, empty_clause, is_open_in, open_terms_in};
use std::alloc::{AllocError, Global};
use std::collections::BTreeSet;

/// The numbers of a set that some open term can have.
#[tactic(auto, using(crate::proofs::TakenLeft::parted_none, crate::proofs::TakenLeft::parted_all))]
fn had_by_open<V: BoxView>(
    alloc: Global,
    xs: &[Term],
    numbers: &mut BTreeSet<i64>,
    view: &V,
) -> Result<BTreeSet<i64>, AllocError>
    requires { All (TermIn (length (V.shape view.now))) xs.now }
    ensures { IfOk result (λ had. AreParted (V.shape view.now) xs.now numbers.old.keys numbers.new.keys had.keys) }
{
    let mut had = BTreeSet::new(alloc);
    for x in xs {
        if is_open_in(*x, view) {
            move_had(alloc, *x, numbers, &mut had, view)?;
        }
    }
    Ok(had)
}

/// Those taken numbers and values of fixed members that some open member can have, rising.
#[tactic(auto, using(crate::proofs::TakenLeft::left_taken))]
fn taken_left<V: BoxView>(
    alloc: Global,
    xs: &[Term],
    numbers: &mut BTreeSet<i64>,
    taken: &[i64],
    fixed: &[i64],
    view: &V,
) -> Result<List<i64>, AllocError>
    requires xs { All (TermIn (length (V.shape view.now))) xs.now }
    requires fixed { fixed.now ≡ fixed_values (V.shape view.now) xs.now }
    requires numbers { HasSame (taken.now ++ fixed.now) numbers.old.keys }
    ensures { IfOk result (λ left. left ≡ taken_left (V.shape view.now) xs.now taken.now) }
{
    let had = had_by_open(alloc, xs, numbers, view)?;
    list_of(alloc, had)
}

/// Whether no member is open, or one whose values are all free.
fn is_decided(members: &[Term], taken: &[i64]) -> bool
    ensures { result ≡ is_decided members.now taken.now }
{
    match members {
        [] => true,
        [_] => taken.is_empty(),
        _ => false,
    }
}

/// The taken numbers and the values of fixed members, unless two of them are equal.
#[tactic(auto, using(crate::proofs::TakenLeft::all_clash, crate::proofs::TakenLeft::all_apart, crate::proofs::TakenLeft::all_same))]
fn all_taken(
    alloc: Global,
    taken: &[i64],
    fixed: &[i64],
) -> Result<Option<BTreeSet<i64>>, AllocError>
    ensures some { IfOk result (λ numbers. is_some numbers ≡ not (has_twice fixed.now || share_one fixed.now taken.now)) }
    ensures has { IfOk result (λ numbers. IfSome numbers (λ set. HasSame (taken.now ++ fixed.now) set.keys)) }
{
    let mut numbers = set_of(alloc, taken)?;
    if clash_with(&mut numbers, fixed)? {
        return Ok(None);
    }
    Ok(Some(numbers))
}

/// What is left where no two fixed or taken numbers are equal, of the open members and the taken numbers that are left.
fn form_left(members: List<Term>, taken: List<i64>) -> Reduced
    ensures { result ≡ (if is_decided members taken then reduced.Holds else reduced.Is (con.AllDiffExcept members taken)) }
{
    if is_decided(members.as_slice(), taken.as_slice()) {
        Reduced::Holds
    } else {
        Reduced::Is(Con::AllDiffExcept(members, taken))
    }
}

/// The form, by the values of the fixed members: where the taken numbers and these, in order, all differ, a walk over them
/// gives what is left; else sets of them do.
#[tactic(auto, using(rest_basic::proofs::Substituting::open_in, crate::proofs::SortedTaken::sorted_form, crate::proofs::TakenLeft::form_clash, crate::proofs::TakenLeft::form_apart))]
fn form_by<V: BoxView>(
    alloc: Global,
    xs: &[Term],
    taken: &[i64],
    fixed: &[i64],
    view: &V,
) -> Result<Reduced, AllocError>
    requires xs { All (TermIn (length (V.shape view.now))) xs.now }
    requires fixed { fixed.now ≡ fixed_values (V.shape view.now) xs.now }
    ensures { IfOk result (λ left. left ≡ all_different_form (V.shape view.now) xs.now taken.now) }
{
    let numbers = in_order(alloc, taken, fixed)?;
    if are_rising(numbers.as_slice()) {
        let members = open_terms_in(alloc, xs, view)?;
        let left = had_of(alloc, members.as_slice(), numbers.as_slice(), view)?;
        return Ok(form_left(members, left));
    }
    match all_taken(alloc, taken, fixed)? {
        None => Ok(Reduced::Is(empty_clause(alloc))),
        Some(mut numbers) => {
            let left = taken_left(alloc, xs, &mut numbers, taken, fixed, view)?;
            let members = open_terms_in(alloc, xs, view)?;
            Ok(form_left(members, left))
        }
    }
}

/// The form of values that differ from each other and from the taken ones. Sorts the taken numbers and the values of the
/// fixed members, and asks for each whether an open member can have it.
pub(crate) fn form_of_all_different<V: BoxView>(
    alloc: Global,
    xs: &[Term],
    taken: &[i64],
    view: &V,
) -> Result<Reduced, AllocError>
    requires { All (TermIn (length (V.shape view.now))) xs.now }
    ensures { IfOk result (λ left. left ≡ all_different_form (V.shape view.now) xs.now taken.now) }
{
    let fixed = fixed_values(alloc, xs, view)?;
    form_by(alloc, xs, taken, fixed.as_slice(), view)
}
