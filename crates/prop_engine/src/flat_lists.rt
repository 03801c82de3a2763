ghost use Rattle.std.specs.Prelude.{◌≡◌, ◌≤◌, [], length, slice_index_or, IfOk};
ghost use Rattle.std.specs.List.{slice_range};
ghost use Rattle.prop_engine.specs.Flat.{lists_of, AreStarts};

use fzn_model::List;
use std::alloc::{AllocError, Global};
use std::marker::Model;

/// Lists of numbers in one array, which contracts see as the list of these lists.
#[derive(Drop)]
pub(crate) struct FlatLists {
    /// The members of all lists, one list behind another.
    members: Vec<u32>,
    /// Where each list begins, and at the end how many members there are.
    starts: Vec<usize>,
}

impl Model for FlatLists {
    ghost use Rattle.std.specs.Prelude.{List, ℕ, length};
    ghost use Rattle.prop_engine.specs.Flat.{lists_of, AreStarts};

    ghost Value = { List (List ℕ) };

    ghost view = { λ f. lists_of f.members.items f.starts.items };

    ghost invariant = { λ f. AreStarts f.starts.items (length f.members.items) };
}

/// Puts the lists one behind another.
fn flatten(alloc: Global, lists: &[List<u32>]) -> Result<FlatLists, AllocError>
    ensures { IfOk result (λ flat. flat ≡ lists.now) }
{
    let mut members = Vec::new(alloc);
    let mut starts = Vec::with_capacity(alloc, 1)?;
    starts.push(0)?;
    for list in lists {
        members.extend_from_slice(list.as_slice())?;
        starts.push(members.len())?;
    }
    Ok(FlatLists { members, starts })
}

/// The members from one on, and before another one.
fn part(members: &[u32], from: usize, to: usize) -> &[u32]
    requires order { from ≤ to }
    requires inside { to ≤ length members.now }
    ensures { result.now ≡ slice_range members.now from to }
{
    &members[from..to]
}

/// The list in one place.
#[tactic(auto, using(crate::proofs::Flattening::order_at, crate::proofs::Flattening::list_in, crate::proofs::Flattening::list_past))]
fn list_at<'a>(members: &'a [u32], starts: &[usize], at: u32) -> &'a [u32]
    requires { AreStarts starts.now (length members.now) }
    ensures { result.now ≡ slice_index_or (lists_of members.now starts.now) at [] }
{
    let at = at as usize;
    if starts.len() <= at + 1 {
        return &[];
    }
    part(members, starts[at], starts[at + 1])
}

impl FlatLists {
    /// These lists, one behind another. Takes memory for all members, and for the place of each list.
    pub(crate) fn new(alloc: Global, lists: &[List<u32>]) -> Result<FlatLists, AllocError>
        ensures { IfOk result (λ flat. flat ≡ lists.now) }
    {
        flatten(alloc, lists)
    }

    /// The list in one place; none of its members where there is no such list.
    pub(crate) fn get(&self, at: u32) -> &[u32]
        ensures { result.now ≡ slice_index_or self.now at [] }
    {
        list_at(&self.members, &self.starts, at)
    }
}
