ghost use Rattle.std.specs.Prelude.{◌≡◌, ◌<◌, ◌≤◌, true, false, length, replicate, slice_index_or, slice_set, IfOk, IfSome, IfNone};
ghost use Rattle.mark_set.specs.Marks.{IsClear, Takes};
ghost use Rattle.mark_set.specs.Ranks.{TakesCheapFirst};

use crate::mark_set::MarkSet;
use std::alloc::{AllocError, Global};
use std::marker::Model;

/// A set of numbers below a limit, each of them cheap or dear, which contracts see as a mark for each number. Cheap members
/// are taken out before dear ones.
#[derive(Drop)]
pub struct RankedSet {
    /// The cheap numbers that are in the set.
    cheap: MarkSet,
    /// The dear ones.
    late: MarkSet,
    /// For each number whether it is dear.
    dear: Vec<bool>,
}

impl Model for RankedSet {
    ghost use Rattle.std.specs.Prelude.{List, Bool};
    ghost use Rattle.mark_set.specs.Ranks.{joined, IsRankedSet};

    ghost Value = { List Bool };

    ghost view = { λ s. joined s.cheap s.late };

    ghost invariant = { λ s. IsRankedSet s.cheap s.late s.dear.items };
}

/// Takes out the cheap number that was added last, or the dear one where there is no cheap one.
fn take_cheap_first(cheap: &mut MarkSet, late: &mut MarkSet) -> Option<u32>
    ensures some { IfSome result (λ number. TakesCheapFirst number cheap.old late.old cheap.new late.new) }
    ensures none { IfNone result (IsClear cheap.old × IsClear late.old) }
    ensures same { IfNone result ((cheap.new ≡ cheap.old) × (late.new ≡ late.old)) }
{
    if let Some(number) = cheap.take() {
        return Some(number);
    }
    late.take()
}

impl RankedSet {
    /// The empty set of as many numbers as the list has members, each dear where its member is true. Takes memory for two
    /// marks and two places of each.
    #[tactic(auto, using(crate::proofs::Ranking::joined_none))]
    pub fn new(alloc: Global, dear: Vec<bool>) -> Result<RankedSet, AllocError>
        requires { length dear.items ≤ 4000000000 }
        ensures { IfOk result (λ set. set ≡ replicate (length dear.items) false) }
    {
        let count = dear.len();
        Ok(RankedSet {
            cheap: MarkSet::new(alloc, count)?,
            late: MarkSet::new(alloc, count)?,
            dear,
        })
    }

    /// How many numbers there are below the limit.
    #[tactic(auto, using(crate::proofs::Ranking::now_long))]
    pub fn limit(&self) -> usize
        ensures { result ≡ length self.now }
    {
        self.dear.len()
    }

    /// Whether a number is in the set.
    #[tactic(auto, using(crate::proofs::Ranking::below_cheap, crate::proofs::Ranking::below_late, crate::proofs::Ranking::has_cheap))]
    pub fn has(&self, number: u32) -> bool
        requires { number < length self.now }
        ensures { result ≡ slice_index_or self.now number false }
    {
        self.cheap.has(number) || self.late.has(number)
    }

    /// Adds a number, which may be in the set already.
    #[tactic(auto, using(crate::proofs::Ranking::below_dear, crate::proofs::Ranking::below_cheap, crate::proofs::Ranking::below_late, crate::proofs::Ranking::add_cheap, crate::proofs::Ranking::add_late))]
    pub fn add(&mut self, number: u32)
        requires { number < length self.old }
        ensures { self.new ≡ slice_set self.old number true }
    {
        if self.dear[number as usize] {
            self.late.add(number);
        } else {
            self.cheap.add(number);
        }
    }

    /// Takes out the cheap number that was added last, or the dear number that was added last where no cheap one is in the
    /// set; `None` where the set is empty.
    #[tactic(auto, using(crate::proofs::Ranking::takes_one, crate::proofs::Ranking::clear_both))]
    pub fn take(&mut self) -> Option<u32>
        ensures some { IfSome result (λ number. Takes number self.old self.new) }
        ensures none { IfNone result (IsClear self.old) }
        ensures same { IfNone result (self.new ≡ self.old) }
    {
        take_cheap_first(&mut self.cheap, &mut self.late)
    }

    /// Takes all numbers out of the set.
    pub fn clear(&mut self)
        ensures length { length self.new ≡ length self.old }
        ensures clear { IsClear self.new }
    {
        self.cheap.clear();
        self.late.clear();
    }
}
