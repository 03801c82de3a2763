ghost use Rattle.std.specs.Prelude.{◌≡◌, ℕ, ◌<◌, ◌≤◌, true, false, length, replicate, slice_index_or, slice_set, IfOk, IfSome, IfNone};
ghost use Rattle.mark_set.specs.Marks.{IsClear, Takes};

use crate::marks::{clear, latest};
use std::alloc::{AllocError, Global};
use std::marker::Model;

/// A set of numbers below a limit, which contracts see as a mark for each number.
#[derive(Drop)]
pub struct MarkSet {
    marks: Vec<bool>,
    /// Each marked number stands in one of the first `count` places.
    places: Vec<u32>,
    count: usize,
}

impl Model for MarkSet {
    ghost use Rattle.std.specs.Prelude.{List, Bool};
    ghost use Rattle.mark_set.specs.Marks.{IsMarkSet};

    ghost Value = { List Bool };

    ghost view = { λ s. s.marks.items };

    ghost invariant = { λ s. IsMarkSet s.marks.items s.places.items s.count };
}

impl MarkSet {
    /// The empty set of numbers below `count`. Takes memory for a mark and a place of each.
    pub fn new(alloc: Global, count: usize) -> Result<MarkSet, AllocError>
        requires { count ≤ 4000000000 }
        ensures { IfOk result (λ set. set ≡ replicate count false) }
    {
        Ok(MarkSet {
            marks: vec![in alloc; false; count]?,
            places: vec![in alloc; 0; count]?,
            count: 0,
        })
    }

    /// How many numbers there are below the limit.
    pub fn limit(&self) -> usize
        ensures { result ≡ length self.now }
    {
        self.marks.len()
    }

    /// Whether a number is in the set.
    pub fn has(&self, number: u32) -> bool
        requires { number < length self.now }
        ensures { result ≡ slice_index_or self.now number false }
    {
        self.marks[number as usize]
    }

    /// Adds a number, which may be in the set already.
    pub fn add(&mut self, number: u32)
        requires { number < length self.old }
        ensures { self.new ≡ slice_set self.old number true }
    {
        if !self.marks[number as usize] {
            self.marks[number as usize] = true;
            self.places[self.count] = number;
            self.count += 1;
        }
    }

    /// Takes out the number that was added last; `None` where the set is empty.
    pub fn take(&mut self) -> Option<u32>
        ensures some { IfSome result (λ number. Takes number self.old self.new) }
        ensures none { IfNone result (IsClear self.old) }
        ensures same { IfNone result (self.new ≡ self.old) }
    {
        let left = latest(&self.marks, &self.places, self.count);
        self.count = left;
        if left == 0 {
            return None;
        }
        let number = self.places[left - 1];
        self.count = left - 1;
        self.marks[number as usize] = false;
        Some(number)
    }

    /// Takes all numbers out of the set.
    pub fn clear(&mut self)
        ensures length { length self.new ≡ length self.old }
        ensures clear { IsClear self.new }
    {
        clear(&mut self.marks, &self.places[..self.count]);
        self.count = 0;
    }
}
