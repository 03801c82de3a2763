ghost use Rattle.std.specs.Prelude.{◌≡◌, ◌↔◌, ◌⊎◌, ◌-◌, ◌^◌, ◌<◌, ◌≤◌, [], Some, None, IfOk, OnOk, OnErr};
ghost use Rattle.entry_slab.specs.Entries.{Rose};
ghost use Rattle.entry_slab.specs.Contents.{WhereTold, Puts, Removes, entry_under};
ghost use Rattle.entry_slab.specs.Readings.{IsReading, CountsAbsence};
ghost use Rattle.entry_slab.specs.Listed.{contents_of, left_after, IsNewKey};

use crate::entry::Entry;
use crate::reading::{Reading, read};
use crate::shelf::{NotKept, Shelf};
use crate::slots::Slots;
use fzn_model::Rest;
use std::alloc::{AllocError, Global};
use std::marker::Model;

/// A shelf in memory for one thread, which tells its contents. Keys rise; one is given again only after 2^63 numbers.
#[derive(Debug, Drop)]
pub struct ListShelf {
    slots: Slots,
    lose: u32,
    left: u32,
    refusals: u64,
    absences: u64,
}

impl Model for ListShelf {
    ghost use Rattle.std.specs.Prelude.{◌≤◌};
    ghost use Rattle.entry_slab.specs.Listed.{Listed};

    ghost Value = { Listed };

    ghost view = { λ s. record { entries = s.slots.entries; room = s.slots.room; next = s.slots.next; lose = s.lose; left = s.left; refusals = s.refusals; absences = s.absences } };

    ghost invariant = { λ s. s.left ≤ s.lose };
}

impl ListShelf {
    /// An empty shelf with room for `room` entries, of which every `lose`-th call of `with` answers `Gone`; 0 means none.
    /// Takes the memory for all its slots now.
    pub fn new(alloc: Global, room: u32, lose: u32) -> Result<ListShelf, AllocError>
        ensures { IfOk result (λ shelf. shelf ≡ record { entries = []; room = room; next = 0; lose = lose; left = lose; refusals = 0; absences = 0 }) }
    {
        Ok(ListShelf {
            slots: Slots::new(alloc, room)?,
            lose,
            left: lose,
            refusals: 0,
            absences: 0,
        })
    }
}

impl Shelf for ListShelf {
    ghost refusals = { λ s. s.refusals };

    ghost absences = { λ s. s.absences };

    ghost contents = { λ s. Some (contents_of s) };

    fn put(&mut self, entry: Entry) -> Result<u64, NotKept>
        ensures key { IfOk result (λ key. key < 2 ^ 64 - 1) }
        ensures contents { WhereTold (Puts entry result) (Some (contents_of self.old)) (Some (contents_of self.new)) }
        ensures refused { OnErr result (Rose self.old.refusals self.new.refusals) }
        ensures kept { OnOk result (self.new.refusals ≡ self.old.refusals) }
        ensures absences { self.new.absences ≡ self.old.absences }
        ensures fresh { IfOk result (IsNewKey self.old.next self.new.next) }
        ensures calls { (self.new.lose ≡ self.old.lose) × (self.new.left ≡ self.old.left) }
    {
        match self.slots.insert(entry) {
            Some(key) => Ok(key),
            None => {
                self.refusals = self.refusals.saturating_add(1);
                Err(NotKept)
            }
        }
    }

    fn with(&mut self, key: u64, rest: &Rest, need: i128) -> Reading
        ensures reading { IsReading (Some (contents_of self.old)) key rest.now need result }
        ensures contents { Some (contents_of self.new) ≡ Some (contents_of self.old) }
        ensures absences { CountsAbsence result self.old.absences self.new.absences }
        ensures refusals { self.new.refusals ≡ self.old.refusals }
        ensures gone { (result ≡ Reading.Gone) ↔ ((self.old.left ≡ 1) ⊎ (entry_under self.old.entries key ≡ None)) }
        ensures calls { self.new ≡ record self.old { left = left_after self.old.lose self.old.left; absences = self.new.absences } }
    {
        if self.left == 1 {
            self.left = self.lose;
            self.absences = self.absences.saturating_add(1);
            return Reading::Gone;
        }
        self.left = self.left.saturating_sub(1);
        match self.slots.get(key) {
            Some(entry) => read(entry, rest, need),
            None => {
                self.absences = self.absences.saturating_add(1);
                Reading::Gone
            }
        }
    }

    fn remove(&mut self, key: u64)
        ensures contents { WhereTold (Removes key) (Some (contents_of self.old)) (Some (contents_of self.new)) }
        ensures refusals { self.new.refusals ≡ self.old.refusals }
        ensures absences { self.new.absences ≡ self.old.absences }
        ensures calls { (self.new.lose ≡ self.old.lose) × (self.new.left ≡ self.old.left) }
        ensures next { self.new.next ≡ self.old.next }
    {
        self.slots.remove(key);
    }
}
