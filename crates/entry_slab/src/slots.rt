ghost use Rattle.std.specs.Prelude.{◌≡◌, ℕ, ◌+◌, ◌-◌, ◌^◌, ◌<◌, ◌≤◌, [], length, slice_index, vec_capacity, IfOk, IfSome, IfNone, None};
ghost use Rattle.std.specs.Option.{option_copied};
ghost use Rattle.entry_slab.specs.Contents.{entry_under, Adds, TakesOut};
ghost use Rattle.entry_slab.specs.Listed.{IsNewKey};
ghost use Rattle.entry_slab.specs.Slots.{slot_at, IsKept, HasNone};

use crate::entry::Entry;
use std::alloc::{AllocError, Global};
use std::marker::Model;

/// An entry in its slot.
#[derive(Debug, Drop)]
struct Kept {
    key: u64,
    entry: Entry,
}

/// A table with room for a number of entries. A key names the slot of its entry, so no call goes through the others.
#[derive(Debug, Drop)]
pub(crate) struct Slots {
    slots: Vec<Option<Kept>>,
    /// The numbers of the empty slots.
    free: Vec<u32>,
    /// A multiple of the number of slots; the next key is this and its slot's number.
    next: u64,
}

impl Model for Slots {
    ghost use Rattle.std.specs.Prelude.{◌≤◌, length, vec_capacity};
    ghost use Rattle.entry_slab.specs.Slots.{Stock, IsStocked, entries_in};

    ghost Value = { Stock };

    ghost view = { λ s. record { entries = entries_in s.slots.items; room = length s.slots.items; next = s.next } };

    ghost invariant = { λ s. IsStocked s.slots.items s.free.items s.next × (length s.slots.items ≤ vec_capacity s.free) };
}

/// So many empty slots.
fn empty_slots(alloc: Global, room: u32) -> Result<Vec<Option<Kept>>, AllocError>
    ensures count { IfOk result (λ slots. length slots.items ≡ room) }
    ensures empty { IfOk result (λ slots. (k : ℕ) → slot_at slots.items k ≡ None) }
{
    let mut slots = Vec::with_capacity(alloc, room as usize)?;
    for _ in 0..room {
        slots.push(None)?;
    }
    Ok(slots)
}

/// The numbers below `room`, with no room for more.
fn numbers_below(alloc: Global, room: u32) -> Result<Vec<u32>, AllocError>
    ensures count { IfOk result (λ numbers. length numbers.items ≡ room) }
    ensures each { IfOk result (λ numbers. (k : ℕ) → k < room → slice_index numbers.items k ≡ k) }
    ensures room { IfOk result (λ numbers. room ≤ vec_capacity numbers) }
{
    let mut numbers = Vec::with_capacity(alloc, room as usize)?;
    for number in 0..room {
        numbers.push(number)?;
    }
    Ok(numbers)
}

/// What the slot has that the key names, where the key is its own.
#[tactic(auto, unfolding(crate::specs::Slots::HasNone))]
fn kept_under(slots: &[Option<Kept>], key: u64) -> Option<&Kept>
    ensures some { IfSome result (λ kept. IsKept slots.now key kept.now) }
    ensures none { IfNone result (HasNone slots.now key) }
{
    if slots.is_empty() {
        return None;
    }
    match &slots[key as usize % slots.len()] {
        Some(kept) if kept.key == key => Some(kept),
        _ => None,
    }
}

impl Slots {
    /// An empty table. Takes all its memory now.
    pub(crate) fn new(alloc: Global, room: u32) -> Result<Slots, AllocError>
        ensures { IfOk result (λ slots. slots ≡ record { entries = []; room = room; next = 0 }) }
    {
        Ok(Slots {
            slots: empty_slots(alloc, room)?,
            free: numbers_below(alloc, room)?,
            next: 0,
        })
    }

    /// Puts an entry into an empty slot, and answers its key. `None` where there is none; then the entry is dropped.
    pub(crate) fn insert(&mut self, entry: Entry) -> Option<u64>
        ensures added { IfSome result (λ key. Adds key entry self.old.entries self.new.entries) }
        ensures room { IfSome result (λ _. length self.old.entries < self.old.room) }
        ensures fresh { IfSome result (IsNewKey self.old.next self.new.next) }
        ensures small { IfSome result (λ key. key < 2 ^ 64 - 1) }
        ensures same { self.new.room ≡ self.old.room }
        ensures full { IfNone result (length self.old.entries ≡ self.old.room) }
        ensures unchanged { IfNone result (self.new ≡ self.old) }
    {
        let at = match self.free.pop() {
            Some(at) => at,
            None => return None,
        };
        let key = self.next + at as u64;
        self.slots[at as usize] = Some(Kept { key, entry });
        self.next = following(self.next, self.slots.len() as u64);
        Some(key)
    }

    /// The entry under the key.
    pub(crate) fn get(&self, key: u64) -> Option<&Entry>
        ensures { option_copied result ≡ entry_under self.now.entries key }
    {
        match kept_under(&self.slots, key) {
            Some(kept) => Some(&kept.entry),
            None => None,
        }
    }

    /// Takes the entry under the key out, where there is one.
    pub(crate) fn remove(&mut self, key: u64)
        ensures taken { TakesOut key self.old.entries self.new.entries }
        ensures room { self.new.room ≡ self.old.room }
        ensures next { self.new.next ≡ self.old.next }
    {
        let at = match kept_under(&self.slots, key) {
            Some(_) => key as usize % self.slots.len(),
            None => return,
        };
        self.slots[at] = None;
        self.free.push(at as u32).unwrap();
    }
}

/// The next multiple of the number of slots; 0 again where numbers would run out.
fn following(next: u64, room: u64) -> u64
    requires small { room < 2 ^ 32 }
    requires bounded { next < 2 ^ 63 + 2 ^ 32 + 1 }
    ensures low { next ≤ 2 ^ 63 → result ≡ next + room }
    ensures high { 2 ^ 63 < next → result ≡ 0 }
{
    if next <= 1 << 63 { next + room } else { 0 }
}
