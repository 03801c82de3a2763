ghost use Rattle.std.specs.Prelude.{◌≡◌, ℕ, ◌-◌, ◌^◌, ◌<◌, ◌≤◌, IfOk, OnOk, OnErr};
ghost use Rattle.std.specs.declared.option.Option.{Option};
ghost use Rattle.entry_slab.specs.Entries.{Rose};

use crate::entry::Entry;
use crate::reading::Reading;
use fzn_model::Rest;

/// The entry was not kept. It is dropped.
#[derive(Clone, Copy, Debug, PartialEq, Eq)]
pub struct NotKept;

/// What keeps entries under keys. Whether the contents are told, the room and whether calls are lost never change.
pub trait Shelf: Drop {
    ghost use Rattle.entry_slab.specs.Contents.{Contents, WhereTold, Puts, Removes};
    ghost use Rattle.entry_slab.specs.Readings.{IsReading, CountsAbsence};

    /// How many entries were refused; it stays at the greatest `u64`.
    ghost refusals: { Self → ℕ };
    /// How many readings found nothing; it stays at the greatest `u64`.
    ghost absences: { Self → ℕ };
    /// What is there, where the shelf tells it.
    ghost contents: { Self → Option Contents };

    /// Keeps an entry, and answers its key, which wasn't there before and is below the greatest `u64`. `NotKept` comes
    /// only where the refusals rose, and exactly where as many entries are there as the shelf tells to have room for.
    fn put(&mut self, entry: Entry) -> Result<u64, NotKept>
        ensures key { IfOk result (λ key. key < 2 ^ 64 - 1) }
        ensures contents { WhereTold (Puts entry result) (contents self.old) (contents self.new) }
        ensures refused { OnErr result (Rose (refusals self.old) (refusals self.new)) }
        ensures kept { OnOk result (refusals self.new ≡ refusals self.old) }
        ensures absences { absences self.new ≡ absences self.old };

    /// Reads the entry under the key in place. Takes no memory.
    fn with(&mut self, key: u64, rest: &Rest, need: i128) -> Reading
        ensures reading { IsReading (contents self.old) key rest.now need result }
        ensures contents { contents self.new ≡ contents self.old }
        ensures absences { CountsAbsence result (absences self.old) (absences self.new) }
        ensures refusals { refusals self.new ≡ refusals self.old };

    /// Takes the entry under the key out, where there is one. Takes no memory.
    fn remove(&mut self, key: u64)
        ensures contents { WhereTold (Removes key) (contents self.old) (contents self.new) }
        ensures refusals { refusals self.new ≡ refusals self.old }
        ensures absences { absences self.new ≡ absences self.old };
}
