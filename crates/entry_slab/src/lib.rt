//! Entries of a cache, and the shelves that keep them.
//!
//! What it is for: a residual problem that was solved is kept with its bound, and read again for each problem that it
//! dominates.
//!
//! What contracts see: an [`Entry`] as its residual problem and bound (`Bounded`); a [`Shelf`] by two counts and, where it
//! tells them, its contents (`specs/Contents.antt`); a [`ListShelf`] as `Listed`.
//!
//! What it promises: an entry is true by its type, so every entry that is read is true, whoever stored it. A reading
//! ([`Reading`]) speaks of one entry, the one under the key where the contents are told (`specs/Readings.antt`). A shelf
//! refuses only where its refusals rise, and finds nothing only where its absences rise. A [`ListShelf`] refuses exactly where
//! it is full, and finds nothing exactly where no entry is under the key or the call is one that it was made to lose.
//!
//! What it costs: an entry is hashed twice when it is made. [`ListShelf::new`] takes all memory that the shelf ever needs
//! beside its entries; no other call takes any. `put`, `remove` and the search of `with` take a few steps, whatever is there.
//!
//! What it stands on: fzn_model for residual problems, rest_key for dominance and digests.
#![tactic(auto)]

// An entry, and what reading one says.
mod entry;
mod reading;

// What keeps entries, and the one in memory.
mod list_shelf;
mod shelf;
mod slots;

pub use entry::Entry;
pub use list_shelf::ListShelf;
pub use reading::Reading;
pub use shelf::{NotKept, Shelf};
