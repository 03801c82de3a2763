//! A cache of solved residual problems: which entry stands where, what a lookup finds, and which entry goes.
//!
//! What it is for: before a node is expanded its residual problem is looked up; an entry that dominates it, with a bound that
//! is high enough, settles the node. After a node is closed its problem is published with the bound.
//!
//! What contracts see: a [`Cache`] as the number of its words, a [`CachePass`] as these words, a [`Reader`] as a pass, a
//! shelf's contents where they are told, and its counts (`specs/Readers.antt`).
//!
//! What it promises: [`Cache::lookup`] reads the eight places of a problem (`specs/Places.antt`) in order; a hit is the first
//! entry that serves, and a miss has a report for each word that says why it doesn't serve (`specs/Looks.antt`).
//! [`Cache::publish`] puts an entry at the place that the reports tell (`specs/Puts.antt`). Where the shelf tells its
//! contents, the table of places changes by what is stored alone (`specs/Tables.antt`).
//!
//! What it costs: eight readings. Only [`Cache::new`] takes memory.
//!
//! What it stands on: fzn_model for residual problems, rest_key for digests, entry_slab for entries and shelves.
#![tactic(auto)]

// The words, and the places of a residual problem among them.
mod cache;
mod places;

// What is read, and what that says.
mod found;
mod report;
mod scan;

// What is answered.
mod look;
mod put;

// Who reads and stores, and the two calls.
mod looking;
mod reader;
mod storing;

pub use cache::{Cache, CachePass};
pub use look::{Look, Missed};
pub use put::Put;
pub use reader::Reader;
pub use report::Report;
