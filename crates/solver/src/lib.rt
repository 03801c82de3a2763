//! Solves a model: one search over all of it.
//!
//! What it is for: [`solve`] is what the program calls. It makes the bench, the board, the cache and the worker's part, explores
//! the empty path, and says what came of it.
//!
//! What contracts see: a model by its parts, the answer as it is written, the meter by its three figures.
//!
//! What it promises: the answer is right (`Right` of incumbent_board): `Best` and `Unsat` and `Sat` say what listing all
//! assignments would say. It is undecided only where the node budget was spent, which is smaller than the number of
//! assignments, or memory was wanting; never where any solution will do and one was found. The meter rises by the nodes
//! of the outcome, and its settled paths show that the search was done.
//!
//! What it costs: memory for the cache's words and slots, and what `explore` takes.
//!
//! What it stands on: fzn_model, explorer, and the parts of a cached search.
#![tactic(auto)]

mod answers;
mod solving;

pub use explorer::Meter;
pub use incumbent_board::{Answer, Options, Outcome, Why};
pub use solving::solve;
