//! Worked examples of whole searches.
//!
//! What it is for: tests of solver, from the text of a model to its answer: the verdicts of small models, with and without a
//! cache; a budget that is spent; a cache that saves nodes; a search that goes deep. Nothing stands on it.
#![tactic(auto)]

#[cfg(test)]
mod tests;
