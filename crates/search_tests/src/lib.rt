//! Worked examples of the parts of a cached search.
//!
//! What it is for: tests of the crates from brancher to search_core, each call at a concrete type: from the text of a model to
//! the cut of its domains; what a shelf keeps and a reading of it says; which places a cache takes and finds; what a
//! board grants and tells; which moves one worker's part allows. Nothing stands on it.
#![tactic(auto)]

#[cfg(test)]
mod tests;
