use crate::answer::Answer;

/// An answer, and what the search for it took: nodes expanded, and cache entries that settled a node, that were stored,
/// and that were gone when they were read. Each count stays at the greatest `u64`.
#[derive(Debug, Drop)]
pub struct Outcome {
    pub answer: Answer,
    pub nodes: u64,
    pub hits: u64,
    pub stores: u64,
    pub gone: u64,
}
