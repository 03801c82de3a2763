use crate::why::Why;

/// What a board says at its end: the credits drawn, the least of its top and of all costs offered, and why to stop.
#[derive(Debug, Drop)]
pub struct Totals {
    pub credits: u64,
    pub best: i64,
    pub why: Option<Why>,
}
