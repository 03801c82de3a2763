use crate::decision::Decision;
use crate::path::Path;

/// What one worker does to its part of the search.
#[derive(Drop)]
pub enum Move {
    /// The worker holds the path from now on.
    Claim { path: Path },
    /// A held path is given away.
    Give { path: Path },
    /// In place of a held path its two sides are held, and one expansion is counted. `cut` is the decision of the first.
    Expand { path: Path, cut: Decision },
    /// A held path is settled at the least cost seen, by an entry of the cache.
    Hit { path: Path },
    /// A held path is settled at the least cost seen, since no solution of it costs less.
    Leaf { path: Path },
    /// Both sides of the path are settled; in place of them the path is, at the lesser of their bounds.
    Join { path: Path, cut: Decision },
    /// A solution of this cost was found: the least cost seen becomes the lesser of itself and this.
    Offer { cost: i64 },
    /// The least cost seen becomes this.
    See { seen: i64 },
    /// A held path is given back.
    Return { path: Path },
}
