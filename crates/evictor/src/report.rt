/// Why a word of a cache led to no entry that serves.
#[derive(Clone, Copy, Debug, PartialEq, Eq)]
pub enum Report {
    /// No entry stands at the place.
    Empty,
    /// The shelf found no entry under the key.
    Gone,
    /// The entry doesn't dominate the residual problem.
    Unlike,
    /// The entry dominates the residual problem, but its bound is below the one needed.
    Weak(i128),
    /// The cache has no words.
    NoCache,
}
