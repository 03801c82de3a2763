/// What became of an entry that was published.
#[derive(Clone, Copy, Debug, PartialEq, Eq)]
pub enum Put {
    /// The entry at the place dominates it, with at least its bound. Nothing was put.
    AlreadyThere(u32),
    /// The shelf refused it, or the cache has no words. It is dropped.
    Refused,
    /// It stands at the place now.
    Stored(u32),
}
