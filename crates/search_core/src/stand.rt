/// How a path stands.
#[derive(Clone, Copy, Debug, PartialEq, Eq)]
pub enum Stand {
    /// Nobody holds it, and it isn't settled.
    Open,
    /// The worker of this number holds it.
    Held(u32),
    /// The worker of this number has settled it: no solution that meets it costs less than the bound.
    Settled(u32, i64),
}
