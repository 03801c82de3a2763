/// What a level keeps: places in the trail.
#[derive(Drop)]
pub(crate) struct Level {
    /// How many entries the trail had when it began.
    pub(crate) start: usize,
    /// How many it had at the latest settling before that, where there was one.
    pub(crate) settled: Option<usize>,
}
