/// A call of a source or a sink that failed. The count of faults of that source or sink rose.
#[derive(Clone, Copy, Debug, PartialEq, Eq)]
pub struct Failed;
