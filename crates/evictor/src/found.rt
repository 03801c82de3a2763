use crate::report::Report;

/// What one word led to: an entry that serves, with its bound, or none and why.
#[derive(Clone, Copy, Debug)]
pub(crate) enum Found {
    Serves(i128),
    Not(Report),
}
