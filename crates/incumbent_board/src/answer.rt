use crate::why::Why;
use fzn_model::List;

/// What is known of a model: it has no solution; it has this one, where any will do; none is better than this one; or
/// the search stopped, perhaps with a solution. `Right` in `specs/Right.antt` says when each is right.
#[derive(Debug, Drop)]
pub enum Answer {
    Unsat,
    Sat(List<i64>),
    Best(List<i64>),
    Undecided(Option<List<i64>>, Why),
}
