use crate::wide::Wide;
use fzn_model::Rest;

/// The rest of a box, as far as a limit allows.
#[derive(Debug, Drop)]
pub enum Projected {
    /// The rest, and its offset: the cost of an assignment of the box is its cost in the rest, and the offset more.
    Whole(Rest, i128),
    /// It has more words than the limit.
    Wide(Wide),
}
