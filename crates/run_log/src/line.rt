/// One step of a search, as a line of its log shows it. Bounds and costs are those of the model, but the bound of `Publish`
/// is less the offset of the residual problem that is stored.
#[derive(Clone, Copy, Debug, PartialEq, Eq)]
pub enum LogLine {
    /// A node of that many decisions, at which the best cost was `seen`.
    Node {
        depth: u32,
        seen: i64,
    },
    /// Its residual problem, with its offset.
    Rest {
        offset: i128,
    },
    /// In place of that: how many words it has, too many to be looked up.
    Wide {
        words: u64,
    },
    /// An entry of this place was gone when it was to be read.
    Gone {
        place: u32,
    },
    /// The node is settled at the bound, by the entry of this place.
    Hit {
        depth: u32,
        bound: i64,
        place: u32,
    },
    /// The node is cut into `var <= at` and `var > at`; the latter comes first where `up` says so.
    Expand {
        depth: u32,
        var: u32,
        at: i64,
        up: bool,
    },
    /// A solution was found and offered.
    Solution {
        cost: i64,
    },
    /// The node is settled at the bound, by propagation or after its solution.
    Leaf {
        depth: u32,
        bound: i64,
    },
    /// Both sides of the node are settled, the lesser of their bounds is this.
    Join {
        depth: u32,
        bound: i64,
    },
    /// The residual problem of the node that was joined is stored at this place, with this bound.
    Publish {
        place: u32,
        bound: i128,
    },
}
