/// Why a problem is undecided: the node budget was spent, or memory was wanting.
#[derive(Clone, Copy, Debug, PartialEq, Eq)]
pub enum Why {
    Budget,
    Memory,
}
