ghost use Rattle.std.specs.Prelude.{◌≡◌};

use fzn_model::Rest;
use incumbent_board::Why;
use search_core::Decision;
use std::alloc::AllocError;

/// A residual problem with its offset.
#[derive(Drop)]
pub(crate) struct Whole {
    pub rest: Rest,
    pub offset: i128,
}

/// Which side of an expansion is open.
#[derive(Drop)]
pub(crate) enum Side {
    First,
    Second,
}

/// An open expansion: its cut, the side that is open, the bound that was seen before it, and the residual problem that is
/// stored when both sides are settled.
#[derive(Drop)]
pub(crate) struct Frame {
    pub cut: Decision,
    pub side: Side,
    pub seen: i64,
    pub whole: Option<Whole>,
}

/// A node is settled at this bound.
#[derive(Drop)]
pub(crate) struct Closed {
    pub bound: i64,
}

/// Where a search stands.
#[derive(Drop)]
pub(crate) enum Turn {
    /// A node is to be looked at.
    Down,
    /// The node is settled.
    Up(Closed),
    /// Back at the deepest expansion, whose open side is settled.
    Back(Frame, Closed),
    /// The path of the call is settled.
    Done(Closed),
}

/// The turn at a node that is settled at the bound.
pub(crate) fn up_at(bound: &i64) -> Turn
    ensures { result ≡ Turn.Up (record { bound = bound.now }) }
{
    Turn::Up(Closed { bound: *bound })
}

/// Why a search stops.
#[derive(Drop)]
pub(crate) enum Stop {
    Dry,
    Told(Why),
    NoMemory,
}

impl From<AllocError> for Stop {
    fn from(_fault: AllocError) -> Stop
        ensures { result ≡ Stop.NoMemory }
    {
        Stop::NoMemory
    }
}
