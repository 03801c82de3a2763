ghost use Rattle.std.specs.Prelude.{◌≡◌, ◌≤◌, ◌+◌, ◌^◌, None};
ghost use Rattle.explorer.specs.Offers.{lesser_of};

/// What searches took and found: how many nodes they expanded, how many of them settled their path, and the least cost that
/// they offered. It can't be copied, and only [`expand`](crate::expand), [`explore`](crate::explore) and [`Meter::take`]
/// change one.
#[derive(Debug, Drop)]
pub struct Meter {
    pub(crate) count: u128,
    pub(crate) closed: u128,
    pub(crate) least: Option<i64>,
}

impl Meter {
    /// A new meter: nothing expanded, settled or offered.
    pub fn new() -> Meter
        ensures { result ≡ record { count = 0; closed = 0; least = None } }
    {
        Meter {
            count: 0,
            closed: 0,
            least: None,
        }
    }

    /// How many nodes were expanded.
    pub fn count(&self) -> u128
        ensures { result ≡ self.now.count }
    {
        self.count
    }

    /// How many calls of [`explore`](crate::explore) settled their path.
    pub fn closed(&self) -> u128
        ensures { result ≡ self.now.closed }
    {
        self.closed
    }

    /// The least cost that was offered.
    pub fn least(&self) -> Option<i64>
        ensures { result ≡ self.now.least }
    {
        self.least
    }

    /// Adds another meter's two numbers, and keeps the lesser least cost.
    pub fn take(&mut self, other: Meter)
        requires count { (self.old.count ≤ 2 ^ 120) × (other.count ≤ 2 ^ 120) }
        requires closed { (self.old.closed ≤ 2 ^ 120) × (other.closed ≤ 2 ^ 120) }
        ensures { self.new ≡ record { count = self.old.count + other.count; closed = self.old.closed + other.closed; least = lesser_of self.old.least other.least } }
    {
        self.count += other.count;
        self.closed += other.closed;
        if let Some(cost) = other.least {
            self.offer(cost);
        }
    }

    /// A solution of this cost was offered.
    pub(crate) fn offer(&mut self, cost: i64)
        ensures { self.new ≡ record self.old { least = lesser_of self.old.least (Some cost) } }
    {
        self.least = match self.least {
            None => Some(cost),
            Some(least) => Some(least.min(cost)),
        };
    }
}
