ghost use Rattle.std.specs.Prelude.{◌≡◌, ◌≤◌, ◌+◌, ◌^◌};

use crate::meter::Meter;
use evictor::Missed;
use incumbent_board::Credit;
use rest_global::Wide;

/// The right to expand a node: its residual problem was looked up and missed, or has too many words to be looked up.
pub enum Ticket<'a> {
    Missed(Missed<'a>),
    Wide(Wide),
}

impl<'a> Ticket<'a> {
    /// Ends the ticket and does nothing else.
    pub(crate) fn end(self) {
        match self {
            Ticket::Missed(missed) => missed.spend(),
            Ticket::Wide(_) => {}
        }
    }
}

/// Counts an expansion, which takes a credit and a ticket. Nothing else raises the count of a meter but [`Meter::take`].
pub fn expand(credit: Credit, ticket: Ticket<'_>, meter: &mut Meter)
    requires { meter.old.count ≤ 2 ^ 120 }
    ensures { meter.new ≡ record meter.old { count = meter.old.count + 1 } }
{
    credit.spend();
    ticket.end();
    meter.count += 1;
}
