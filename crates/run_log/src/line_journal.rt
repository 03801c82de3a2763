ghost use Rattle.std.specs.Prelude.{◌≡◌, ◌↔◌, ◌∷◌, [], false, true, IsErr};

use crate::journal::Journal;
use crate::line::LogLine;
use crate::writing::write_line;
use cs_base::{Failed, Sink};
use fzn_model::Rest;

/// Writes the lines of a log to a sink, each with one write where it is short. A line isn't built in memory. Where a write
/// failed, it writes nothing more.
pub struct LineJournal<'a, O: Sink> {
    out: &'a mut O,
    failed: bool,
}

impl<'a, O: Sink> LineJournal<'a, O> {
    /// Takes no memory.
    pub fn new(out: &'a mut O) -> LineJournal<'a, O>
        ensures names { result.out.ghost_name ≡ out.entry.ghost_name }
        ensures values { (result.out.now ≡ out.old) × (result.failed ≡ false) }
    {
        LineJournal { out, failed: false }
    }

    /// Ends the log. `Failed` exactly where a write of it failed. Writes nothing.
    pub fn finish(self) -> Result<(), Failed>
        ensures out { self.exit.0.now ≡ self.entry.out.now }
        ensures failed { IsErr result ↔ (self.entry.failed ≡ true) }
    {
        let LineJournal { out: _, failed } = self;
        if failed { Err(Failed) } else { Ok(()) }
    }
}

impl<'a, O: Sink> Journal for LineJournal<'a, O> {
    ghost noted = { λ s. record { text = O.written s.out.now; faults = O.faults s.out.now; failed = s.failed } };

    ghost places = { λ s. s.out.ghost_name ∷ [] };

    fn note(&mut self, line: &LogLine, rest: Option<&Rest>, values: &[i64]) {
        if self.failed {
            return;
        }
        if write_line(self.out, line, rest, values).is_err() {
            self.failed = true;
        }
    }
}
