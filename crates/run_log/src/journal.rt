ghost use Rattle.std.specs.Prelude.{◌≡◌, ◌∷◌, [], List, ℕ, option_copied};
ghost use Rattle.run_log.specs.Texts.{Line};
ghost use Rattle.run_log.specs.Journals.{Noted, Notes};

use crate::line::LogLine;
use fzn_model::Rest;

/// Where the steps of a search are noted.
pub trait Journal {
    /// What it has noted.
    ghost noted: { Self → Noted };
    /// The borrows that it holds.
    ghost places: { Self → List ℕ };

    /// Notes a line. A `Rest` line comes with its residual problem, a `Solution` line with its values, any other with
    /// neither. Where a write fails it notes nothing more from then on.
    fn note(&mut self, line: &LogLine, rest: Option<&Rest>, values: &[i64])
        ensures notes { Notes (noted self.old) (noted self.new) (record { line = line.now; rest = option_copied rest.entry; values = values.now } ∷ []) }
        ensures places { places self.new ≡ places self.old };
}
