use crate::journal::Journal;
use crate::line::LogLine;
use fzn_model::Rest;

/// Notes nothing, and tells nothing.
#[derive(Clone, Copy, Debug)]
pub struct NoJournal;

impl Journal for NoJournal {
    ghost use Rattle.std.specs.Prelude.{[], None, false};

    ghost noted = { λ _. record { text = None; faults = 0; failed = false } };

    ghost places = { λ _. [] };

    fn note(&mut self, _line: &LogLine, _rest: Option<&Rest>, _values: &[i64]) {}
}
