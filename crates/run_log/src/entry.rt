use crate::line::LogLine;
use fzn_model::List;

/// A line of a log as it is read: with the words of a `Rest` line and the values of a `Solution` line; other lines have
/// neither.
#[derive(Debug, Drop)]
pub struct LogEntry {
    pub line: LogLine,
    pub words: List<i128>,
    pub values: List<i64>,
}
