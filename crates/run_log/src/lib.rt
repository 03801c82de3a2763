//! The log of a search: its lines, written and read.
//!
//! What it is for: a run can be followed and checked from outside. The search notes each of its steps in a [`Journal`];
//! [`LineJournal`] writes them to a sink, a line each, and [`read_log`] reads such a text.
//!
//! What contracts see: a line as the record `Line` of `specs/Texts.antt`, its text as `log_text` says; a journal as what it has
//! noted (`Noted` in `specs/Journals.antt`).
//!
//! What it promises: `note` appends exactly the text of its line, or a part at its front where a write failed, and nothing
//! from then on. [`read_log`] answers exactly the entries whose text the bytes are (`specs/Readings.antt`), and names the first
//! line that is the text of none. Laws: a text has one list of entries at most; what was noted reads back.
//!
//! What it stands on: cs_base for the sink, fzn_model and rest_key for residual problems and their words, itoa for numbers,
//! thiserror.
#![tactic(auto)]

// A line, noted and read.
mod entry;
mod line;

// Noting, and writing a line.
mod journal;
mod line_buffer;
mod line_journal;
mod no_journal;
mod pieces;
mod writing;

// Reading, and what follows from the definitions.
mod bytes;
mod fields;
mod laws;
mod numbers;
mod plain;
mod read_entry;
#[cfg(test)]
mod read_tests;
mod reading;
#[cfg(test)]
mod tests;

pub use entry::LogEntry;
pub use journal::Journal;
pub use laws::{a_bad_line_is_in_no_log, a_text_has_one_list_of_entries, noted_lines_read_back};
pub use line::LogLine;
pub use line_journal::LineJournal;
pub use no_journal::NoJournal;
pub use reading::{LogFault, read_log};
