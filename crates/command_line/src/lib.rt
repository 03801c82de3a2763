//! The command line of the program.
//!
//! What it is for: it says what the program's words ask for, or that they are wrong, before anything is read or solved.
//!
//! What contracts see: the words as a list of texts, and a [`Line`] as `Asked` of `specs/Asked.antt`.
//!
//! What it promises: [`read_words`] answers exactly `line` of `specs/Lines.antt`: none where `clap` refuses the words for
//! one simple command, where a value is no number, where a limit is broken, and where two things don't go together.
//!
//! What it stands on: cs_base for the words, incumbent_board for the options, `clap` for how words are read.
#![tactic(auto)]

mod command;
mod line;
mod number;
mod reading;
#[cfg(test)]
mod tests;

pub use line::Line;
pub use reading::read_words;
