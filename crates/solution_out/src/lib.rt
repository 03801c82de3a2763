//! The text of an answer, of what its search took, and of a refusal.
//!
//! What it is for: the one place that knows how a solution, an optimum, an unsatisfiable problem and an undecided one
//! are printed, in the standard output format of a FlatZinc solver; and so are the counts of a search, and what came of a
//! model that was made from a number.
//!
//! What contracts see: the text that is appended to a sink, as a list of bytes: `shows` of `specs/Shows.antt`, `stats` of
//! `specs/Stats.antt`, `sums` of `specs/Sums.antt`, `outcome_text` of `specs/Outcomes.antt` and `refusal_text` of `specs/Refusals.antt`.
//!
//! What it promises: [`write_answer`], [`write_stats`], [`write_sums`], [`write_outcome`] and [`write_refusal`] append exactly these texts,
//! one each. Where they answer `Failed`, a write of the sink failed and a part at the front of that text was appended. They
//! take no memory.
//!
//! What it stands on: cs_base for the sink, fzn_model and incumbent_board for what is printed, itoa for numbers.
#![tactic(auto)]

// From a few bytes up to a whole answer.
mod array;
mod lines;
mod text;
mod values;

// What a caller uses.
mod answers;
mod outcomes;
mod refusals;
mod stats;
mod sums;

pub use answers::write_answer;
pub use outcomes::write_outcome;
pub use refusals::write_refusal;
pub use stats::write_stats;
pub use sums::write_sums;
