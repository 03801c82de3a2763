//! What is asked of a search, what it answers, when an answer is right, and the words that its workers share.
//!
//! What it is for: the types that the search and the printing of its answer share, and the board on which workers draw
//! credits, offer costs and say why to stop. `Right` in `specs/Right.antt` says of every answer when it is right; the
//! headline of the program rests on it.
//!
//! What contracts see: the plain types as they are written; a board as what it was made with (`Facts` in
//! `specs/Passes.antt`) and a pass as all that it did and saw (`Held`).
//!
//! What it promises: that a right answer which is decided says what listing all assignments would say, the one verdict of
//! the model ([`right_answers_agree`]). Of the board: credits drawn are never more than the budget, and a pass finds
//! none left only where all were drawn; the best bound is the least of the top and of costs offered, and never rises;
//! a reason to stop was given by some pass; `finish` says exactly the sum of credits, the least bound and the reason.
//!
//! What it costs: each call of the board takes a constant number of steps, and none but `new` may take memory.
//!
//! What it stands on: fzn_model.
#![tactic(auto)]

mod agreement;
mod answer;
mod board;
mod board_pass;
mod credit;
mod options;
mod outcome;
mod totals;
mod why;

// What is asked, and what is answered.
pub use answer::Answer;
pub use options::Options;
pub use outcome::Outcome;
pub use why::Why;

// When an answer is right.
pub use agreement::right_answers_agree;

// What workers share: `Board::new`; `draw`, `offer`, `best`, `stop`, `stopped`; `finish`.
pub use board::Board;
pub use board_pass::BoardPass;
pub use credit::Credit;
pub use totals::Totals;
