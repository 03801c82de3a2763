//! The model that a FlatZinc file states, and what can be said of reading without its definition.
//!
//! What it is for: the layers above see a model of `fzn_model` and no text.
//!
//! What contracts see: bytes as the list of them; tokens as the one list that `fzn_lexer` admits for the bytes; a rule of
//! the grammar as a relation between two places in a file and what the tokens between them make (`specs/Rules.antt`).
//!
//! What it promises: [`parse`] answers a model exactly where the file states it. `specs/States.antt` says what a file
//! states: the grammar's rules, each with what it makes; ten examples of it are proved ([`examples_state_models`]).
//! Of a refusal it promises these laws (`specs/Laws.antt`), in the words of the grammar without values
//! (`specs/Grammar.antt`): it has the line and the span of a token of the file, of its end, or of the byte that begins no
//! token, and a code that this token may show, by a table; the tokens before it begin a file that the grammar spells; it
//! is `TooLong` exactly above 67,108,864 bytes; and what the grammar spells is not refused for its form. To the letter, it
//! gives exactly what `reads` of `fzn_reader` gives for the bytes.
//!
//! What it stands on: `fzn_reader` for reading, `fzn_lexer` for tokens, `fzn_builtin` for constraints by name, `fzn_model`.
#![tactic(auto)]

ghost use Rattle.std.specs.Prelude.{IfOk, IfErr};
ghost use Rattle.fzn_reader.specs.Reading.{reads};
ghost use Rattle.fzn_reader.specs.Answers.{Gives};
ghost use Rattle.fzn_model.specs.Parts.{Parts};
ghost use Rattle.fzn_parser.specs.States.{States};
ghost use Rattle.fzn_parser.specs.Laws.{IsAnswered, IsSpelled, IsFairFault, IsBeyondForm};

mod laws;

use fzn_model::Model;
use fzn_reader::read_model;
pub use fzn_reader::{Code, ParseFault, Refused};
pub use laws::examples_state_models;
use std::alloc::Global;

/// The model that the bytes of a FlatZinc file state (MiniZinc Handbook, FlatZinc), within the limits of this project.
///
/// `Refused` comes with the first token that shows a fault, and the least code of those that it shows; a file of more
/// than 67,108,864 bytes is `TooLong` at line 1, before all tokens. `NoMemory` comes where the model has no room.
///
/// A model is answered exactly where the file states it (`specs/States.antt`), unless memory runs out. What the grammar of
/// `specs/Grammar.antt` spells is not refused as `Syntax`, `Float` or `SetVar`. A refusal has the line and the span of a
/// token of the file that may show its code, of its end, or of the byte that begins no token, and the tokens before that
/// begin a file that the grammar spells.
#[tactic(auto, using(crate::proofs::MadeFile::states, crate::proofs::MadeFile::stated, crate::proofs::FileLaws::spelled, crate::proofs::FileLaws::fair, crate::proofs::FormedFile::formed))]
pub fn parse(alloc: Global, bytes: &[u8]) -> Result<Model, ParseFault>
    ensures reads { Gives (λ m. m) result (reads bytes.now) }
    ensures states { IfOk result (λ m. States bytes.now m) }
    ensures stated { (m : Parts) → States bytes.now m → IsAnswered m result }
    ensures spelled { IfOk result (λ _. IsSpelled bytes.now) }
    ensures fair { IfErr result (λ e. IsFairFault bytes.now e) }
    ensures formed { IsSpelled bytes.now → IfErr result (λ e. IsBeyondForm e) }
{
    read_model(alloc, bytes)
}
