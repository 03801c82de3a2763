//! The model that a FlatZinc file states, or the first token that refuses it.
//!
//! What it is for: the layers above see a model of `fzn_model` and no text.
//!
//! What contracts see: bytes as the list of them; a [`Reader`](crate::reader) as the tokens that are left, of the one
//! list that `fzn_lexer` admits for the bytes; a draft of the model as what the items so far have stated
//! (`specs/Drafts.antt`).
//!
//! What it promises: [`read_model`] gives exactly what `reads` (`specs/Reading.antt`) gives for the bytes: `Ok` with the
//! model exactly where that is a model, `Refused` exactly with its code, line and span; memory may run out instead.
//! `reads` is one function for each rule of the grammar, with the rule as its comment: items in `specs/Items.antt`,
//! `specs/Constraints.antt` and `specs/Solving.antt`, types and sets in `specs/Types.antt` and `specs/Sets.antt`,
//! expressions in `specs/Exprs.antt`, `specs/Scalars.antt` and `specs/Lists.antt`, annotations in
//! `specs/Annotations.antt`, `specs/Outputs.antt` and `specs/Search.antt`; how rules are joined, and refusals, in
//! `specs/Refusals.antt`; what a call answers, beside what reading gives, in `specs/Answers.antt`. A function that takes
//! no memory answers a refusal alone. What loops and proofs use is in `specs/Invariants.antt`. The type of the model
//! keeps `IsModel` of `fzn_model`. Not proved: that the time is linear; a token is read once, and once more for each
//! level of `output_array` and of search annotations that it stands in.
//!
//! What it stands on: `fzn_lexer` for tokens, `fzn_builtin` for constraints by name, `fzn_model`, and a map of names.
#![tactic(auto)]

// Refusals.
mod code;
mod parse_fault;
mod refused;

// The token in hand, and what it is.
mod ann_begin;
mod begin;
mod numbers;
mod reader;

// What has been stated so far.
mod decl;
mod draft;
mod names;
mod par_type;
mod var_type;

// Sets, expressions, types and annotations.
mod annotations;
mod elements;
mod outputs;
mod scalar;
mod sets;
mod types;

// Items, and the file.
mod arguments;
mod array;
mod constraint;
mod file;
mod parameter;
mod pick;
mod search;
mod search_variables;
mod solve;
mod variable;

pub use code::Code;
pub use file::read_model;
pub use parse_fault::ParseFault;
pub use refused::Refused;
