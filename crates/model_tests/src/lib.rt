//! Worked examples of models: from the text of a file to its refusal, its solutions and their costs, or its printed answer.
//!
//! What it is for: tests that cross the crates from fzn_lexer to solution_out. Each row gives a file and what it must give
//! by the rules of the language: the token that shows a refusal, assignments that are solutions and others that are not, or
//! the text of an answer. Nothing stands on it.
#![tactic(auto)]

#[cfg(test)]
mod tests;
