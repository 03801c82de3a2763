//! Worked examples of propagation: from the text of a model to what is left of its domains at the fixpoint.
//!
//! What it is for: tests that cross the crates from fzn_parser to prop_engine. Each row gives a small file, the answer of
//! [`Engine::fix`](prop_engine::Engine::fix), and the domains that it leaves, worked out by hand; so one line tests how
//! constraints are made of their names, and how they narrow domains together. Other tests list all assignments of small
//! models, and look for each solution in what is left. Nothing stands on it.
#![tactic(auto)]

#[cfg(test)]
mod tests;
