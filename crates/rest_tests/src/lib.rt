//! Worked examples of residual problems: from the text of a model to the words of the rest of its domains.
//!
//! What it is for: tests that cross the crates from fzn_parser to rest_global. Each gives a small file, the words that its
//! rest has when it is worked out by hand, and the offset; so one line tests what is left of several constraints, their
//! labels, the domains, the cost, and the words. Nothing stands on it.
#![tactic(auto)]

#[cfg(test)]
mod tests;
