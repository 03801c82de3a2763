//! Dominance of residual problems, and their words and digests.
//!
//! What it is for: a cache of residual problems. One that was solved before answers for another that has the same words,
//! and bounds the cost of each that it dominates. The two digests find candidates. Problems with the same words have the
//! same `near`. Two of which the one dominates the other mostly have the same `far`, but need not: `far` also takes the
//! labels and the number of constraints, and the one that dominates may have fewer.
//!
//! What contracts see: a residual problem as the record of its parts, as in fzn_model; [`RestWords`] as the list of the
//! words that are left.
//!
//! What it promises: [`weaker`] is exactly `Weaker` (`specs/Weaker.antt`), kind by kind, and [`dominates`] exactly
//! `Dominates` (`specs/Dominance.antt`). [`words`] are the words of `specs/Words.antt`, [`count`] is how many there are,
//! and [`near`] and [`far`] are FNV-1a digests (`specs/Digest.antt`) of all of them, and of all but the domains and those
//! parts of constraints that a weaker one may differ in. The laws: a weaker constraint holds wherever the other does; a
//! dominating problem includes the other; problems with the same words are the same.
//!
//! What it costs: no call takes memory. Words take a step a word, a digest a few instructions a word, `count` one step for
//! each domain and constraint. `weaker` and `dominates` take about a step a word and a binary search for each run, label and
//! used amount. Literals, taken values and rows take a step each where both lists have them in the same order, as the rests
//! of one model do, and are compared in pairs only else; so are used amounts that overlap.
//!
//! What it stands on: fzn_model alone.
#![tactic(auto)]

// Dominance: of constraints, part by part, and of residual problems.
mod among;
mod dominance;
mod rows;
mod same;
mod sets;
mod used;
mod weakness;

// Words, one by one, how many, and their digests.
mod counts;
mod digest;
mod few;
mod fields;
mod items;
mod rest_words;

// What follows from the definitions.
mod laws;

pub use counts::{con_count, count, domains_count};
pub use digest::{far, near};
pub use dominance::dominates;
pub use laws::{
    dominance_is_inclusion, equal_words_are_equal_problems, weaker_holds_where_the_other_does,
};
pub use rest_words::{RestWords, words};
pub use weakness::weaker;
