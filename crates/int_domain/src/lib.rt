//! Domains: the values that a variable can still have, and what narrows them.
//!
//! What it is for: each variable of a search has a [`Domain`]; propagators and branching only ever take values from it.
//!
//! What contracts see: a domain as the list of its values, rising.
//!
//! What it promises: a domain is never empty. A narrowing keeps exactly the values that pass its test, and answers
//! [`Narrow`]: `Same` exactly where nothing goes, `Empty` exactly where nothing would stay, and then the domain is
//! unchanged. The one exception is [`Domain::drop_value`], strictly between the bounds of a domain whose hull, all
//! numbers from the least value to the greatest, has more than [`LARGEST_NARROW_HULL`] numbers: such a domain is kept
//! by its bounds alone, so it answers `Same` and leaves the value. `Changed` makes the list shorter.
//!
//! What it costs: no call takes memory. `low` and `high` take a constant number of steps, the others at most a step
//! for each of the 16 words of a bitmap, and `from_runs` that for each run.
//!
//! What it stands on: nothing but std.
#![tactic(auto)]

// A domain, and what a narrowing answers.
mod domain;
mod narrow;

// How its values are kept.
mod bitmap;
mod bits;
mod kept;
#[cfg(test)]
mod tests;

pub use domain::Domain;
pub use narrow::Narrow;

/// The greatest number that a value may have; `-LARGEST_VALUE` is the least.
pub const LARGEST_VALUE: i64 = 1_000_000;

/// How many numbers a hull, from the least value to the greatest, may have so that the domain can have gaps.
pub const LARGEST_NARROW_HULL: i64 = 1_024;
