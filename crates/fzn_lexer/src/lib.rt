//! The tokens of a FlatZinc file, one after the other.
//!
//! What it is for: the reader above sees words, numbers, texts and marks with their lines and spans, and no bytes.
//!
//! What contracts see: a [`Lexer`] as the list of what is left to read: a spot for each token, and behind them one
//! spot that is the end of the input or a byte where no token begins. A spot has its kind, text, line and span.
//!
//! What it promises: the list that a new lexer begins with is the one list that `AreTokens` (specs/Tokens.antt) admits
//! for its bytes. That relation says, by the spellings of specs/Spelling.antt alone, that white space and comments are
//! passed over, that at each other place the longest token is taken, and what stands behind the last. Each spot lies in
//! the input where its span says, on the line of its place, and spans rise. [`Lexer::next`] and [`Lexer::spot`] answer the
//! first of the list and drop it where it is a token; an end or a bad byte stays, so that each later call answers the
//! same. No memory is taken. Not proved: that the time is linear, since each byte is looked at a bounded number of times.
//!
//! What it stands on: nothing but std.
#![tactic(auto)]

mod bad_byte;
mod bytes;
mod kind;
mod lexer;
mod longest;
mod numbers;
mod seen;
mod spot;
#[cfg(test)]
mod tests;
mod token;

// What a file is made of.
pub use kind::Kind;
pub use token::Token;

// The tokens in order, and what stands where there is none.
pub use bad_byte::BadByte;
pub use lexer::Lexer;

// A place with what stands there, the end of the input and a bad byte included.
pub use seen::Seen;
pub use spot::Spot;
