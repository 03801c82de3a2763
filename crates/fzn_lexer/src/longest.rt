//! The longest token at the front, of any kind.
ghost use Rattle.std.specs.Prelude.{◌≡◌, ◌<◌, ◌≤◌, length, IfSome, false};
ghost use Rattle.fzn_lexer.specs.Scan.{word_len, quoted_len, text_len, mark_len, longest_at};

use crate::bytes::{first_byte, from, is_double, is_single, is_start, parts};
use crate::kind::Kind;
use crate::numbers::{behind, number_len, real_len};

#[tactic(auto, unfolding(crate::specs::Scan::word_len))]
fn word_len(bytes: &[u8]) -> usize
    ensures value { result ≡ word_len bytes.now }
    ensures within { result ≤ length bytes.now }
{
    if is_start(first_byte(bytes)) {
        parts(bytes)
    } else {
        0
    }
}

/// How many bytes there are up to and with the closing quote, 0 where none stands on this line.
fn quoted_len(bytes: &[u8]) -> usize
    ensures value { result ≡ quoted_len false bytes.now }
    ensures within { result ≤ length bytes.now }
{
    let mut escaped = false;
    for (i, c) in bytes.iter().enumerate() {
        if *c == b'\n' {
            return 0;
        }
        if escaped {
            escaped = false;
        } else if *c == b'\\' {
            escaped = true;
        } else if *c == b'"' {
            return i + 1;
        }
    }
    0
}

#[tactic(auto, unfolding(crate::specs::Scan::text_len))]
fn text_len(bytes: &[u8]) -> usize
    ensures value { result ≡ text_len bytes.now }
    ensures within { result ≤ length bytes.now }
{
    if first_byte(bytes) == b'"' {
        behind(1, quoted_len(from(bytes, 1)))
    } else {
        0
    }
}

#[tactic(auto, unfolding(crate::specs::Scan::mark_len, crate::specs::Bytes::is_single))]
fn mark_len(bytes: &[u8]) -> usize
    ensures value { result ≡ mark_len bytes.now }
    ensures within { result ≤ length bytes.now }
{
    if is_double(first_byte(bytes), first_byte(from(bytes, 1))) {
        2
    } else if is_single(first_byte(bytes)) {
        1
    } else {
        0
    }
}

/// The kind of the longest token at the front, and how many bytes it has; `None` where no token begins.
#[tactic(auto, unfolding(crate::specs::Scan::longest_at))]
pub fn longest_at(bytes: &[u8]) -> Option<(Kind, usize)>
    ensures value { result ≡ longest_at bytes.now }
    ensures within { IfSome result (λ t. t.1 ≤ length bytes.now) }
    ensures some { IfSome result (λ t. 0 < t.1) }
{
    let word = word_len(bytes);
    if word > 0 {
        return Some((Kind::Word, word));
    }
    let real = real_len(bytes);
    if real > 0 {
        return Some((Kind::Real, real));
    }
    let number = number_len(bytes);
    if number > 0 {
        return Some((Kind::Number, number));
    }
    let text = text_len(bytes);
    if text > 0 {
        return Some((Kind::Text, text));
    }
    let mark = mark_len(bytes);
    if mark > 0 {
        return Some((Kind::Mark, mark));
    }
    None
}
