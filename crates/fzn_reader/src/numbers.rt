//! The numbers that tokens write.
ghost use Rattle.std.specs.Prelude.{◌≡◌, ◌<◌, ◌≤◌, ◌+◌, ◌*◌, min, drop, length, IfSome};
ghost use Rattle.fzn_model.specs.Values.{largest};
ghost use Rattle.fzn_model.specs.Limits.{IsValue};
ghost use Rattle.fzn_reader.specs.Numbers.{digit, written, magnitude, number_in};

use fzn_model::LARGEST_VALUE;

/// One more than the greatest number that is told apart.
const CAP: u64 = LARGEST_VALUE as u64 + 1;

fn digit(c: u8) -> u8
    ensures { result ≡ digit c }
{
    if c < 58 {
        c.saturating_sub(48)
    } else if c < 71 {
        c - 55
    } else {
        c.saturating_sub(87)
    }
}

/// A number with a digit behind it.
fn with_digit(number: u64, base: u64, c: u8) -> u64
    requires number { number ≤ largest + 1 }
    requires base { base ≤ 16 }
    ensures { result ≡ min (number * base + digit c) (largest + 1) }
{
    (number * base + u64::from(digit(c))).min(CAP)
}

/// The number that digits write, or one past the greatest value.
#[tactic(auto, using(crate::proofs::Capped::capped_step))]
fn capped(digits: &[u8], base: u64) -> u64
    requires some { 0 < base }
    requires base { base ≤ 16 }
    ensures { result ≡ min (written base digits.now) (largest + 1) }
{
    let mut number: u64 = 0;
    for c in digits {
        number = with_digit(number, base, *c);
    }
    number
}

fn behind(text: &[u8], count: usize) -> &[u8]
    requires { count ≤ length text.now }
    ensures { result.now ≡ drop count text.now }
{
    &text[count..]
}

/// The number that a text without sign writes, or one past the greatest value.
fn size(text: &[u8]) -> u64
    ensures { result ≡ min (magnitude text.now) (largest + 1) }
{
    if text.starts_with(b"0x".as_slice()) {
        capped(behind(text, 2), 16)
    } else if text.starts_with(b"0o".as_slice()) {
        capped(behind(text, 2), 8)
    } else {
        capped(text, 10)
    }
}

/// The number that a token writes, where it is in -1,000,000..1,000,000.
#[tactic(auto, unfolding(crate::specs::Numbers::number_in))]
pub fn number_in(text: &[u8]) -> Option<i64>
    ensures value { result ≡ number_in text.now }
    ensures kept { IfSome result IsValue }
{
    if text.starts_with(b"-".as_slice()) {
        let size = size(behind(text, 1));
        if size >= CAP {
            return None;
        }
        return Some(-(size as i64));
    }
    let size = size(text);
    if size >= CAP {
        return None;
    }
    Some(size as i64)
}
