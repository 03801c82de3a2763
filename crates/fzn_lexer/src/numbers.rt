//! How long the longest number and the longest real at the front are; 0 where there is none.
ghost use Rattle.std.specs.Prelude.{◌≡◌, ◌<◌, ◌≤◌, ◌+◌, ◌^◌, length};
ghost use Rattle.fzn_lexer.specs.Bytes.{is_x, is_o, is_hex, is_octal};
ghost use Rattle.fzn_lexer.specs.Scan.{behind, based_len, unsigned_len, number_len, fraction_len, signed_len, exponent_len, tail_len, decimal_len, real_len};

use crate::bytes::{digits, first_byte, from, hexes, is_e, is_sign, octals};

/// `count` bytes and `more` behind them, 0 where there are no more.
pub fn behind(count: usize, more: usize) -> usize
    requires { count + more < 2 ^ 64 }
    ensures { result ≡ behind count more }
{
    if more == 0 { 0 } else { count + more }
}

#[tactic(auto, unfolding(crate::specs::Scan::based_len))]
fn hex_len(bytes: &[u8]) -> usize
    ensures value { result ≡ based_len is_x is_hex bytes.now }
    ensures within { result ≤ length bytes.now }
{
    let tail = from(bytes, 1);
    if first_byte(bytes) == b'0' && first_byte(tail) == b'x' {
        behind(1, behind(1, hexes(from(tail, 1))))
    } else {
        0
    }
}

#[tactic(auto, unfolding(crate::specs::Scan::based_len))]
fn octal_len(bytes: &[u8]) -> usize
    ensures value { result ≡ based_len is_o is_octal bytes.now }
    ensures within { result ≤ length bytes.now }
{
    let tail = from(bytes, 1);
    if first_byte(bytes) == b'0' && first_byte(tail) == b'o' {
        behind(1, behind(1, octals(from(tail, 1))))
    } else {
        0
    }
}

#[tactic(auto, unfolding(crate::specs::Scan::unsigned_len))]
fn unsigned_len(bytes: &[u8]) -> usize
    ensures value { result ≡ unsigned_len bytes.now }
    ensures within { result ≤ length bytes.now }
{
    let hex = hex_len(bytes);
    if hex > 0 {
        return hex;
    }
    let octal = octal_len(bytes);
    if octal > 0 {
        return octal;
    }
    digits(bytes)
}

/// The longest number at the front.
#[tactic(auto, unfolding(crate::specs::Scan::number_len))]
pub fn number_len(bytes: &[u8]) -> usize
    ensures value { result ≡ number_len bytes.now }
    ensures within { result ≤ length bytes.now }
{
    if first_byte(bytes) == b'-' {
        behind(1, unsigned_len(from(bytes, 1)))
    } else {
        unsigned_len(bytes)
    }
}

#[tactic(auto, unfolding(crate::specs::Scan::fraction_len))]
fn fraction_len(bytes: &[u8]) -> usize
    ensures value { result ≡ fraction_len bytes.now }
    ensures within { result ≤ length bytes.now }
{
    if first_byte(bytes) == b'.' {
        behind(1, digits(from(bytes, 1)))
    } else {
        0
    }
}

#[tactic(auto, unfolding(crate::specs::Scan::signed_len))]
fn signed_len(bytes: &[u8]) -> usize
    ensures value { result ≡ signed_len bytes.now }
    ensures within { result ≤ length bytes.now }
{
    if is_sign(first_byte(bytes)) {
        behind(1, digits(from(bytes, 1)))
    } else {
        digits(bytes)
    }
}

#[tactic(auto, unfolding(crate::specs::Scan::exponent_len))]
fn exponent_len(bytes: &[u8]) -> usize
    ensures value { result ≡ exponent_len bytes.now }
    ensures within { result ≤ length bytes.now }
{
    if is_e(first_byte(bytes)) {
        behind(1, signed_len(from(bytes, 1)))
    } else {
        0
    }
}

#[tactic(auto, unfolding(crate::specs::Scan::tail_len))]
fn tail_len(bytes: &[u8]) -> usize
    ensures value { result ≡ tail_len bytes.now }
    ensures within { result ≤ length bytes.now }
{
    let fraction = fraction_len(bytes);
    fraction + exponent_len(from(bytes, fraction))
}

#[tactic(auto, unfolding(crate::specs::Scan::decimal_len))]
fn decimal_len(bytes: &[u8]) -> usize
    ensures value { result ≡ decimal_len bytes.now }
    ensures within { result ≤ length bytes.now }
{
    let whole = digits(bytes);
    if whole == 0 {
        return 0;
    }
    behind(whole, tail_len(from(bytes, whole)))
}

/// The longest real at the front.
#[tactic(auto, unfolding(crate::specs::Scan::real_len))]
pub fn real_len(bytes: &[u8]) -> usize
    ensures value { result ≡ real_len bytes.now }
    ensures within { result ≤ length bytes.now }
{
    if first_byte(bytes) == b'-' {
        behind(1, decimal_len(from(bytes, 1)))
    } else {
        decimal_len(bytes)
    }
}
