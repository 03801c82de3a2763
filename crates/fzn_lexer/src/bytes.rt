//! Kinds of byte, and parts of a slice.
ghost use Rattle.std.specs.Prelude.{◌≡◌, ◌≤◌, length, drop, take};
ghost use Rattle.std.specs.List.{prefix_len};
ghost use Rattle.fzn_lexer.specs.Bytes.{is_white, is_in_line, is_digit, is_octal, is_hex, is_start, is_part, is_sign, is_e, is_single, is_double};
ghost use Rattle.fzn_lexer.specs.Scan.{first_byte};

/// A tab, a line feed, a carriage return or a space.
pub fn is_white(c: u8) -> bool
    ensures { result ≡ is_white c }
{
    c == b'\t' || c == b'\n' || c == b'\r' || c == b' '
}

fn is_digit(c: u8) -> bool
    ensures { result ≡ is_digit c }
{
    b'0' <= c && c <= b'9'
}

fn is_octal(c: u8) -> bool
    ensures { result ≡ is_octal c }
{
    b'0' <= c && c <= b'7'
}

fn is_hex(c: u8) -> bool
    ensures { result ≡ is_hex c }
{
    is_digit(c) || (b'A' <= c && c <= b'F') || (b'a' <= c && c <= b'f')
}

/// A letter or `_`.
pub fn is_start(c: u8) -> bool
    ensures { result ≡ is_start c }
{
    (b'A' <= c && c <= b'Z') || (b'a' <= c && c <= b'z') || c == b'_'
}

fn is_part(c: u8) -> bool
    ensures { result ≡ is_part c }
{
    is_start(c) || is_digit(c)
}

pub fn is_sign(c: u8) -> bool
    ensures { result ≡ is_sign c }
{
    c == b'+' || c == b'-'
}

pub fn is_e(c: u8) -> bool
    ensures { result ≡ is_e c }
{
    c == b'e' || c == b'E'
}

/// A mark of one byte.
#[tactic(auto, unfolding(crate::specs::Bytes::is_single))]
pub fn is_single(c: u8) -> bool
    ensures { result ≡ is_single c }
{
    c == b'('
        || c == b')'
        || c == b'['
        || c == b']'
        || c == b'{'
        || c == b'}'
        || c == b','
        || c == b':'
        || c == b';'
        || c == b'='
}

/// A mark of two bytes.
pub fn is_double(c: u8, d: u8) -> bool
    ensures { result ≡ is_double c d }
{
    (c == b':' && d == b':') || (c == b'.' && d == b'.')
}

/// The byte at the front, or 0 where there is none.
pub fn first_byte(bytes: &[u8]) -> u8
    ensures { result ≡ first_byte bytes.now }
{
    if bytes.is_empty() { 0 } else { bytes[0] }
}

/// The bytes from `at` on, none where there are fewer.
pub fn from(bytes: &[u8], at: usize) -> &[u8]
    ensures { result.now ≡ drop at bytes.now }
{
    if at <= bytes.len() { &bytes[at..] } else { &[] }
}

/// The first `count` bytes, all where there are fewer.
pub fn front(bytes: &[u8], count: usize) -> &[u8]
    ensures { result.now ≡ take count bytes.now }
{
    if count <= bytes.len() {
        &bytes[..count]
    } else {
        bytes
    }
}

/// How many decimal digits stand at the front.
pub fn digits(bytes: &[u8]) -> usize
    ensures value { result ≡ prefix_len is_digit bytes.now }
    ensures within { result ≤ length bytes.now }
{
    bytes.iter().take_while(|c| is_digit(**c)).count()
}

/// How many octal digits stand at the front.
pub fn octals(bytes: &[u8]) -> usize
    ensures value { result ≡ prefix_len is_octal bytes.now }
    ensures within { result ≤ length bytes.now }
{
    bytes.iter().take_while(|c| is_octal(**c)).count()
}

/// How many hexadecimal digits stand at the front.
pub fn hexes(bytes: &[u8]) -> usize
    ensures value { result ≡ prefix_len is_hex bytes.now }
    ensures within { result ≤ length bytes.now }
{
    bytes.iter().take_while(|c| is_hex(**c)).count()
}

/// How many letters, digits and `_` stand at the front.
pub fn parts(bytes: &[u8]) -> usize
    ensures value { result ≡ prefix_len is_part bytes.now }
    ensures within { result ≤ length bytes.now }
{
    bytes.iter().take_while(|c| is_part(**c)).count()
}

/// How many bytes stand before the end of the line.
pub fn line_rest(bytes: &[u8]) -> usize
    ensures value { result ≡ prefix_len is_in_line bytes.now }
    ensures within { result ≤ length bytes.now }
{
    bytes.iter().take_while(|c| **c != b'\n').count()
}
