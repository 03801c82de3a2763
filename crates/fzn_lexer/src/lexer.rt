ghost use Rattle.std.specs.Prelude.{◌≡◌, ◌≤◌, ◌+◌, length, drop};
ghost use Rattle.fzn_lexer.specs.Passes.{spots_of, spots_from, IsPastGap};
ghost use Rattle.fzn_lexer.specs.Spots.{after_first, first, spot_of, Shows, Stays, IsWhole};
ghost use Rattle.fzn_lexer.specs.Placed.{ArePlaced};
ghost use Rattle.fzn_lexer.specs.Tokens.{AreTokens, IsOnly};

use crate::bad_byte::BadByte;
use crate::bytes::{from, front, is_white, line_rest};
use crate::longest::longest_at;
use crate::seen::Seen;
use crate::spot::Spot;
use crate::token::Token;

/// The tokens of the bytes, one after the other.
#[derive(Drop)]
pub struct Lexer<'a> {
    bytes: &'a [u8],
    at: usize,
    line: u32,
}

impl<'a> std::marker::Model for Lexer<'a> {
    ghost use Rattle.std.specs.Prelude.{List, ◌≤◌, ◌+◌, length, drop};
    ghost use Rattle.fzn_lexer.specs.Spots.{Spot};
    ghost use Rattle.fzn_lexer.specs.Passes.{spots_from};

    ghost Value = { List Spot };

    ghost view = { λ l. spots_from 0 l.line l.at (drop l.at l.bytes.now) };

    ghost invariant = { λ l.
        (l.at ≤ length l.bytes.now) × (l.line ≤ l.at + 1) × (length l.bytes.now ≤ 67108864) };
}

impl<'a> Lexer<'a> {
    /// A lexer at the front of the bytes, which are at most 67,108,864: its list is the tokens of the whole file.
    pub fn new(bytes: &'a [u8]) -> Lexer<'a>
        requires { length bytes.now ≤ 67108864 }
        ensures spots { result ≡ spots_of bytes.now }
        ensures tokens { AreTokens 1 0 bytes.now result }
        ensures only { IsOnly bytes.now result }
        ensures placed { ArePlaced bytes.now 0 result }
    {
        Lexer {
            bytes,
            at: 0,
            line: 1,
        }
    }

    /// A lexer that goes on from the same place.
    pub fn fork(&self) -> Lexer<'a>
        ensures { result ≡ self.now }
    {
        Lexer {
            bytes: self.bytes,
            at: self.at,
            line: self.line,
        }
    }

    /// What stands next: a token, which is passed, or the end of the input or a bad byte, which stay.
    pub fn spot(&mut self) -> Spot<'a>
        ensures value { spot_of result ≡ first self.old }
        ensures moved { self.new ≡ after_first self.old }
        ensures whole { IsWhole self.old }
    {
        let (at, line) = past_gap(self.bytes, self.at, self.line);
        let place = at as u32;
        if at == self.bytes.len() {
            return Spot {
                seen: Seen::End,
                text: &[],
                line,
                from: place,
                to: place,
            };
        }
        match longest_at(from(self.bytes, at)) {
            None => Spot {
                seen: Seen::Bad,
                text: &[],
                line,
                from: place,
                to: place + 1,
            },
            Some((kind, count)) => {
                let text = front(from(self.bytes, at), count);
                self.at = at + count;
                self.line = line;
                Spot {
                    seen: Seen::Known(kind),
                    text,
                    line,
                    from: place,
                    to: (at + count) as u32,
                }
            }
        }
    }

    /// The next token; `Ok(None)` exactly at the end of the input, an error exactly where no token begins. Each later
    /// call answers the same.
    pub fn next(&mut self) -> Result<Option<Token<'a>>, BadByte>
        ensures value { Shows result (first self.old) }
        ensures moved { self.new ≡ after_first self.old }
        ensures stays { Stays result self.old self.new }
    {
        let spot = self.spot();
        match spot.seen {
            Seen::End => Ok(None),
            Seen::Bad => Err(BadByte {
                line: spot.line,
                from: spot.from,
            }),
            Seen::Known(kind) => Ok(Some(Token {
                kind,
                text: spot.text,
                line: spot.line,
                from: spot.from,
                to: spot.to,
            })),
        }
    }
}

/// Past the white space and the comments from `at` on, and on which line.
fn past_gap(bytes: &[u8], at: usize, line: u32) -> (usize, u32)
    requires within { at ≤ length bytes.now }
    requires lines { line ≤ at + 1 }
    requires few { length bytes.now ≤ 67108864 }
    ensures same { spots_from 0 result.1 result.0 (drop result.0 bytes.now) ≡ spots_from 0 line at (drop at bytes.now) }
    ensures within { result.0 ≤ length bytes.now }
    ensures lines { result.1 ≤ result.0 + 1 }
    ensures stops { IsPastGap (drop result.0 bytes.now) }
{
    let mut at = at;
    let mut line = line;
    while at < bytes.len() {
        if bytes[at] == b'\n' {
            line += 1;
            at += 1;
        } else if is_white(bytes[at]) {
            at += 1;
        } else if bytes[at] == b'%' {
            at += 1 + line_rest(from(bytes, at + 1));
        } else {
            return (at, line);
        }
    }
    (at, line)
}
