ghost use Rattle.std.specs.Prelude.{◌≡◌, ◌≤◌, ◌∷◌, [], length};
ghost use Rattle.fzn_lexer.specs.Passes.{spots_of};
ghost use Rattle.fzn_lexer.specs.Spots.{spot_of, first, after_first, IsWhole};
ghost use Rattle.fzn_reader.specs.Refusals.{refusal, is_mark, is_word, mark_at, word_at, separator_at, name_at, is_reserved};
ghost use Rattle.fzn_reader.specs.Answers.{Agrees};

use crate::code::Code;
use crate::refused::Refused;
use fzn_lexer::{Kind, Lexer, Seen, Spot};

/// A reader with one token in hand. Contracts see the tokens from there on, and behind them the end of the input or a
/// byte that begins no token.
#[derive(Drop)]
pub struct Reader<'a> {
    lexer: Lexer<'a>,
    here: Spot<'a>,
}

impl<'a> std::marker::Model for Reader<'a> {
    ghost use Rattle.std.specs.Prelude.{List};
    ghost use Rattle.fzn_lexer.specs.Spots.{Spot as SpotRecord, spot_of};
    ghost use Rattle.fzn_reader.specs.Invariants.{in_hand};

    ghost Value = { List SpotRecord };

    ghost view = { λ r. in_hand r.here.seen (spot_of r.here) r.lexer };
}

impl<'a> Reader<'a> {
    /// At the first token of the bytes.
    pub fn new(bytes: &'a [u8]) -> Reader<'a>
        requires { length bytes.now ≤ 67108864 }
        ensures { result ≡ spots_of bytes.now }
    {
        let mut lexer = Lexer::new(bytes);
        let here = lexer.spot();
        Reader { lexer, here }
    }

    /// A reader that goes on from the same token.
    pub fn fork(&self) -> Reader<'a>
        ensures { result ≡ self.now }
    {
        Reader {
            lexer: self.lexer.fork(),
            here: self.here,
        }
    }

    /// What is in hand.
    pub fn here(&self) -> Spot<'a>
        ensures { spot_of result ≡ first self.now }
    {
        self.here
    }

    /// Past the token in hand. The end and a bad byte stay.
    pub fn advance(&mut self)
        ensures { self.new ≡ after_first self.old }
    {
        if let Seen::Known(_) = self.here.seen {
            self.here = self.lexer.spot();
        }
    }

    /// Whether the token in hand is this mark.
    pub fn is_mark(&self, text: &[u8]) -> bool
        ensures { result ≡ is_mark text.now self.now }
    {
        let here = self.here();
        if let Seen::Known(Kind::Mark) = here.seen {
            here.text == text
        } else {
            false
        }
    }

    /// Whether the token in hand is this word.
    pub fn is_word(&self, text: &[u8]) -> bool
        ensures { result ≡ is_word text.now self.now }
    {
        let here = self.here();
        if let Seen::Known(Kind::Word) = here.seen {
            here.text == text
        } else {
            false
        }
    }

    /// The refusal that the token in hand shows.
    pub fn refuse(&self, code: Code) -> Refused
        ensures { result ≡ refusal code (first self.now) }
    {
        refused(code, self.here())
    }

    /// Past this mark.
    #[tactic(auto, unfolding(crate::specs::Refusals::mark_at))]
    pub fn mark(&mut self, text: &[u8]) -> Result<(), Refused>
        ensures { Agrees (λ _. self.new) result (mark_at text.now self.old) }
    {
        if !self.is_mark(text) {
            return Err(self.refuse(Code::Syntax));
        }
        self.advance();
        Ok(())
    }

    /// Past this word.
    #[tactic(auto, unfolding(crate::specs::Refusals::word_at))]
    pub fn word(&mut self, text: &[u8]) -> Result<(), Refused>
        ensures { Agrees (λ _. self.new) result (word_at text.now self.old) }
    {
        if !self.is_word(text) {
            return Err(self.refuse(Code::Syntax));
        }
        self.advance();
        Ok(())
    }

    /// Past a comma; the closing mark stays.
    #[tactic(auto, unfolding(crate::specs::Refusals::separator_at))]
    pub fn separator(&mut self, close: &[u8]) -> Result<(), Refused>
        ensures { Agrees (λ _. self.new) result (separator_at close.now self.old) }
    {
        if self.is_mark(close) {
            return Ok(());
        }
        self.mark(b",")
    }

    /// Past a name, which is answered.
    #[tactic(auto, unfolding(crate::specs::Refusals::name_at))]
    pub fn name(&mut self) -> Result<&'a [u8], Refused>
        ensures { Agrees (λ x. (x.now, self.new)) result (name_at self.old) }
    {
        let here = self.here();
        if let Seen::Known(Kind::Word) = here.seen {
            if !is_reserved(here.text) {
                self.advance();
                return Ok(here.text);
            }
        }
        Err(self.refuse(Code::Syntax))
    }
}

/// Whether a word is reserved.
pub fn is_reserved(word: &[u8]) -> bool
    ensures { result ≡ is_reserved word.now }
{
    word == b"array".as_slice()
        || word == b"bool".as_slice()
        || word == b"constraint".as_slice()
        || word == b"false".as_slice()
        || word == b"float".as_slice()
        || word == b"int".as_slice()
        || word == b"maximize".as_slice()
        || word == b"minimize".as_slice()
        || word == b"of".as_slice()
        || word == b"predicate".as_slice()
        || word == b"satisfy".as_slice()
        || word == b"set".as_slice()
        || word == b"solve".as_slice()
        || word == b"true".as_slice()
        || word == b"var".as_slice()
}

/// The refusal that this token shows.
pub fn refused(code: Code, spot: Spot) -> Refused
    ensures { result ≡ refusal code (spot_of spot.entry) }
{
    Refused {
        code,
        line: spot.line,
        from: spot.from,
        to: spot.to,
    }
}

/// More than the tokens of any file.
pub const MOST: u32 = 67_108_865;
