ghost use Rattle.std.specs.Prelude.{◌≡◌, ℕ, ◌<◌, IfOk, length, set};
ghost use Rattle.evictor.specs.Passes.{IsWays, word_at};

use std::alloc::{AllocError, Global};
use std::marker::Model;
use std::mem::replace;

/// A cache, with the number of its words, its ways.
#[derive(Drop)]
pub struct Cache {
    pub(crate) ways: u32,
}

impl Model for Cache {
    ghost use Rattle.evictor.specs.Passes.{CacheFacts, IsWays};

    ghost Value = { CacheFacts };

    ghost view = { λ c. record { ways = c.ways } };

    ghost invariant = { λ c. IsWays c.ways };
}

/// The words of a cache. Each is 0 for an empty place, else the key of an entry and 1 more.
#[derive(Drop)]
pub struct CachePass {
    pub(crate) words: Vec<u64>,
}

impl Model for CachePass {
    ghost use Rattle.std.specs.Prelude.{length};
    ghost use Rattle.evictor.specs.Passes.{PassWords, IsWays};

    ghost Value = { PassWords };

    ghost view = { λ p. record { cache = record { ways = length p.words.items }; words = p.words.items } };

    ghost invariant = { λ p. IsWays (length p.words.items) };
}

impl CachePass {
    /// The words, in the order of their places.
    pub(crate) fn words(&self) -> &[u64]
        ensures words { result.now ≡ self.now.words }
        ensures count { length self.now.words ≡ self.now.cache.ways }
    {
        &self.words
    }

    /// Puts a word at a place, and answers the one that stood there.
    pub(crate) fn swap(&mut self, place: u32, word: u64) -> u64
        requires { place < self.old.cache.ways }
        ensures stood { result ≡ word_at self.old.words place }
        ensures words { self.new ≡ record self.old { words = set self.old.words place word } }
    {
        replace(&mut self.words[place as usize], word)
    }
}

/// So many words of 0.
fn empty_words(alloc: Global, ways: u32) -> Result<Vec<u64>, AllocError>
    ensures count { IfOk result (λ words. length words.items ≡ ways) }
    ensures empty { IfOk result (λ words. (k : ℕ) → k < ways → word_at words.items k ≡ 0) }
{
    let mut words = Vec::with_capacity(alloc, ways as usize)?;
    for _ in 0..ways {
        words.push(0)?;
    }
    Ok(words)
}

impl Cache {
    /// A cache of so many ways, each empty, and its pass. Takes memory for the words.
    pub fn new(alloc: Global, ways: u32) -> Result<(Cache, CachePass), AllocError>
        requires { IsWays ways }
        ensures cache { IfOk result (λ made. made.0 ≡ record { ways = ways }) }
        ensures own { IfOk result (λ made. made.1.cache ≡ made.0) }
        ensures empty { IfOk result (λ made. (k : ℕ) → k < ways → word_at made.1.words k ≡ 0) }
    {
        let words = empty_words(alloc, ways)?;
        Ok((Cache { ways }, CachePass { words }))
    }
}
