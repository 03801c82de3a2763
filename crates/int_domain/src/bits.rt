//! Words of 64 bits as a row of 1,024 places, the lowest bit of the first word first.

ghost use Rattle.std.specs.Prelude.{◌≡◌, ℕ, ◌+◌, ◌-◌, ◌*◌, ◌/◌, ◌%◌, ◌<◌, ◌≤◌, ◌==◌};
ghost use Rattle.std.specs.Int.{bit_at};
ghost use Rattle.int_domain.specs.Bits.{bit_of, set_between};

/// How many words a bitmap has, of 64 bits each.
pub(crate) const WORDS: usize = 16;

/// The word at `index` of a row in which the places `from..end` have the bit 1, and all others 0.
fn mask(index: usize, from: usize, end: usize) -> u64
    requires { index < WORDS }
    ensures inside { (k : ℕ) → k / 64 ≡ index → from ≤ k → k < end → bit_at result (k % 64) ≡ 1 }
    ensures below { (k : ℕ) → k / 64 ≡ index → k < from → bit_at result (k % 64) ≡ 0 }
    ensures above { (k : ℕ) → k / 64 ≡ index → end ≤ k → bit_at result (k % 64) ≡ 0 }
{
    let first = from.saturating_sub(64 * index).min(64);
    let after = end.saturating_sub(64 * index).min(64);
    if first < after {
        ones_between(first, after)
    } else {
        0
    }
}

/// The word in which the bits `first..after` are 1.
fn ones_between(first: usize, after: usize) -> u64
    requires ordered { first < after }
    requires within { after ≤ 64 }
    ensures inside { (j : ℕ) → first ≤ j → j < after → bit_at result j ≡ 1 }
    ensures below { (j : ℕ) → j < first → bit_at result j ≡ 0 }
    ensures above { (j : ℕ) → after ≤ j → bit_at result j ≡ 0 }
{
    (u64::MAX << first) & (u64::MAX >> (64 - after))
}

/// The place of the lowest bit that is 1.
fn lowest_one(word: u64) -> usize
    requires { 0 < word }
    ensures within { result < 64 }
    ensures one { bit_at word result ≡ 1 }
    ensures below { (j : ℕ) → j < result → bit_at word j ≡ 0 }
{
    word.trailing_zeros() as usize
}

/// The place of the highest bit that is 1.
fn highest_one(word: u64) -> usize
    requires { 0 < word }
    ensures within { result < 64 }
    ensures one { bit_at word result ≡ 1 }
    ensures above { (j : ℕ) → result < j → bit_at word j ≡ 0 }
{
    63 - word.leading_zeros() as usize
}

/// The word at `index`, with the bit 0 at each place that is not in `from..end`.
fn part(words: &[u64; WORDS], index: usize, from: usize, end: usize) -> u64
    requires { index < WORDS }
    ensures inside { (k : ℕ) → k / 64 ≡ index → from ≤ k → k < end → bit_at result (k % 64) ≡ bit_of words.now k }
    ensures below { (k : ℕ) → k / 64 ≡ index → k < from → bit_at result (k % 64) ≡ 0 }
    ensures above { (k : ℕ) → k / 64 ≡ index → end ≤ k → bit_at result (k % 64) ≡ 0 }
{
    words[index] & mask(index, from, end)
}

/// The first of the places `from..=last` with the bit 1; that of `last` is 1.
pub(crate) fn first_one(words: &[u64; WORDS], from: usize, last: usize) -> usize
    requires ordered { from ≤ last }
    requires within { last < 1024 }
    requires one { bit_of words.now last ≡ 1 }
    ensures bounds { (from ≤ result) × (result ≤ last) }
    ensures one { bit_of words.now result ≡ 1 }
    ensures below { (k : ℕ) → from ≤ k → k < result → bit_of words.now k ≡ 0 }
{
    for index in from / 64..last / 64 + 1 {
        let word = part(words, index, from, last + 1);
        if word != 0 {
            return 64 * index + lowest_one(word);
        }
    }
    last
}

/// The last of the places `first..=to` with the bit 1; that of `first` is 1.
pub(crate) fn last_one(words: &[u64; WORDS], first: usize, to: usize) -> usize
    requires ordered { first ≤ to }
    requires within { to < 1024 }
    requires one { bit_of words.now first ≡ 1 }
    ensures bounds { (first ≤ result) × (result ≤ to) }
    ensures one { bit_of words.now result ≡ 1 }
    ensures above { (k : ℕ) → result < k → k ≤ to → bit_of words.now k ≡ 0 }
{
    for index in (first / 64..to / 64 + 1).rev() {
        let word = part(words, index, first, to + 1);
        if word != 0 {
            return 64 * index + highest_one(word);
        }
    }
    first
}

/// How many of the places `from..end` have the bit 1.
pub(crate) fn count_ones_between(words: &[u64; WORDS], from: usize, end: usize) -> u64
    requires ordered { from ≤ end }
    requires within { end ≤ 1024 }
    ensures { result ≡ set_between words.now from end }
{
    let mut count = 0;
    for index in from / 64..(end + 63) / 64 {
        count += u64::from(part(words, index, from, end).count_ones());
    }
    count
}

/// Gives all places the bit 1.
pub(crate) fn all_ones() -> [u64; WORDS]
    ensures { (k : ℕ) → k < 1024 → bit_of result k ≡ 1 }
{
    [u64::MAX; WORDS]
}

/// Gives the places `from..end` the bit 1.
pub(crate) fn set_ones(words: &mut [u64; WORDS], from: usize, end: usize)
    requires ordered { from < end }
    requires within { end ≤ 1024 }
    ensures inside { (k : ℕ) → from ≤ k → k < end → bit_of words.new k ≡ 1 }
    ensures below { (k : ℕ) → k < from → bit_of words.new k ≡ bit_of words.old k }
    ensures above { (k : ℕ) → end ≤ k → bit_of words.new k ≡ bit_of words.old k }
{
    for index in from / 64..(end - 1) / 64 + 1 {
        words[index] |= mask(index, from, end);
    }
}

/// Gives one place the bit 0.
pub(crate) fn clear_one(words: &mut [u64; WORDS], place: usize)
    requires { place < 1024 }
    ensures cleared { bit_of words.new place ≡ 0 }
    ensures others { (k : ℕ) → k < 1024 → (k ≡ place → ⊥) → bit_of words.new k ≡ bit_of words.old k }
{
    words[place / 64] &= !(1 << (place % 64));
}

/// Whether the bit at a place is 1.
#[tactic(auto, unfolding(crate::specs::Bits::bit_of), using(std::proofs::lemmas::Nat::Bits::shr_and_one))]
pub(crate) fn is_one(words: &[u64; WORDS], place: usize) -> bool
    requires { place < 1024 }
    ensures { result ≡ (bit_of words.now place == 1) }
{
    (words[place / 64] >> (place % 64)) & 1 == 1
}
