//! Parts of a text.
ghost use Rattle.std.specs.Prelude.{◌≡◌, ◌≤◌, ◌==◌, length, take, drop, count_by};
ghost use Rattle.run_log.specs.Steps.{Splits};

/// How often the byte is in the bytes.
pub(crate) fn count_of(bytes: &[u8], byte: u8) -> usize
    ensures { result ≡ count_by (λ b. b == byte) bytes.now }
{
    bytes.iter().filter(|b| **b == byte).count()
}

/// How many bytes stand before the first place of this one; all where it isn't among them.
pub(crate) fn count_before(bytes: &[u8], byte: u8) -> usize
    ensures within { result ≤ length bytes.now }
    ensures splits { Splits byte bytes.now (take result bytes.now) (drop result bytes.now) }
{
    bytes.iter().take_while(|b| **b != byte).count()
}

/// All bytes but the first.
pub(crate) fn without_first(bytes: &[u8]) -> &[u8]
    ensures { result.now ≡ drop 1 bytes.now }
{
    if bytes.is_empty() { bytes } else { &bytes[1..] }
}
