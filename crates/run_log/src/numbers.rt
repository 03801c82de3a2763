//! Numbers in their canonical decimal form.
ghost use Rattle.std.specs.Prelude.{◌≡◌, IfOk};
ghost use Rattle.run_log.specs.Steps.{Finds, IsNumber, AreNumbers};

use crate::bytes::{count_before, count_of};
use fzn_model::List;
use itoa::Buffer;
use std::alloc::{AllocError, Global};

/// The number whose text the word is.
fn number(word: &[u8]) -> Option<i128>
    ensures { Finds (IsNumber word.now) result }
{
    let Ok(text) = std::str::from_utf8(word) else {
        return None;
    };
    let Ok(value) = text.parse::<i128>() else {
        return None;
    };
    if Buffer::new().format(value) == text {
        Some(value)
    } else {
        None
    }
}

/// The numbers whose text this is, with a space before each.
pub(crate) fn numbers(alloc: Global, text: &[u8]) -> Result<Option<List<i128>>, AllocError>
    ensures { IfOk result (Finds (AreNumbers text.now)) }
{
    let mut found = List::from_vec(Vec::with_capacity(alloc, count_of(text, b' '))?);
    let mut rest = text;
    while !rest.is_empty() {
        let Some(behind) = rest.strip_prefix(b" ") else {
            return Ok(None);
        };
        let (word, more) = behind.split_at(count_before(behind, b' '));
        let Some(number) = number(word) else {
            return Ok(None);
        };
        found.push(number)?;
        rest = more;
    }
    Ok(Some(found))
}
