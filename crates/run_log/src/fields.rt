//! Numbers that fit a field.
ghost use Rattle.std.specs.Prelude.{◌≡◌, IfOk};
ghost use Rattle.run_log.specs.Steps.{Finds, IsSmall, IsCount, IsValue, IsFlag, AreValues};

use fzn_model::List;
use std::alloc::{AllocError, Global};

/// The number, where it is one of 32 bits without a sign.
pub(crate) fn small(number: &i128) -> Option<u32>
    ensures { Finds (IsSmall number.now) result }
{
    if 0 <= *number && *number <= u32::MAX as i128 {
        Some(*number as u32)
    } else {
        None
    }
}

/// The number, where it is one of 64 bits without a sign.
pub(crate) fn count(number: &i128) -> Option<u64>
    ensures { Finds (IsCount number.now) result }
{
    if 0 <= *number && *number <= u64::MAX as i128 {
        Some(*number as u64)
    } else {
        None
    }
}

/// The number, where it is one of 64 bits with a sign.
pub(crate) fn value(number: &i128) -> Option<i64>
    ensures { Finds (IsValue number.now) result }
{
    if i64::MIN as i128 <= *number && *number <= i64::MAX as i128 {
        Some(*number as i64)
    } else {
        None
    }
}

/// Whether the number is 1 rather than 0, where it is one of these.
pub(crate) fn flag(number: &i128) -> Option<bool>
    ensures { Finds (IsFlag number.now) result }
{
    match *number {
        0 => Some(false),
        1 => Some(true),
        _ => None,
    }
}

/// The numbers, where each is one of 64 bits with a sign.
pub(crate) fn values(alloc: Global, numbers: &[i128]) -> Result<Option<List<i64>>, AllocError>
    ensures { IfOk result (Finds (AreValues numbers.now)) }
{
    let mut values = List::from_vec(Vec::with_capacity(alloc, numbers.len())?);
    for number in numbers {
        match value(number) {
            None => return Ok(None),
            Some(value) => values.push(value)?,
        }
    }
    Ok(Some(values))
}
