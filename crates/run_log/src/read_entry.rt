//! One line of a log.
ghost use Rattle.std.specs.Prelude.{◌≡◌, codes, All, FitsSigned, IfOk};
ghost use Rattle.std.specs.Int.{w128};
ghost use Rattle.run_log.specs.Steps.{Finds, IsEntry, HasText};

use crate::bytes::count_before;
use crate::entry::LogEntry;
use crate::fields::{value, values};
use crate::line::LogLine;
use crate::numbers::numbers;
use crate::plain::plain;
use fzn_model::List;
use std::alloc::{AllocError, Global};

fn rest(alloc: Global, numbers: &[i128]) -> Result<Option<LogEntry>, AllocError>
    requires { All (FitsSigned w128) numbers.now }
    ensures { IfOk result (Finds (IsEntry (codes "rest") numbers.now)) }
{
    let [offset, words @ ..] = numbers else {
        return Ok(None);
    };
    Ok(Some(LogEntry {
        line: LogLine::Rest { offset: *offset },
        words: List::from_slice(alloc, words)?,
        values: List::new(alloc),
    }))
}

fn solution(alloc: Global, numbers: &[i128]) -> Result<Option<LogEntry>, AllocError>
    ensures { IfOk result (Finds (IsEntry (codes "solution") numbers.now)) }
{
    let [cost, more @ ..] = numbers else {
        return Ok(None);
    };
    let Some(cost) = value(cost) else {
        return Ok(None);
    };
    match values(alloc, more)? {
        None => Ok(None),
        Some(values) => Ok(Some(LogEntry {
            line: LogLine::Solution { cost },
            words: List::new(alloc),
            values,
        })),
    }
}

/// The entry of this name that shows these numbers.
fn entry(alloc: Global, name: &[u8], numbers: &[i128]) -> Result<Option<LogEntry>, AllocError>
    requires { All (FitsSigned w128) numbers.now }
    ensures { IfOk result (Finds (IsEntry name.now numbers.now)) }
{
    if name == b"rest".as_slice() {
        return rest(alloc, numbers);
    }
    if name == b"solution".as_slice() {
        return solution(alloc, numbers);
    }
    match plain(name, numbers) {
        None => Ok(None),
        Some(line) => Ok(Some(LogEntry {
            line,
            words: List::new(alloc),
            values: List::new(alloc),
        })),
    }
}

/// The entry whose text the line is.
pub(crate) fn read_line(alloc: Global, line: &[u8]) -> Result<Option<LogEntry>, AllocError>
    ensures { IfOk result (Finds (HasText line.now)) }
{
    let Some(text) = line.strip_prefix(b"%log ") else {
        return Ok(None);
    };
    let (name, behind) = text.split_at(count_before(text, b' '));
    match numbers(alloc, behind)? {
        None => Ok(None),
        Some(numbers) => entry(alloc, name, numbers.as_slice()),
    }
}
