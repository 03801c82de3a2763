ghost use Rattle.std.specs.Prelude.{◌≡◌, ◌≤◌, length, IfOk, IfErr};
ghost use Rattle.run_log.specs.Readings.{IsLog, IsFaultOf};

use crate::bytes::{count_before, count_of, without_first};
use crate::entry::LogEntry;
use crate::read_entry::read_line;
use fzn_model::List;
use std::alloc::{AllocError, Global};
use thiserror::Error;

/// Why a text wasn't read as a log: that line of it, counted from 1, is none, or no memory was left.
#[derive(Clone, Copy, Debug, PartialEq, Eq, Error)]
pub enum LogFault {
    #[error("line {0} is no line of a log")]
    BadLine(u32),
    #[error("out of memory")]
    NoMemory,
}

impl From<AllocError> for LogFault {
    ghost use Rattle.std.specs.Prelude.{◌≡◌};
    ghost use Rattle.run_log.specs.declared.reading.LogFault.TheVariants.{NoMemory};

    ghost from_gives = { λ _ fault. fault ≡ NoMemory };

    fn from(_error: AllocError) -> LogFault {
        LogFault::NoMemory
    }
}

/// Reads a log of at most 67,108,864 bytes: a list of entries, one a line. The last line feed may lack.
///
/// `BadLine` names the first line that is none. Takes memory for the entries, about 20 bytes for each of the text at most.
pub fn read_log(alloc: Global, bytes: &[u8]) -> Result<List<LogEntry>, LogFault>
    requires { length bytes.now ≤ 67108864 }
    ensures read { IfOk result (IsLog bytes.now) }
    ensures fault { IfErr result (IsFaultOf bytes.now) }
{
    let mut entries = List::from_vec(Vec::with_capacity(alloc, count_of(bytes, b'\n') + 1)?);
    let mut rest = bytes;
    while !rest.is_empty() {
        let (line, behind) = rest.split_at(count_before(rest, b'\n'));
        let Some(entry) = read_line(alloc, line)? else {
            return Err(LogFault::BadLine(entries.as_slice().len() as u32 + 1));
        };
        entries.push(entry)?;
        rest = without_first(behind);
    }
    Ok(entries)
}
