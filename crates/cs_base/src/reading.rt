ghost use Rattle.std.specs.Prelude.{◌≡◌, ◌≤◌, Err};
ghost use Rattle.cs_base.specs.Causes.{Rose};
ghost use Rattle.cs_base.specs.Taken.{IsReading};
ghost use Rattle.cs_base.specs.declared.reading.ReadFault.TheVariants as fault;

use crate::failed::Failed;
use crate::source::Source;
use std::alloc::Global;
use thiserror::Error;

/// All bytes of a source, or that it has more than were asked for.
#[derive(Debug, Drop)]
pub enum Whole {
    Bytes(Vec<u8>),
    More,
}

/// Why a source wasn't read: a call of it failed, or no memory was left.
#[derive(Debug, Drop, Error)]
pub enum ReadFault {
    #[error("a read failed")]
    Fault,
    #[error("out of memory")]
    NoMemory,
}

/// Reads to the end, or until one byte more than the limit was taken. Each turn takes at least one byte.
///
/// `Bytes` has all bytes that were left, at most `limit` of them. `More` comes exactly where `limit + 1` bytes were
/// taken. `Fault` comes only where the source's count of faults rose.
#[tactic(auto, using(crate::proofs::Bytes::consumes_none, crate::proofs::Bytes::consumes_more, crate::proofs::Bytes::consumes_kept))]
pub fn read_all<S: Source>(alloc: Global, source: &mut S, limit: usize) -> Result<Whole, ReadFault>
    ensures taken { IsReading limit (S.left source.old) (S.left source.new) result }
    ensures chosen { S.chosen source.new ≡ S.chosen source.old }
    ensures later { S.faults source.old ≤ S.faults source.new }
    ensures fault { result ≡ Err fault.Fault → Rose (S.faults source.old) (S.faults source.new) }
    ensures kept { (result ≡ Err fault.Fault → ⊥) → S.faults source.new ≡ S.faults source.old }
{
    let mut bytes = Vec::new(alloc);
    let mut buf = [0u8; 4096];
    while bytes.len() <= limit {
        let room = (limit - bytes.len()).min(4095) + 1;
        let count = match source.read(&mut buf[..room]) {
            Ok(count) => count,
            Err(Failed) => return Err(ReadFault::Fault),
        };
        if count == 0 {
            return Ok(Whole::Bytes(bytes));
        }
        if count > limit - bytes.len() {
            return Ok(Whole::More);
        }
        if bytes.extend_from_slice(&buf[..count]).is_err() {
            return Err(ReadFault::NoMemory);
        }
    }
    unreachable!()
}
