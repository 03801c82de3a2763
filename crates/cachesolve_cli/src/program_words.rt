ghost use Rattle.std.specs.Prelude.{◌≡◌, ◌⊎◌, ◌↔◌, IfOk, IfErr, drop, map, string_bytes};
ghost use Rattle.std.specs.IoError.{error_kind};
ghost use Rattle.std.specs.Vec.Iter.{into_iter_items};
ghost use Rattle.std.specs.Io.KnownBytes.{Appends};
ghost use Rattle.cs_base.specs.Causes.{Rose, AppendsFront};
ghost use Rattle.cachesolve_cli.specs.Words.{status_without, message_without};
ghost use Rattle.cachesolve_cli.specs.declared.program_words.WordsFault.TheVariants as fault;

use cs_base::{Sink, Status, Words, write_whole};
use std::alloc::Global;
use std::env::Args;
use std::io::{Error, ErrorKind};

/// Why the program's words can't be had from the system: for want of memory, or for any other cause.
#[derive(Clone, Copy, Debug, PartialEq, Eq)]
pub enum WordsFault {
    NoMemory,
    Other,
}

/// Why the call of the system failed.
pub fn cause_of(error: &Error) -> WordsFault
    ensures { (result ≡ fault.NoMemory) ↔ (error_kind error.now ≡ ErrorKind.OutOfMemory) }
{
    if error.kind() == ErrorKind::OutOfMemory {
        WordsFault::NoMemory
    } else {
        WordsFault::Other
    }
}

/// The words behind the first one, which is the program's name.
pub fn behind_name(alloc: Global, mut all: Args) -> Result<Words, WordsFault>
    ensures words { IfOk result (λ words. words ≡ map string_bytes (drop 1 (into_iter_items all))) }
    ensures fault { IfErr result (λ e. e ≡ fault.NoMemory) }
{
    let mut words = Vec::new(alloc);
    let _name = all.next();
    for word in all {
        if words.push(word).is_err() {
            return Err(WordsFault::NoMemory);
        }
    }
    Ok(Words::new(words))
}

/// Says that the words can't be had, and why.
pub fn end_without<E: Sink>(fault: WordsFault, err: &mut E) -> Status
    ensures status { result.code ≡ status_without fault }
    ensures told { Appends (E.written err.old) (E.written err.new) (message_without fault) ⊎ (Rose (E.faults err.old) (E.faults err.new) × AppendsFront (E.written err.old) (E.written err.new) (message_without fault)) }
{
    match fault {
        WordsFault::NoMemory => {
            let _ = write_whole(err, b"cachesolve: out of memory\n");
            Status { code: 4 }
        }
        WordsFault::Other => {
            let _ = write_whole(err, b"cachesolve: the words are no text\n");
            Status { code: 9 }
        }
    }
}
