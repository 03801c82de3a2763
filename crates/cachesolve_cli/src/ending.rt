ghost use Rattle.std.specs.Prelude.{◌≡◌};
ghost use Rattle.cs_base.specs.Causes.{HasCause, AppendsPart};
ghost use Rattle.cachesolve_cli.specs.Ways.{name_of, status_of, message_of};

use cs_base::{Failed, Sink, write_whole};
use fzn_parser::{Code, Refused};
use incumbent_board::Why;
use solution_out::write_refusal;

/// How a run ends.
#[derive(Clone, Copy, Debug)]
pub enum Ending<'a> {
    Decided,
    /// The answer is undecided, and was written.
    Undecided(Why),
    WrongWords,
    NoMemory,
    /// The model is refused, with the bytes of the token that shows it, none at the end of the input.
    Refused(Refused, &'a [u8]),
    ReadFailed,
    WriteFailed,
}

/// What is said of wrong words: how to use the program.
const USAGE: &[u8] =
    b"cachesolve: wrong words; use cachesolve [-p N] [-s] [--cache N] [--key-words N] [--nodes N] [--log] [--make N] [FILE]\n";

/// The name of a reason for refusing a model.
fn name_of(code: Code) -> &'static [u8]
    ensures { result.now ≡ name_of code }
{
    match code {
        Code::Syntax => b"syntax",
        Code::UnknownConstraint => b"unknown constraint",
        Code::Float => b"float",
        Code::SetVar => b"set variable",
        Code::Undeclared => b"undeclared",
        Code::DeclaredTwice => b"declared twice",
        Code::WrongArguments => b"wrong arguments",
        Code::OutOfRange => b"out of range",
        Code::Lengths => b"lengths",
        Code::TooMany => b"too many",
        Code::TooLong => b"too long",
        Code::NoSolve => b"no solve",
        Code::TwoSolves => b"two solves",
        Code::TooDeep => b"too deep",
    }
}

impl Ending<'_> {
    /// The status that the program ends with.
    pub fn status(&self) -> u8
        ensures { result ≡ status_of self.now }
    {
        match self {
            Ending::Decided => 0,
            Ending::WrongWords => 2,
            Ending::Undecided(Why::Budget) => 3,
            Ending::Undecided(Why::Memory) => 4,
            Ending::NoMemory => 4,
            Ending::Refused(_, _) => 5,
            Ending::ReadFailed => 6,
            Ending::WriteFailed => 7,
        }
    }

    /// Appends the message, nothing where the run was decided or its node budget was spent.
    pub fn tell<E: Sink>(&self, err: &mut E) -> Result<(), Failed>
        ensures text { AppendsPart (E.written err.old) (E.written err.new) (message_of self.now) result }
        ensures cause { HasCause (E.faults err.old) (E.faults err.new) result }
    {
        match self {
            Ending::Decided | Ending::Undecided(Why::Budget) => write_whole(err, b""),
            Ending::Undecided(Why::Memory) => write_whole(err, b"cachesolve: out of memory\n"),
            Ending::WrongWords => write_whole(err, USAGE),
            Ending::NoMemory => write_whole(err, b"cachesolve: out of memory\n"),
            Ending::Refused(refused, token) => {
                write_refusal(err, refused.line, name_of(refused.code), token)
            }
            Ending::ReadFailed => write_whole(err, b"cachesolve: read failed\n"),
            Ending::WriteFailed => write_whole(err, b"cachesolve: write failed\n"),
        }
    }
}
