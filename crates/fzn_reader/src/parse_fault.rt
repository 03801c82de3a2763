ghost use Rattle.std.specs.Prelude.{◌≡◌};
ghost use Rattle.fzn_reader.specs.declared.parse_fault.ParseFault.TheVariants as fault;

use crate::refused::Refused;
use std::alloc::{AllocError, AllocFailed};

/// Why no model is answered.
#[derive(Clone, Copy, Debug, PartialEq, Eq)]
pub enum ParseFault {
    /// The file is no model within the limits.
    Refused(Refused),
    /// There is no memory for the model.
    NoMemory,
}

impl From<Refused> for ParseFault {
    ghost from_gives = { λ refused answer. answer ≡ fault.Refused refused };

    fn from(refused: Refused) -> ParseFault {
        ParseFault::Refused(refused)
    }
}

impl From<AllocError> for ParseFault {
    ghost from_gives = { λ _ answer. answer ≡ fault.NoMemory };

    fn from(_: AllocError) -> ParseFault {
        ParseFault::NoMemory
    }
}

impl<T: Drop> From<AllocFailed<T>> for ParseFault {
    ghost from_gives = { λ _ answer. answer ≡ fault.NoMemory };

    fn from(_: AllocFailed<T>) -> ParseFault {
        ParseFault::NoMemory
    }
}
