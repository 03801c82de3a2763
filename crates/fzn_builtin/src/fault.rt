use std::alloc::AllocError;
use thiserror::Error;

/// Why no constraint was built.
#[derive(Clone, Copy, Debug, PartialEq, Eq, Error)]
pub enum BuildFault {
    #[error("lists of different lengths, or an empty one")]
    Lengths,
    #[error("out of memory")]
    NoMemory,
}

impl From<AllocError> for BuildFault {
    ghost use Rattle.fzn_builtin.specs.declared.fault.BuildFault.TheVariants.{NoMemory};
    ghost use Rattle.std.specs.Prelude.{◌≡◌};

    ghost from_gives = { λ _ fault. fault ≡ NoMemory };

    fn from(_error: AllocError) -> BuildFault {
        BuildFault::NoMemory
    }
}
