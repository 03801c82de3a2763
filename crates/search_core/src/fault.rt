use std::alloc::AllocError;
use thiserror::Error;

/// Why a step was refused.
#[derive(Clone, Copy, Debug, PartialEq, Eq, Error)]
pub enum StepFault {
    #[error("the move isn't allowed")]
    NotAllowed,
    #[error("out of memory")]
    NoMemory,
}

impl From<AllocError> for StepFault {
    ghost use Rattle.search_core.specs.declared.fault.StepFault.TheVariants.{NoMemory};
    ghost use Rattle.std.specs.Prelude.{◌≡◌};

    ghost from_gives = { λ _ fault. fault ≡ NoMemory };

    fn from(_error: AllocError) -> StepFault {
        StepFault::NoMemory
    }
}
