ghost use Rattle.std.specs.Prelude.{◌≡◌};
ghost use Rattle.gx_io.specs.declared.error.IoError.TheVariants.{NoMemory as OutOfMemory, Failed as Faulted};

use crate::Failed;
use gx_num::NoMemory;
use std::alloc::AllocError;
use thiserror::Error;

/// Why a source could not be read to its end.
#[derive(Clone, Copy, Debug, PartialEq, Eq, Error)]
pub enum IoError {
    #[error("Failed")]
    Failed,
    #[error("NoMemory")]
    NoMemory,
}

impl From<Failed> for IoError {
    ghost from_gives = { λ _ e. e ≡ Faulted };

    fn from(_: Failed) -> Self {
        IoError::Failed
    }
}

impl From<NoMemory> for IoError {
    ghost from_gives = { λ _ e. e ≡ OutOfMemory };

    fn from(_: NoMemory) -> Self {
        IoError::NoMemory
    }
}

impl From<AllocError> for IoError {
    ghost from_gives = { λ _ e. e ≡ OutOfMemory };

    fn from(_: AllocError) -> Self {
        IoError::NoMemory
    }
}
