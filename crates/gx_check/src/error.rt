ghost use Rattle.std.specs.Prelude.{◌≡◌};
ghost use Rattle.gx_check.specs.declared.error.CheckError.TheVariants.{Out as Refused, NoMemory as Wanting};

use gx_io::Failed;
use gx_num::NoMemory;
use thiserror::Error;

/// Why not all verdicts were given.
#[derive(Clone, Copy, Debug, PartialEq, Eq, Error)]
pub enum CheckError {
    /// The receiver failed.
    #[error("Out")]
    Out,
    #[error("NoMemory")]
    NoMemory,
}

impl From<Failed> for CheckError {
    ghost from_gives = { λ _ e. e ≡ Refused };

    fn from(_: Failed) -> Self {
        CheckError::Out
    }
}

impl From<NoMemory> for CheckError {
    ghost from_gives = { λ _ e. e ≡ Wanting };

    fn from(_: NoMemory) -> Self {
        CheckError::NoMemory
    }
}
