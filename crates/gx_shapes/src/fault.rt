use gx_table::FaultName;
use std::alloc::{AllocError, AllocFailed};

/// Why values make no solid.
#[derive(Clone, Copy, Debug, PartialEq, Eq)]
pub enum SolidFault {
    /// A value has this fault, at its place from 0.
    At(u32, FaultName),
    /// The solid as a whole has it.
    Whole(FaultName),
    NoMemory,
}

impl From<AllocError> for SolidFault {
    ghost use Rattle.std.specs.Prelude.{◌≡◌};
    ghost use Rattle.gx_shapes.specs.declared.fault.SolidFault.TheVariants.{NoMemory as Wanting};

    ghost from_gives = { λ _ e. e ≡ Wanting };

    fn from(_: AllocError) -> Self {
        SolidFault::NoMemory
    }
}

impl<T: Drop> From<AllocFailed<T>> for SolidFault {
    ghost use Rattle.std.specs.Prelude.{◌≡◌};
    ghost use Rattle.gx_shapes.specs.declared.fault.SolidFault.TheVariants.{NoMemory as Wanting};

    ghost from_gives = { λ _ e. e ≡ Wanting };

    fn from(_: AllocFailed<T>) -> Self {
        SolidFault::NoMemory
    }
}
