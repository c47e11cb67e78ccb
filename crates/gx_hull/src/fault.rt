use gx_num::NoMemory;
use std::alloc::{AllocError, AllocFailed};

/// Why points have no hull.
#[derive(Clone, Copy, Debug, PartialEq, Eq)]
pub enum HullFault {
    /// There are more than 32 distinct points.
    Vertices,
    /// They are coplanar.
    Flat,
    NoMemory,
}

impl From<AllocError> for HullFault {
    ghost use Rattle.std.specs.Prelude.{◌≡◌};
    ghost use Rattle.gx_hull.specs.declared.fault.HullFault.TheVariants.{NoMemory};

    ghost from_gives = { λ _ e. e ≡ NoMemory };

    fn from(_: AllocError) -> Self {
        HullFault::NoMemory
    }
}

impl<T: Drop> From<AllocFailed<T>> for HullFault {
    ghost use Rattle.std.specs.Prelude.{◌≡◌};
    ghost use Rattle.gx_hull.specs.declared.fault.HullFault.TheVariants.{NoMemory};

    ghost from_gives = { λ _ e. e ≡ NoMemory };

    fn from(_: AllocFailed<T>) -> Self {
        HullFault::NoMemory
    }
}

impl From<NoMemory> for HullFault {
    ghost use Rattle.std.specs.Prelude.{◌≡◌};
    ghost use Rattle.gx_hull.specs.declared.fault.HullFault.TheVariants.{NoMemory as Wanting};

    ghost from_gives = { λ _ e. e ≡ Wanting };

    fn from(_: NoMemory) -> Self {
        HullFault::NoMemory
    }
}
