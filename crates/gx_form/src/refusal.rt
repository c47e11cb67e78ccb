use crate::fault::Fault;
use gx_num::NoMemory;
use std::alloc::{AllocError, AllocFailed};

/// Why something can't be read: it has this fault, or memory is wanting.
#[derive(Clone, Copy, Debug, PartialEq, Eq)]
pub enum Refusal {
    At(Fault),
    NoMemory,
}

impl From<Fault> for Refusal {
    ghost use Rattle.std.specs.Prelude.{◌≡◌};
    ghost use Rattle.gx_form.specs.declared.refusal.Refusal.TheVariants.{At};

    ghost from_gives = { λ fault e. e ≡ At fault };

    fn from(fault: Fault) -> Self {
        Refusal::At(fault)
    }
}

impl From<NoMemory> for Refusal {
    ghost use Rattle.std.specs.Prelude.{◌≡◌};
    ghost use Rattle.gx_form.specs.declared.refusal.Refusal.TheVariants.{NoMemory as Wanting};

    ghost from_gives = { λ _ e. e ≡ Wanting };

    fn from(_: NoMemory) -> Self {
        Refusal::NoMemory
    }
}

impl From<AllocError> for Refusal {
    ghost use Rattle.std.specs.Prelude.{◌≡◌};
    ghost use Rattle.gx_form.specs.declared.refusal.Refusal.TheVariants.{NoMemory as Wanting};

    ghost from_gives = { λ _ e. e ≡ Wanting };

    fn from(_: AllocError) -> Self {
        Refusal::NoMemory
    }
}

impl<T: Drop> From<AllocFailed<T>> for Refusal {
    ghost use Rattle.std.specs.Prelude.{◌≡◌};
    ghost use Rattle.gx_form.specs.declared.refusal.Refusal.TheVariants.{NoMemory as Wanting};

    ghost from_gives = { λ _ e. e ≡ Wanting };

    fn from(_: AllocFailed<T>) -> Self {
        Refusal::NoMemory
    }
}
