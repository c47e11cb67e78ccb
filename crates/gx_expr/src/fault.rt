use std::alloc::{AllocError, AllocFailed};
use thiserror::Error;

/// Why a value is no number of steps.
#[derive(Clone, Copy, Debug, PartialEq, Eq)]
pub enum StepFault {
    /// It is an angle.
    UnitKind,
    /// It is no whole multiple of the grid.
    OffGrid,
    /// It is more than M steps in magnitude.
    TooFar,
}

/// Why a value is no whole number of a range.
#[derive(Clone, Copy, Debug, PartialEq, Eq)]
pub enum WholeFault {
    /// It is a length or an angle.
    UnitKind,
    /// It isn't whole, or isn't in the range.
    Range,
}

/// The value is a length where an angle is wanted.
#[derive(Clone, Copy, Debug, PartialEq, Eq)]
pub struct UnitKind;

/// Why an expression has no value.
#[derive(Clone, Copy, Debug, PartialEq, Eq)]
pub enum ExprFault {
    /// It isn't of the grammar, or more than 64 parentheses are open at one place.
    Syntax,
    /// A name was given no value.
    UnknownParam,
    /// A unit isn't in the table.
    UnknownUnit,
    /// A divisor is 0.
    DivideByZero,
    /// A number has too many digits or places, or a result's numerator or denominator is above 2^62.
    TooWide,
}

/// Why a parameter isn't defined.
#[derive(Clone, Copy, Debug, PartialEq, Eq, Error)]
pub enum ParamFault {
    /// The name has another value.
    #[error("Twice")]
    Twice,
    #[error("NoMemory")]
    NoMemory,
}

impl From<AllocError> for ParamFault {
    ghost use Rattle.std.specs.Prelude.{◌≡◌};
    ghost use Rattle.gx_expr.specs.declared.fault.ParamFault.TheVariants.{NoMemory};

    ghost from_gives = { λ _ e. e ≡ NoMemory };

    fn from(_: AllocError) -> Self {
        ParamFault::NoMemory
    }
}

impl<T: Drop> From<AllocFailed<T>> for ParamFault {
    ghost use Rattle.std.specs.Prelude.{◌≡◌};
    ghost use Rattle.gx_expr.specs.declared.fault.ParamFault.TheVariants.{NoMemory};

    ghost from_gives = { λ _ e. e ≡ NoMemory };

    fn from(_: AllocFailed<T>) -> Self {
        ParamFault::NoMemory
    }
}
