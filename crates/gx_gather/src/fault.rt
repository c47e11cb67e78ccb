ghost use Rattle.std.specs.Prelude.{◌≡◌};

use gx_form::{Fault, Refusal};
use gx_num::NoMemory;
use gx_table::FaultName;
use gx_text::{LineError, LineFault};
use std::alloc::{AllocError, AllocFailed};
use thiserror::Error;

/// A fault of a text, at a word of a line, both from 1. Word 0 stands for the whole line, line 0 for the whole text;
/// where a byte isn't allowed, its column stands in place of the word.
#[derive(Clone, Copy, Debug, PartialEq, Eq)]
pub struct TextFault {
    pub line: u32,
    pub word: u32,
    pub name: FaultName,
}

/// Why a text gives no input.
#[derive(Debug, Drop, Error)]
pub enum ReadError {
    #[error("Text")]
    Text(TextFault),
    #[error("NoMemory")]
    NoMemory,
}

impl From<TextFault> for ReadError {
    ghost use Rattle.std.specs.Prelude.{◌≡◌};
    ghost use Rattle.gx_gather.specs.declared.fault.ReadError.TheVariants.{Text};

    ghost from_gives = { λ fault e. e ≡ Text fault };

    fn from(fault: TextFault) -> Self {
        ReadError::Text(fault)
    }
}

impl From<NoMemory> for ReadError {
    ghost use Rattle.std.specs.Prelude.{◌≡◌};
    ghost use Rattle.gx_gather.specs.declared.fault.ReadError.TheVariants.{NoMemory as OutOfMemory};

    ghost from_gives = { λ _ e. e ≡ OutOfMemory };

    fn from(_: NoMemory) -> Self {
        ReadError::NoMemory
    }
}

impl From<AllocError> for ReadError {
    ghost use Rattle.std.specs.Prelude.{◌≡◌};
    ghost use Rattle.gx_gather.specs.declared.fault.ReadError.TheVariants.{NoMemory};

    ghost from_gives = { λ _ e. e ≡ NoMemory };

    fn from(_: AllocError) -> Self {
        ReadError::NoMemory
    }
}

impl<T: Drop> From<AllocFailed<T>> for ReadError {
    ghost use Rattle.std.specs.Prelude.{◌≡◌};
    ghost use Rattle.gx_gather.specs.declared.fault.ReadError.TheVariants.{NoMemory};

    ghost from_gives = { λ _ e. e ≡ NoMemory };

    fn from(_: AllocFailed<T>) -> Self {
        ReadError::NoMemory
    }
}

impl From<LineError> for ReadError {
    ghost use Rattle.std.specs.Prelude.{◌≡◌};
    ghost use Rattle.gx_gather.specs.Faults.{error_of};

    ghost from_gives = { λ error e. e ≡ error_of error };

    fn from(error: LineError) -> Self {
        match error {
            LineError::Fault(LineFault::LongLine { line }) => {
                text_fault(line, 0, FaultName::LongLine)
            }
            LineError::Fault(LineFault::NotAscii { line, column }) => {
                text_fault(line, column, FaultName::NotAscii)
            }
            LineError::NoMemory => ReadError::NoMemory,
        }
    }
}

/// A fault of a text, as an error.
pub fn text_fault(line: u32, word: u32, name: FaultName) -> ReadError
    ensures { result ≡ ReadError.Text (record { line = line; word = word; name = name }) }
{
    ReadError::Text(TextFault { line, word, name })
}

// A name that is there already, at its word.
pub(crate) fn twice() -> Refusal
    ensures { result ≡ Refusal.At (record { place = 2; name = FaultName.Twice }) }
{
    Refusal::At(Fault {
        place: 2,
        name: FaultName::Twice,
    })
}

// One line more than the most of its kind.
pub(crate) fn too_many() -> Refusal
    ensures { result ≡ Refusal.At (record { place = 1; name = FaultName.TooMany }) }
{
    Refusal::At(Fault {
        place: 1,
        name: FaultName::TooMany,
    })
}
