//! A law over the definitions, the contract of a function that does nothing.
ghost use Rattle.gx_text.specs.Laws.{FaultStays};

/// The fault of a line so far is its fault however it goes on.
pub fn fault_stays()
    ensures { FaultStays }
{}
