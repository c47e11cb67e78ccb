//! Laws over the definitions, each the contract of a function that does nothing.

ghost use Rattle.gx_trip.specs.Laws.{RoundTrip};

/// What a text without a fault declares is read back from its canonical text.
pub fn round_trip()
    ensures { RoundTrip }
{}
