//! A law over the definitions, the contract of a function that does nothing.
ghost use Rattle.gx_print.specs.Range.{VerdictsInRange};

/// The mother and the daughters of each verdict of a hierarchy are in it.
pub fn verdicts_in_range()
    ensures { VerdictsInRange }
{}
