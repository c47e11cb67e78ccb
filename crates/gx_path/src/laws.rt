//! Laws over the definitions, each the contract of a function that does nothing.
ghost use Rattle.gx_path.specs.Laws.{OneReport};

/// Two lists of rows that are reports of one ray are equal.
pub fn one_report()
    ensures { OneReport }
{}
