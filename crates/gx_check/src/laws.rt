//! A law of the definitions, as the contract of a function that does nothing.

ghost use Rattle.gx_check.specs.Laws.{CleanWhereUnrefuted};

/// A hierarchy is clean exactly where no verdict refutes it.
pub fn clean_where_unrefuted()
    ensures { CleanWhereUnrefuted }
{}
