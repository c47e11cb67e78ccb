//! Laws of the definitions, each the contract of a function that does nothing.

ghost use Rattle.gx_expr.specs.Laws.{IsExact, IsGrammar};

/// The whole ratio of two fractions is the one number that the one is of the other.
pub fn exact()
    ensures { IsExact }
{}

/// The tree of a word is the one that the grammar derives.
pub fn grammar()
    ensures { IsGrammar }
{}
