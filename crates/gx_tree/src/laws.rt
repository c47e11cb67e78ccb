//! Laws of the definitions, each the contract of a function that does nothing.

ghost use Rattle.gx_tree.specs.Laws.{DescentEnds, OneDeepest};

/// In a hierarchy the descent ends within its number of steps.
pub fn descent_ends()
    ensures { DescentEnds }
{}

/// A point has one deepest volume.
pub fn one_deepest()
    ensures { OneDeepest }
{}
