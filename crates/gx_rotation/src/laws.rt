//! Laws of the definitions, each the contract of a function that does nothing.

ghost use Rattle.gx_rotation.specs.Laws.{IsGroup, IsAction, AreRotations};

pub fn group()
    ensures { IsGroup }
{}

pub fn action()
    ensures { IsAction }
{}

pub fn rotations()
    ensures { AreRotations }
{}
