ghost use Rattle.gx_plane.specs.Laws.{Farkas, Tilting};

/// Where a vector is on the right side of all members of a list, so is one that three members determine.
pub fn tilting()
    ensures { Tilting }
{}

/// Either a vector separates another from all members of a list, or a multiple of that one is a sum of members.
pub fn farkas()
    ensures { Farkas }
{}
