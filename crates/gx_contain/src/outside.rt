ghost use Rattle.std.specs.Prelude.{◌≡◌};
ghost use Rattle.gx_num.specs.Vector.{IsWithin};
ghost use Rattle.gx_plane.specs.Plane.{reach};
ghost use Rattle.gx_contain.specs.Outside.{is_within as is_within_all, first_outside as first_outside_of};

use gx_hull::Hull;
use gx_num::V3;
use gx_plane::Plane;

/// The first vertex of the daughter that isn't in the mother; none exactly where each is. Takes no memory.
pub fn first_outside(mother: &Hull, daughter: &Hull) -> Option<V3>
    ensures { result ≡ first_outside_of mother.now daughter.now }
{
    let faces = mother.faces();
    daughter
        .vertices()
        .iter()
        .copied()
        .find(|&vertex| !is_within(faces, vertex))
}

fn is_within(faces: &[Plane], p: V3) -> bool
    requires { IsWithin reach p }
    ensures { result ≡ is_within_all faces.now p }
{
    faces.iter().all(|face| face.side(p) <= 0)
}
