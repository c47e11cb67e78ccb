ghost use Rattle.std.specs.Prelude.{◌≡◌, unsigned_abs};
ghost use Rattle.gx_num.specs.declared.vector.TheConstants.{M};
ghost use Rattle.gx_num.specs.Vector.{IsWithin};
ghost use Rattle.gx_plane.specs.Plane.{reach, IsPlane};
ghost use Rattle.gx_rotation.specs.Place.{placed_point, placed_face};

use gx_num::V3;
use gx_plane::Plane;
use gx_rotation::Rotation;

/// A point of the daughter in the mother's frame.
pub fn place_point(rotation: Rotation, offset: V3, v: V3) -> V3
    requires offset { IsWithin (unsigned_abs M) offset }
    requires point { IsWithin (unsigned_abs M) v }
    ensures value { result ≡ placed_point rotation offset v }
    ensures within { IsWithin reach result }
{
    offset.add(rotation.undo(v))
}

/// A plane of the daughter in the mother's frame, which is to fit there.
pub fn place_plane(rotation: Rotation, offset: V3, plane: &Plane) -> Plane
    requires offset { IsWithin (unsigned_abs M) offset }
    requires fits { IsPlane (placed_face rotation offset plane.now) }
    ensures { result ≡ placed_face rotation offset plane.now }
{
    let n = rotation.undo(plane.n());
    Plane::from_parts(n, plane.e() + n.dot(offset))
}
