ghost use Rattle.std.specs.Prelude.{◌≡◌, unsigned_abs, map, All, IfOk};
ghost use Rattle.gx_num.specs.declared.vector.TheConstants.{M};
ghost use Rattle.gx_num.specs.Vector.{IsWithin};
ghost use Rattle.gx_plane.specs.Plane.{IsPlane};
ghost use Rattle.gx_rotation.specs.Place.{placed_point, placed_face};

use gx_num::{NoMemory, V3};
use gx_place::{place_plane, place_point};
use gx_plane::Plane;
use gx_rotation::Rotation;
use std::alloc::Global;

/// The points in a mother's frame, in their order.
pub fn placed_points(
    alloc: Global,
    rotation: Rotation,
    offset: V3,
    points: &[V3],
) -> Result<Vec<V3>, NoMemory>
    requires offset { IsWithin (unsigned_abs M) offset }
    requires points { All (IsWithin (unsigned_abs M)) points.now }
    ensures { IfOk result (λ placed. placed.items ≡ map (placed_point rotation offset) points.now) }
{
    let placed = points
        .iter()
        .map(|&point| place_point(rotation, offset, point))
        .collect(alloc)?;
    Ok(placed)
}

/// The planes in a mother's frame, in their order; they are to fit there.
pub fn placed_faces(
    alloc: Global,
    rotation: Rotation,
    offset: V3,
    faces: &[Plane],
) -> Result<Vec<Plane>, NoMemory>
    requires offset { IsWithin (unsigned_abs M) offset }
    requires fit { All (λ face. IsPlane (placed_face rotation offset face)) faces.now }
    ensures { IfOk result (λ placed. placed.items ≡ map (placed_face rotation offset) faces.now) }
{
    let placed = faces
        .iter()
        .map(|face| place_plane(rotation, offset, face))
        .collect(alloc)?;
    Ok(placed)
}
