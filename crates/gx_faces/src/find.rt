ghost use Rattle.std.specs.Prelude.{◌≡◌, All, false, IfOk};
ghost use Rattle.gx_num.specs.Vector.{IsWithin};
ghost use Rattle.gx_plane.specs.Plane.{reach};
ghost use Rattle.gx_convex.specs.Points.{are_coplanar};
ghost use Rattle.gx_convex.specs.Faces.{faces_of};

use crate::closed::closed_faces;
use crate::order::{add_of_three, in_order};
use gx_num::{NoMemory, V3};
use gx_plane::{Plane, Triples};
use std::alloc::Global;

/// The faces of points that aren't coplanar, in the order of the triples of points, with their normals outward.
pub fn faces(alloc: Global, points: &[V3]) -> Result<Vec<Plane>, NoMemory>
    requires within { All (IsWithin reach) points.now }
    requires solid { are_coplanar points.now ≡ false }
    ensures { IfOk result (λ faces. faces.items ≡ faces_of points.now) }
{
    match closed_faces(alloc, points)? {
        Some(planes) => in_order(alloc, planes, points),
        None => each_face(alloc, points),
    }
}

// The faces of points, by a test of each triple.
fn each_face(alloc: Global, points: &[V3]) -> Result<Vec<Plane>, NoMemory>
    requires within { All (IsWithin reach) points.now }
    requires solid { are_coplanar points.now ≡ false }
    ensures { IfOk result (λ faces. faces.items ≡ faces_of points.now) }
{
    let mut faces = Vec::new(alloc);
    for (a, b, c) in Triples::new(points, &[]) {
        add_of_three(&mut faces, a, b, c, points)?;
    }
    Ok(faces)
}
