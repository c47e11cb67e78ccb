ghost use Rattle.std.specs.Prelude.{◌≡◌};
ghost use Rattle.gx_separate.specs.Between.{first_between};

use crate::boxes::between_boxes;
use gx_hull::Hull;
use gx_plane::{Plane, first_triple_between};

/// The first plane between the two: for each axis the plane of the first one's high side, then of its low side; then the
/// planes through three of the vertices, each both ways.
pub fn plane_between(a: &Hull, b: &Hull) -> Option<Plane>
    ensures { result ≡ first_between a.now b.now }
{
    let (vertices, others) = (a.vertices(), b.vertices());
    if let Some(plane) = between_boxes(a.extent(), b.extent()) {
        return Some(plane);
    }
    first_triple_between(vertices, others)
}
