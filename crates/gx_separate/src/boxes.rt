ghost use Rattle.std.specs.Prelude.{◌≡◌, ◌<◌, ◌≤◌, unsigned_abs};
ghost use Rattle.gx_num.specs.Vector.{IsWithin};
ghost use Rattle.gx_plane.specs.Plane.{reach};
ghost use Rattle.gx_separate.specs.Boxes.{between_ranges, between_boxes};

use gx_num::Extent;
use gx_plane::Plane;

/// The first plane along an axis between two boxes.
pub fn between_boxes(a: Extent, b: Extent) -> Option<Plane>
    requires low { IsWithin reach a.low }
    requires high { IsWithin reach a.high }
    requires other_low { IsWithin reach b.low }
    requires other_high { IsWithin reach b.high }
    ensures { result ≡ between_boxes a b }
{
    let x = between_ranges(0, a.low.x, a.high.x, b.low.x, b.high.x);
    let y = between_ranges(1, a.low.y, a.high.y, b.low.y, b.high.y);
    let z = between_ranges(2, a.low.z, a.high.z, b.low.z, b.high.z);
    x.or(y.or(z))
}

// The same on one axis, by the ends of the boxes there.
fn between_ranges(axis: u8, low: i64, high: i64, other_low: i64, other_high: i64) -> Option<Plane>
    requires axis { axis < 3 }
    requires low { unsigned_abs low ≤ reach }
    requires high { unsigned_abs high ≤ reach }
    ensures { result ≡ between_ranges axis low high other_low other_high }
{
    if high <= other_low {
        return Some(Plane::along(axis, true, high));
    }
    if other_high <= low {
        return Some(Plane::along(axis, false, low));
    }
    None
}
