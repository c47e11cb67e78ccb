ghost use Rattle.std.specs.Prelude.{◌≡◌, ◌≤◌, ◌<◌, ◌^◌, ◌-ℤ◌, Some, unsigned_abs};
ghost use Rattle.gx_num.specs.Vector.{IsWithin};
ghost use Rattle.gx_num.specs.Ray.{HasDirection};
ghost use Rattle.gx_plane.specs.Plane.{offset_reach};
ghost use Rattle.gx_clip.specs.Clip.{IsBounded, IsClip};
ghost use Rattle.gx_clip.specs.Interval.{whole, part_within, part_inside, IsSpanOf};

use crate::Span;
use crate::interval::Interval;
use crate::parameter::Parameter;
use gx_num::Ray;
use gx_plane::Plane;

/// The open interval of all parameters above 0 at which the ray is inside the solid that these planes bound; nothing
/// where there are none. Coordinates are in steps of the grid.
pub fn clip(faces: &[Plane], ray: &Ray) -> Option<Span>
    requires origin { IsWithin (2 ^ 61) ray.now.o }
    requires direction { IsWithin (2 ^ 61) ray.now.d }
    requires moves { HasDirection ray.now }
    requires bounded { IsBounded faces.now }
    ensures { IsClip faces.now ray.now result }
{
    let interval = interval_inside(faces, ray)?;
    // A bounded solid ends each ray.
    let to = interval.to?;
    span(interval.from, to)
}

// The interval that all planes leave, which may be empty.
fn interval_inside(faces: &[Plane], ray: &Ray) -> Option<Interval>
    requires origin { IsWithin (2 ^ 61) ray.now.o }
    requires direction { IsWithin (2 ^ 61) ray.now.d }
    ensures { result ≡ part_inside (Some whole) faces.now ray.now }
{
    let mut interval = Interval::whole();
    for face in faces {
        interval = part_within(interval, face, ray)?;
    }
    Some(interval)
}

// The part strictly within a face.
fn part_within(interval: Interval, face: &Plane, ray: &Ray) -> Option<Interval>
    requires origin { IsWithin (2 ^ 61) ray.now.o }
    requires direction { IsWithin (2 ^ 61) ray.now.d }
    ensures { result ≡ part_within interval face.now ray.now }
{
    let n = face.n();
    interval.part(n.dot(ray.d), gap(face.e(), n.dot(ray.o)))
}

// How far a product is below an offset.
fn gap(offset: i128, product: i128) -> i128
    requires offset { unsigned_abs offset ≤ offset_reach }
    requires product { unsigned_abs product ≤ 2 ^ 124 }
    ensures value { result ≡ offset -ℤ product }
    ensures bound { unsigned_abs result < 2 ^ 126 }
{
    offset - product
}

fn span(from: Parameter, to: Parameter) -> Option<Span>
    ensures { IsSpanOf from to result }
{
    if from.is_below(to) {
        Some(Span {
            from: from.lowest(),
            to: to.lowest(),
        })
    } else {
        None
    }
}
