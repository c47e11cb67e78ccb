ghost use Rattle.std.specs.Prelude.{◌≡◌, ◌^◌};
ghost use Rattle.gx_num.specs.Vector.{IsWithin};
ghost use Rattle.gx_num.specs.Ray.{HasDirection};
ghost use Rattle.gx_clip.specs.Clip.{IsBounded};

use crate::clip;
use gx_num::{Ray, V3};
use gx_plane::Plane;

fn point(x: i64, y: i64, z: i64) -> V3
    ensures x { result.x ≡ x }
    ensures y { result.y ≡ y }
    ensures z { result.z ≡ z }
{
    V3 { x, y, z }
}

// From -2 to 2 on each axis.
fn cube() -> [Plane; 6]
    ensures { IsBounded result }
{
    [
        Plane::along(0, true, 2),
        Plane::along(0, false, -2),
        Plane::along(1, true, 2),
        Plane::along(1, false, -2),
        Plane::along(2, true, 2),
        Plane::along(2, false, -2),
    ]
}

// The ends of the ray in the cube, as numerators and denominators.
fn ends(o: V3, d: V3) -> Option<[i128; 4]>
    requires origin { IsWithin (2 ^ 61) o }
    requires direction { IsWithin (2 ^ 61) d }
    requires moves { HasDirection (record { o = o; d = d }) }
{
    let span = clip(&cube(), &Ray { o, d })?;
    Some([
        span.from.num(),
        span.from.den(),
        span.to.num(),
        span.to.den(),
    ])
}

// By hand.
#[test]
fn a_ray_is_cut_at_the_faces_of_a_cube(rt: HostRuntime) {
    let cases = [
        (ends(point(-5, 0, 0), point(2, 0, 0)), [3, 2, 7, 2]),
        (ends(point(-3, -5, 1), point(3, 4, 0)), [3, 4, 5, 3]),
        // from inside, and from a face
        (ends(point(1, 0, 0), point(0, 3, 0)), [0, 1, 2, 3]),
        (ends(point(-2, 0, 0), point(1, 0, 0)), [0, 1, 4, 1]),
        // from far out
        (
            ends(point(-2305843009213693952, 0, 0), point(3, 0, 0)),
            [768614336404564650, 1, 2305843009213693954, 3],
        ),
    ];
    for (found, expected) in cases {
        assert_eq!(rt; found, Some(expected));
    }
}

#[test]
fn a_ray_that_only_touches_a_cube_has_no_part_inside(rt: HostRuntime) {
    let cases = [
        // in a face, at an edge, at a corner
        ends(point(-5, 2, 0), point(1, 0, 0)),
        ends(point(0, 4, 0), point(1, -1, 0)),
        ends(point(0, 1, 5), point(2, 1, -3)),
        // beside it, away from it, and away from a face
        ends(point(-5, 5, 0), point(1, 0, 0)),
        ends(point(-5, 0, 0), point(-1, 0, 0)),
        ends(point(2, 0, 0), point(1, 0, 0)),
    ];
    for found in cases {
        assert_eq!(rt; found, None);
    }
}
