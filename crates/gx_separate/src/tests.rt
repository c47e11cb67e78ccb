ghost use Rattle.std.specs.Prelude.{unsigned_abs, All};
ghost use Rattle.gx_num.specs.Vector.{IsWithin};
ghost use Rattle.gx_num.specs.declared.vector.TheConstants.{M};

use crate::plane_between;
use gx_hull::Hull;
use gx_num::V3;
use gx_plane::Plane;
use std::alloc::Global;
use std::test::Fail;

fn point(x: i16, y: i16, z: i16) -> V3
    ensures { IsWithin (unsigned_abs M) result }
{
    V3 {
        x: i64::from(x),
        y: i64::from(y),
        z: i64::from(z),
    }
}

fn hull(alloc: Global, points: &[V3]) -> Result<Hull, Fail>
    requires { All (IsWithin (unsigned_abs M)) points.now }
{
    let points = Vec::from_slice(alloc, points)?;
    Ok(Hull::new(alloc, points).ok().ok_or("a hull")?)
}

// The cube of half-length 5 round a point.
fn cube(alloc: Global, x: i8, y: i8, z: i8) -> Result<Hull, Fail> {
    let (x, y, z) = (i16::from(x), i16::from(y), i16::from(z));
    hull(
        alloc,
        &[
            point(x - 5, y - 5, z - 5),
            point(x + 5, y - 5, z - 5),
            point(x - 5, y + 5, z - 5),
            point(x + 5, y + 5, z - 5),
            point(x - 5, y - 5, z + 5),
            point(x + 5, y - 5, z + 5),
            point(x - 5, y + 5, z + 5),
            point(x + 5, y + 5, z + 5),
        ],
    )
}

#[test]
fn cubes_are_parted_where_they_touch_or_are_apart(rt: HostRuntime) -> Result<(), Fail> {
    let alloc = rt.alloc();
    let first = cube(alloc, 0, 0, 0)?;
    let cases = [
        (cube(alloc, 10, 3, 3)?, Some(Plane::along(0, true, 5))),
        (cube(alloc, 9, 0, 0)?, None),
        (cube(alloc, 20, 0, 0)?, Some(Plane::along(0, true, 5))),
        (cube(alloc, -20, 0, 0)?, Some(Plane::along(0, false, -5))),
        (cube(alloc, 0, 20, 0)?, Some(Plane::along(1, true, 5))),
        (cube(alloc, 0, -20, 20)?, Some(Plane::along(1, false, -5))),
        (cube(alloc, 0, 0, 20)?, Some(Plane::along(2, true, 5))),
        (cube(alloc, 9, 9, -20)?, Some(Plane::along(2, false, -5))),
    ];
    for (second, plane) in &cases {
        assert_eq!(rt; plane_between(&first, second), *plane);
    }
    Ok(())
}

// By hand: the plane -10 x - 9 y + 10 z = 0 has the first two points of the first and the first point of the second; the other
// points of each are on its own side.
#[test]
fn tetrahedra_that_no_face_parts(rt: HostRuntime) -> Result<(), Fail> {
    let alloc = rt.alloc();
    let first = hull(
        alloc,
        &[
            point(-10, 0, -10),
            point(10, 0, 10),
            point(0, -3, -13),
            point(0, 3, -7),
        ],
    )?;
    let second = hull(
        alloc,
        &[
            point(0, -10, -9),
            point(0, 10, 11),
            point(-3, 0, 8),
            point(3, 0, 14),
        ],
    )?;
    let plane = plane_between(&first, &second).ok_or("a plane")?;
    assert_eq!(rt; plane.n(), point(-10, -9, 10));
    assert_eq!(rt; plane.e(), 0);
    Ok(())
}
