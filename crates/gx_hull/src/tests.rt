ghost use Rattle.std.specs.Prelude.{◌≡◌, ◌<◌, ◌≤◌, length, unsigned_abs, All, IfOk};
ghost use Rattle.gx_num.specs.Vector.{IsWithin};
ghost use Rattle.gx_num.specs.declared.vector.TheConstants.{M};

use crate::{Hull, HullFault};
use gx_num::{Extent, V3};
use gx_plane::Plane;
use gx_rotation::Rotation;
use std::alloc::{AllocError, Global};
use std::test::Fail;

fn point(x: i64, y: i64, z: i64) -> V3
    ensures x { result.x ≡ x }
    ensures y { result.y ≡ y }
    ensures z { result.z ≡ z }
{
    V3 { x, y, z }
}

fn count(alloc: Global, points: &[V3]) -> Result<usize, HullFault>
    requires { All (IsWithin (unsigned_abs M)) points.now }
{
    let hull = Hull::new(alloc, Vec::from_slice(alloc, points)?)?;
    Ok(hull.vertices().len())
}

// By hand: in the order of the triples of corners, 0 1 2, 0 1 4, 0 2 4, 1 3 5, 2 3 6 and 4 5 6.
#[test]
fn a_box_has_six_faces_and_its_extent(rt: HostRuntime) -> Result<(), Fail> {
    let corners = [
        point(-3, -4, -5),
        point(3, -4, -5),
        point(-3, 4, -5),
        point(3, 4, -5),
        point(-3, -4, 5),
        point(3, -4, 5),
        point(-3, 4, 5),
        point(3, 4, 5),
    ];
    let points = Vec::from_slice(rt.alloc(), &corners)?;
    let hull = Hull::new(rt.alloc(), points).ok().ok_or("a hull")?;
    let faces = [
        Plane::along(2, false, -5),
        Plane::along(1, false, -4),
        Plane::along(0, false, -3),
        Plane::along(0, true, 3),
        Plane::along(1, true, 4),
        Plane::along(2, true, 5),
    ];
    assert!(rt; hull.vertices() == corners.as_slice());
    assert!(rt; hull.faces() == faces.as_slice());
    assert_eq!(rt;
        hull.extent(),
        Extent {
            low: corners[0],
            high: corners[7]
        }
    );
    Ok(())
}

// Distinct points near a line.
fn line(alloc: Global, count: u8) -> Result<Vec<V3>, AllocError>
    ensures { IfOk result (λ points. All (IsWithin (unsigned_abs M)) points.items) }
{
    let mut points = Vec::new(alloc);
    for i in 0..count {
        points.push(point(i64::from(i), i64::from(i % 2), i64::from(i % 3)))?;
    }
    Ok(points)
}

#[test]
fn what_is_a_hull_and_what_is_not(rt: HostRuntime) -> Result<(), Fail> {
    let alloc = rt.alloc();
    let once = [
        point(0, 0, 0),
        point(2, 0, 0),
        point(0, 2, 0),
        point(0, 0, 2),
    ];
    let again = [once[0], once[1], once[0], once[2], once[1], once[3]];
    let coplanar = [once[0], once[1], once[2], point(2, 2, 0)];
    assert_eq!(rt; count(alloc, &once), Ok(4));
    assert_eq!(rt; count(alloc, &again), Ok(4));
    assert_eq!(rt; count(alloc, &coplanar), Err(HullFault::Flat));
    assert_eq!(rt; count(alloc, &once[..3]), Err(HullFault::Flat));
    assert_eq!(rt; count(alloc, &line(alloc, 32)?), Ok(32));
    assert_eq!(rt; count(alloc, &line(alloc, 33)?), Err(HullFault::Vertices));
    Ok(())
}

fn hull(alloc: Global, points: &[V3]) -> Result<Hull, Fail>
    requires { All (IsWithin (unsigned_abs M)) points.now }
    ensures { IfOk result (λ hull. All (IsWithin (unsigned_abs M)) hull) }
{
    match Hull::new(alloc, Vec::from_slice(alloc, points)?) {
        Ok(hull) => Ok(hull),
        Err(_) => Err("a hull")?,
    }
}

// By hand: rotation 5, a quarter turn about x, takes (x, y, z) to (x, -z, y), so (x, y, z) of the daughter is at
// (x, z, -y) before the offset.
#[test]
fn a_hull_is_placed_with_its_faces(rt: HostRuntime) -> Result<(), Fail> {
    let alloc = rt.alloc();
    let own = [
        point(0, 0, 0),
        point(4, 0, 0),
        point(0, 4, 0),
        point(0, 0, 4),
    ];
    let placed = [
        point(0, 11, 0),
        point(4, 11, 0),
        point(0, 11, -4),
        point(0, 15, 0),
    ];
    let (hull, moved) = (hull(alloc, &own)?, hull(alloc, &placed)?);
    let turned = hull.placed(alloc, Rotation::new(5), point(0, 11, 0));
    let turned = turned.ok().ok_or("a placed hull")?;
    assert!(rt; turned.vertices() == placed.as_slice());
    assert!(rt; turned.faces() == moved.faces());
    assert_eq!(rt; turned.extent(), moved.extent());
    Ok(())
}

fn vertex(row: [i8; 3]) -> V3
    ensures { IsWithin (unsigned_abs M) result }
{
    let [x, y, z] = row;
    point(i64::from(x), i64::from(y), i64::from(z))
}

fn points(alloc: Global, rows: &[[i8; 3]]) -> Result<Vec<V3>, AllocError>
    ensures { IfOk result (λ points. All (IsWithin (unsigned_abs M)) points.items) }
{
    let mut points = Vec::new(alloc);
    for row in rows {
        points.push(vertex(*row))?;
    }
    Ok(points)
}

// The faces, each as its normal and its e.
fn faces(alloc: Global, rows: &[[i8; 3]]) -> Result<Vec<(i64, i64, i64, i128)>, HullFault> {
    let hull = Hull::new(alloc, points(alloc, rows)?)?;
    let mut faces = Vec::new(alloc);
    for face in hull.faces() {
        let n = face.n();
        faces.push((n.x, n.y, n.z, face.e()))?;
    }
    Ok(faces)
}

// By hand: an octahedron, a pyramid with a point on an edge of its base, and a prism on a hexagon, each face at its first three
// points that aren't on one line.
#[test]
fn faces_come_in_the_order_of_their_first_three_points(rt: HostRuntime) -> Result<(), Fail> {
    let table: [(&[[i8; 3]], &[(i64, i64, i64, i128)]); 3] = [
        (
            &[
                [1, 0, 0],
                [-1, 0, 0],
                [0, 1, 0],
                [0, -1, 0],
                [0, 0, 1],
                [0, 0, -1],
            ],
            &[
                (1, 1, 1, 1),
                (1, 1, -1, 1),
                (1, -1, 1, 1),
                (1, -1, -1, 1),
                (-1, 1, 1, 1),
                (-1, 1, -1, 1),
                (-1, -1, 1, 1),
                (-1, -1, -1, 1),
            ],
        ),
        (
            &[
                [-1, -1, 0],
                [1, -1, 0],
                [-1, 1, 0],
                [1, 1, 0],
                [0, 0, 1],
                [0, -1, 0],
            ],
            &[
                (0, 0, -1, 0),
                (0, -1, 1, 1),
                (-1, 0, 1, 1),
                (1, 0, 1, 1),
                (0, 1, 1, 1),
            ],
        ),
        (
            &[
                [2, 0, 0],
                [1, 2, 0],
                [-1, 2, 0],
                [-2, 0, 0],
                [-1, -2, 0],
                [1, -2, 0],
                [2, 0, 1],
                [1, 2, 1],
                [-1, 2, 1],
                [-2, 0, 1],
                [-1, -2, 1],
                [1, -2, 1],
            ],
            &[
                (0, 0, -1, 0),
                (2, 1, 0, 4),
                (2, -1, 0, 4),
                (0, 1, 0, 2),
                (-2, 1, 0, 4),
                (-2, -1, 0, 4),
                (0, -1, 0, 2),
                (0, 0, 1, 1),
            ],
        ),
    ];
    for (rows, expected) in table {
        let found = faces(rt.alloc(), rows).ok().ok_or("a hull")?;
        assert!(rt; found.as_slice() == expected);
    }
    Ok(())
}
