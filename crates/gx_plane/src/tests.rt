ghost use Rattle.std.specs.Prelude.{◌≡◌};

use crate::{Plane, determinant, first_triple_between};
use gx_num::V3;
use std::test::Fail;

fn point(x: i64, y: i64, z: i64) -> V3
    ensures x { result.x ≡ x }
    ensures y { result.y ≡ y }
    ensures z { result.z ≡ z }
{
    V3 { x, y, z }
}

#[test]
fn three_points_make_a_plane_unless_they_are_collinear(rt: HostRuntime) -> Result<(), Fail> {
    let origin = point(0, 0, 0);
    let none = Plane::through(origin, point(1, 2, 3), point(-2, -4, -6));
    assert_eq!(rt; none, None);
    let plane = Plane::through(point(0, 0, 5), point(2, 0, 5), point(0, 3, 5)).ok_or("a plane")?;
    assert_eq!(rt; plane.n(), point(0, 0, 1));
    assert_eq!(rt; plane.e(), 5);
    Ok(())
}

#[test]
fn a_plane_through_corners_of_a_box_supports_the_box(rt: HostRuntime) -> Result<(), Fail> {
    let corners = [
        point(-3, -4, -5),
        point(3, -4, -5),
        point(-3, 4, -5),
        point(3, 4, -5),
        point(-3, -4, 5),
        point(3, -4, 5),
        point(-3, 4, 5),
        point(3, 4, 5),
    ];
    let right = Plane::through(corners[1], corners[3], corners[5]).ok_or("a plane")?;
    assert_eq!(rt; right, Plane::along(0, true, 3));
    assert_eq!(rt; right.flip(), Plane::along(0, false, 3));
    assert!(rt; right.supports(&corners));
    assert!(rt; !right.flip().supports(&corners));
    assert_eq!(rt; right.side(corners[0]), -6);
    Ok(())
}

// By hand.
#[test]
fn a_plane_of_three_points_supports_a_tetrahedron_one_way_or_the_other_or_not(rt: HostRuntime) {
    let [o, x, y, z] = [
        point(0, 0, 0),
        point(2, 0, 0),
        point(0, 2, 0),
        point(0, 0, 2),
    ];
    let down = Some((point(0, 0, -1), 0));
    let cases = [
        (o, x, y, down),
        (o, y, x, down),
        (x, y, z, Some((point(1, 1, 1), 2))),
        (o, x, point(0, 1, 1), None),
        (o, x, point(1, 0, 0), None),
    ];
    for (a, b, c, expected) in cases {
        let plane = Plane::supporting(a, b, c, &[o, x, y, z]);
        assert_eq!(rt; plane.map(|plane| (plane.n(), plane.e())), expected);
    }
    assert_eq!(rt; determinant(o, x, y, z), 8);
}

// By hand: no face of either parts them, and the plane is through an edge of each.
#[test]
fn a_plane_through_an_edge_of_each_is_between_two_tetrahedra(rt: HostRuntime) -> Result<(), Fail> {
    let a = [
        point(-10, 0, -10),
        point(10, 0, 10),
        point(0, -3, -13),
        point(0, 3, -7),
    ];
    let b = [
        point(0, -10, -9),
        point(0, 10, 11),
        point(-3, 0, 8),
        point(3, 0, 14),
    ];
    let plane = first_triple_between(&a, &b).ok_or("a plane")?;
    assert_eq!(rt; plane.n(), point(-10, -9, 10));
    assert_eq!(rt; plane.e(), 0);
    Ok(())
}

#[test]
fn no_plane_is_between_a_tetrahedron_and_itself(rt: HostRuntime) {
    let a = [
        point(0, 0, 0),
        point(2, 0, 0),
        point(0, 2, 0),
        point(0, 0, 2),
    ];
    assert_eq!(rt; first_triple_between(&a, &a), None);
}
