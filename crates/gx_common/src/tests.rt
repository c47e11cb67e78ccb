ghost use Rattle.std.specs.Prelude.{◌≡◌, ◌≤◌, unsigned_abs, All};
ghost use Rattle.gx_num.specs.Vector.{IsWithin};
ghost use Rattle.gx_num.specs.declared.vector.TheConstants.{M as BoundM};

use crate::{common_points, insides_meet};
use gx_hull::Hull;
use gx_num::{M, V3};
use std::alloc::Global;
use std::test::Fail;

// Coordinates beyond M are cut to it; the tests have none.
fn point(x: i64, y: i64, z: i64) -> V3
    ensures { IsWithin (unsigned_abs BoundM) result }
{
    V3 {
        x: cut(x),
        y: cut(y),
        z: cut(z),
    }
}

fn cut(x: i64) -> i64
    ensures { unsigned_abs result ≤ unsigned_abs BoundM }
{
    if x > M {
        return M;
    }
    if x < -M {
        return -M;
    }
    x
}

fn hull(alloc: Global, points: &[V3]) -> Result<Hull, Fail>
    requires { All (IsWithin (unsigned_abs BoundM)) points.now }
{
    let points = Vec::from_slice(alloc, points)?;
    Ok(Hull::new(alloc, points).ok().ok_or("a hull")?)
}

// The box of these corners; its faces are in the order -z, -y, -x, x, y, z.
fn block(alloc: Global, low: V3, high: V3) -> Result<Hull, Fail> {
    hull(
        alloc,
        &[
            point(low.x, low.y, low.z),
            point(high.x, low.y, low.z),
            point(low.x, high.y, low.z),
            point(high.x, high.y, low.z),
            point(low.x, low.y, high.z),
            point(high.x, low.y, high.z),
            point(low.x, high.y, high.z),
            point(high.x, high.y, high.z),
        ],
    )
}

// The common points of two hulls as "x:y:z:w ", or "none".
fn shown(alloc: Global, a: &Hull, b: &Hull) -> Result<String, Fail> {
    let mut text = String::new(alloc);
    match common_points(alloc, a, b).ok().ok_or("memory")? {
        Some(points) => {
            for i in 0..points.count() {
                let p = points.at(i);
                text.push_str(&format!(in alloc; "{}:{}:{}:{} ", p.x(), p.y(), p.z(), p.w())?)?;
            }
        }
        None => text.push_str("none")?,
    }
    Ok(text)
}

// By hand. Two boxes that overlap: of the corners of the one, those at x = 5, in their order. Two bars across each other: no corner of
// either is in the other, and the segments of the first bar's corners 0 1, 0 3 and 0 5 cross the second bar's faces at x = -1 and 1.
#[test]
fn common_points_are_corners_or_crossings(rt: HostRuntime) -> Result<(), Fail> {
    let alloc = rt.alloc();
    let cube = block(alloc, point(-5, -5, -5), point(5, 5, 5))?;
    let beside = block(alloc, point(4, -5, -5), point(14, 5, 5))?;
    let touching = block(alloc, point(5, -5, -5), point(15, 5, 5))?;
    let at_a_corner = block(alloc, point(5, 5, 5), point(6, 6, 6))?;
    let long = block(alloc, point(-10, -1, -1), point(10, 1, 1))?;
    let across = block(alloc, point(-1, -10, -1), point(1, 10, 1))?;
    let cases = [
        (&cube, &beside, "5:-5:5:1 5:5:-5:1 5:-5:-5:1 4:-5:-5:1 "),
        (&cube, &touching, "none"),
        (&cube, &at_a_corner, "none"),
        (
            &long,
            &across,
            "-10:-10:-1:10 -10:-1:-10:10 -1:-1:-1:1 1:-1:-1:1 ",
        ),
    ];
    for (a, b, points) in &cases {
        assert_eq!(rt; shown(alloc, a, b)?.as_str(), *points);
    }
    Ok(())
}

// By hand: the plane -10 x - 9 y + 10 z = 0 is between, through two vertices of the first and one of the second. No face of
// either parts them.
#[test]
fn tetrahedra_that_no_face_parts_have_no_common_points(rt: HostRuntime) -> Result<(), Fail> {
    let alloc = rt.alloc();
    let a = hull(
        alloc,
        &[
            point(-10, 0, -10),
            point(10, 0, 10),
            point(0, -3, -13),
            point(0, 3, -7),
        ],
    )?;
    let b = hull(
        alloc,
        &[
            point(0, -10, -9),
            point(0, 10, 11),
            point(-3, 0, 8),
            point(3, 0, 14),
        ],
    )?;
    assert_eq!(rt; shown(alloc, &a, &b)?.as_str(), "none");
    assert_eq!(rt; insides_meet(alloc, &a, &b), Ok(false));
    Ok(())
}

// By hand: x + y + z <= M for the corner, and a vertex with a sum of M - 1, M and M + 1; two boxes one step deep, touching
// and one step apart.
#[test]
fn a_step_decides_at_a_face(rt: HostRuntime) -> Result<(), Fail> {
    let alloc = rt.alloc();
    let corner = hull(
        alloc,
        &[
            point(0, 0, 0),
            point(M, 0, 0),
            point(0, M, 0),
            point(0, 0, M),
        ],
    )?;
    let half = block(alloc, point(-M, -M, -M), point(0, M, M))?;
    let cases = [
        (5592405, -1, true),
        (5592406, 0, false),
        (5592407, 1, false),
    ];
    for (z, x, meet) in cases {
        let pointed = hull(
            alloc,
            &[
                point(5592405, 5592405, z),
                point(M, M, M),
                point(M, M, 0),
                point(M, 0, M),
            ],
        )?;
        let other_half = block(alloc, point(x, -M, -M), point(M, M, M))?;
        assert_eq!(rt; insides_meet(alloc, &corner, &pointed), Ok(meet));
        assert_eq!(rt; insides_meet(alloc, &pointed, &corner), Ok(meet));
        assert_eq!(rt; insides_meet(alloc, &half, &other_half), Ok(meet));
    }
    Ok(())
}

// By hand: the first is below x + y in z, with the edge from (-n, 0, -n) to (n, 0, n), and the second above x + y + d, with
// the edge from (0, -n, d - n) to (0, n, d + n). No face parts them.
#[test]
fn a_step_decides_where_edges_cross(rt: HostRuntime) -> Result<(), Fail> {
    let alloc = rt.alloc();
    let n = M / 2;
    let below = hull(
        alloc,
        &[
            point(-n, 0, -n),
            point(n, 0, n),
            point(0, -n, -M),
            point(0, n, 0),
        ],
    )?;
    for (d, meet) in [(-1, true), (0, false), (1, false)] {
        let above = hull(
            alloc,
            &[
                point(0, -n, d - n),
                point(0, n, d + n),
                point(-n, 0, 0),
                point(n, 0, M),
            ],
        )?;
        assert_eq!(rt; insides_meet(alloc, &below, &above), Ok(meet));
        assert_eq!(rt; shown(alloc, &below, &above)?.as_str() != "none", meet);
    }
    Ok(())
}
