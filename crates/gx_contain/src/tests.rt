ghost use Rattle.std.specs.Prelude.{unsigned_abs, All};
ghost use Rattle.gx_num.specs.Vector.{IsWithin};
ghost use Rattle.gx_num.specs.declared.vector.TheConstants.{M};

use crate::first_outside;
use gx_hull::Hull;
use gx_num::V3;
use std::alloc::Global;
use std::test::Fail;

fn point(x: i16, y: i16, z: i16) -> V3
    ensures { IsWithin (unsigned_abs M) result }
{
    V3 {
        x: i64::from(x),
        y: i64::from(y),
        z: i64::from(z),
    }
}

fn hull(alloc: Global, points: &[V3]) -> Result<Hull, Fail>
    requires { All (IsWithin (unsigned_abs M)) points.now }
{
    let points = Vec::from_slice(alloc, points)?;
    Ok(Hull::new(alloc, points).ok().ok_or("a hull")?)
}

// The cube of half-length n round the origin.
fn cube(alloc: Global, n: i8) -> Result<Hull, Fail> {
    let n = i16::from(n);
    hull(
        alloc,
        &[
            point(-n, -n, -n),
            point(n, -n, -n),
            point(-n, n, -n),
            point(n, n, -n),
            point(-n, -n, n),
            point(n, -n, n),
            point(-n, n, n),
            point(n, n, n),
        ],
    )
}

// By hand: a trapezoid on its side, whose end at y = 21 is beyond the cube's face y = 20.
#[test]
fn the_first_vertex_outside(rt: HostRuntime) -> Result<(), Fail> {
    let alloc = rt.alloc();
    let mother = cube(alloc, 20)?;
    let daughter = hull(
        alloc,
        &[
            point(-5, 1, 5),
            point(5, 1, 5),
            point(-5, 1, -5),
            point(5, 1, -5),
            point(-8, 21, 5),
            point(8, 21, 5),
            point(-8, 21, -5),
            point(8, 21, -5),
        ],
    )?;
    assert_eq!(rt; first_outside(&mother, &daughter), Some(point(-8, 21, 5)));
    assert_eq!(rt; first_outside(&mother, &cube(alloc, 20)?), None);
    assert_eq!(rt;
        first_outside(&cube(alloc, 19)?, &mother),
        Some(point(-20, -20, -20))
    );
    Ok(())
}
