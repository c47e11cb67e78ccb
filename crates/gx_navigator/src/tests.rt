ghost use Rattle.std.specs.Prelude.{◌≡◌, ◌<◌, unsigned_abs};
ghost use Rattle.gx_num.specs.declared.vector.TheConstants.{M};
ghost use Rattle.gx_num.specs.Vector.{IsWithin};

use crate::{Scratch, trace_ray};
use gx_io::Failed;
use gx_num::{Ray, V3};
use gx_path::MemRows;
use gx_rotation::Rotation;
use gx_sealed::{SealError, Sealed};
use gx_shapes::SolidKind;
use gx_solids::solid;
use gx_steps::Steps;
use gx_tree::{Hierarchy, Placement, Volume, are_within_limits};
use std::alloc::Global;
use std::marker::Brand;
use std::sync::ledger::{Blank, Ledger};
use std::test::Fail;

// The half-length of a cube, and the volumes that are placed in it with where each is in x.
type Cube<'a> = (i64, &'a [(u32, i64)]);

fn volume(alloc: Global, cube: &Cube<'_>) -> Result<Volume, Fail> {
    let &(half, places) = cube;
    let mut placements = Vec::new(alloc);
    for &(volume, x) in places {
        placements.push(Placement::Single {
            volume,
            copy: 0,
            rotation: Rotation::new(0),
            offset: V3 { x, y: 0, z: 0 },
        })?;
    }
    Ok(Volume::new(
        Vec::from_slice(alloc, b"v")?,
        solid(alloc, SolidKind::Cuboid, &[half, half, half])
            .ok()
            .ok_or("a solid")?,
        Vec::from_slice(alloc, b"Air")?,
        placements,
    ))
}

fn sealed(alloc: Global, cubes: &[Cube<'_>]) -> Result<Sealed, Fail> {
    let mut volumes = Vec::new(alloc);
    for cube in cubes {
        volumes.push(volume(alloc, cube)?)?;
    }
    if !are_within_limits(&volumes) {
        return Err("too much".into());
    }
    let tree = Hierarchy::new(alloc, volumes).ok().ok_or("a hierarchy")?;
    match Sealed::new(alloc, tree) {
        Ok(sealed) => Ok(sealed),
        Err(SealError::Refuted { .. }) => Err("refuted".into()),
        Err(SealError::NoMemory) => Err("memory".into()),
    }
}

fn vector(v: [i8; 3]) -> V3
    ensures { IsWithin (unsigned_abs M) result }
{
    let [x, y, z] = v;
    V3 {
        x: i64::from(x),
        y: i64::from(y),
        z: i64::from(z),
    }
}

// The answer, and the rows that were taken; these calls fail.
fn traced<T: Ledger, Q: Ledger>(
    alloc: Global,
    sealed: &Sealed,
    ray: ([i8; 3], [i8; 3]),
    fails: Vec<u32>,
    tests: Blank,
    reads: Blank,
) -> Result<(Result<(), Failed>, String), Fail>
    requires tests_name { tests.name ≡ T.name }
    requires tests_parts { tests.parts ≡ T.parts }
    requires tests_some { 0 < T.parts }
    requires reads_name { reads.name ≡ Q.name }
    requires reads_parts { reads.parts ≡ Q.parts }
    requires reads_some { 0 < Q.parts }
{
    let (o, d) = ray;
    let ray = Ray {
        o: vector(o),
        d: vector(d),
    };
    if ray.d.x == 0 && ray.d.y == 0 && ray.d.z == 0 {
        return Err("no direction".into());
    }
    let mut tests: Steps<T> = Steps::new(tests);
    let mut reads: Steps<Q> = Steps::new(reads);
    let mut scratch = Scratch::new(alloc, sealed.most_daughters())?;
    let mut rows = MemRows::new(alloc, 9, fails)?;
    let answer = trace_ray(
        sealed,
        &ray,
        &mut scratch,
        &mut rows,
        &mut tests,
        &mut reads,
    );
    Ok((answer, text(alloc, &rows)?))
}

fn text(alloc: Global, rows: &MemRows) -> Result<String, Fail> {
    let mut text = String::new(alloc);
    for i in 0..rows.count() {
        let row = rows.at(i);
        text.push_str(&format!(in alloc; "{} {} [", row.from.num(), row.to.num())?)?;
        for j in 0..row.path.len() {
            text.push_str(&format!(in alloc; " {}", row.path.at(j))?)?;
        }
        text.push_str(" ]; ")?;
    }
    Ok(text)
}

// By hand: a cube alone, two cubes side by side, and one in one in the world.
#[test]
fn a_ray_has_its_report(rt: HostRuntime) -> Result<(), Fail> {
    let alloc = rt.alloc();
    let alone: &[Cube<'_>] = &[(10, &[])];
    let two: &[Cube<'_>] = &[(20, &[(1, -5), (1, 5)]), (5, &[])];
    let nested: &[Cube<'_>] = &[(20, &[(1, 2)]), (10, &[(2, 3)]), (2, &[])];
    let cases: [(&[Cube<'_>], [i8; 3], [i8; 3], &str); 6] = [
        (alone, [-20, 0, 0], [1, 0, 0], "10 30 [ ]; "),
        (
            two,
            [-30, 0, 0],
            [1, 0, 0],
            "10 20 [ ]; 20 30 [ 0 ]; 30 40 [ 1 ]; 40 50 [ ]; ",
        ),
        // back, from inside one, and past the world
        (
            two,
            [30, 0, 0],
            [-1, 0, 0],
            "10 20 [ ]; 20 30 [ 1 ]; 30 40 [ 0 ]; 40 50 [ ]; ",
        ),
        (two, [5, 0, 0], [0, 1, 0], "0 5 [ 1 ]; 5 20 [ ]; "),
        (two, [-30, 25, 0], [1, 0, 0], ""),
        (
            nested,
            [-30, 0, 0],
            [1, 0, 0],
            "10 22 [ ]; 22 33 [ 0 ]; 33 37 [ 0 0 ]; 37 42 [ 0 ]; 42 50 [ ]; ",
        ),
    ];
    for (cubes, o, d, rows) in cases {
        let sealed = sealed(alloc, cubes)?;
        let (answer, text) = traced::<Brand, Brand>(
            alloc,
            &sealed,
            (o, d),
            Vec::new(alloc),
            Blank::new(1),
            Blank::new(1),
        )?;
        assert_eq!(rt; answer, Ok(()));
        assert_eq!(rt; text.as_str(), rows);
    }
    Ok(())
}

#[test]
fn a_row_that_isnt_taken_ends_the_report(rt: HostRuntime) -> Result<(), Fail> {
    let alloc = rt.alloc();
    let sealed = sealed(alloc, &[(20, &[(1, 0)]), (5, &[])])?;
    let (answer, text) = traced::<Brand, Brand>(
        alloc,
        &sealed,
        ([-30, 0, 0], [1, 0, 0]),
        [2].to_vec(alloc)?,
        Blank::new(1),
        Blank::new(1),
    )?;
    assert_eq!(rt; answer, Err(Failed));
    assert_eq!(rt; text.as_str(), "10 25 [ ]; ");
    Ok(())
}
