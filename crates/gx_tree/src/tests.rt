ghost use Rattle.std.specs.Prelude.{◌≡◌, ◌<◌, unsigned_abs, All};
ghost use Rattle.gx_num.specs.Vector.{IsWithin};
ghost use Rattle.gx_num.specs.declared.vector.TheConstants.{M};
ghost use Rattle.gx_shapes.specs.Accepted.{IsSolid};
ghost use Rattle.gx_shapes.specs.Solid.{vertices_of};

use crate::{Hierarchy, Instance, Placement, TreeError, TreeFault, Volume, are_within_limits};
use gx_hull::{Hull, Solid};
use gx_num::{M, V3};
use gx_rotation::Rotation;
use gx_shapes::{Figure, SolidKind};
use std::alloc::Global;
use std::process::Abort;
use std::test::Fail;

// A value that takes long to be shown dropped, as volumes or a hierarchy, is owned by functions with one way out.

// ---- solids

fn point(x: i64, y: i64, z: i64) -> V3
    ensures x { result.x ≡ x }
    ensures y { result.y ≡ y }
    ensures z { result.z ≡ z }
{
    V3 { x, y, z }
}

fn sealed(alloc: Global, figure: Figure, vertices: &[V3]) -> Result<Solid, TreeError>
    requires solid { IsSolid figure }
    requires within { All (IsWithin (unsigned_abs M)) vertices.now }
    requires vertices { vertices.now ≡ vertices_of figure }
{
    let points = Vec::from_slice(alloc, vertices)?;
    match Hull::new(alloc, points) {
        Ok(hull) => Ok(Solid::seal(figure, hull)),
        Err(_) => Err(TreeError::NoMemory),
    }
}

// A tetrahedron at the origin.
fn corner(alloc: Global) -> Result<Solid, TreeError> {
    let a = V3 { x: 0, y: 0, z: 0 };
    let b = V3 { x: 4, y: 0, z: 0 };
    let c = V3 { x: 0, y: 4, z: 0 };
    let d = V3 { x: 0, y: 0, z: 4 };
    sealed(alloc, Figure::Tet(a, b, c, d), &[a, b, c, d])
}

// From -10 to 10 on each axis.
fn cube(alloc: Global) -> Result<Solid, TreeError> {
    let corners = [
        V3 {
            x: -10,
            y: -10,
            z: -10,
        },
        V3 {
            x: 10,
            y: -10,
            z: -10,
        },
        V3 {
            x: -10,
            y: 10,
            z: -10,
        },
        V3 {
            x: 10,
            y: 10,
            z: -10,
        },
        V3 {
            x: -10,
            y: -10,
            z: 10,
        },
        V3 {
            x: 10,
            y: -10,
            z: 10,
        },
        V3 {
            x: -10,
            y: 10,
            z: 10,
        },
        V3 {
            x: 10,
            y: 10,
            z: 10,
        },
    ];
    sealed(alloc, Figure::Cuboid(10, 10, 10), &corners)
}

// From -2 to 2 on x.
fn slab(alloc: Global) -> Result<Solid, TreeError> {
    let corners = [
        V3 {
            x: -2,
            y: -10,
            z: -10,
        },
        V3 {
            x: 2,
            y: -10,
            z: -10,
        },
        V3 {
            x: -2,
            y: 10,
            z: -10,
        },
        V3 {
            x: 2,
            y: 10,
            z: -10,
        },
        V3 {
            x: -2,
            y: -10,
            z: 10,
        },
        V3 {
            x: 2,
            y: -10,
            z: 10,
        },
        V3 {
            x: -2,
            y: 10,
            z: 10,
        },
        V3 { x: 2, y: 10, z: 10 },
    ];
    sealed(alloc, Figure::Cuboid(2, 10, 10), &corners)
}

#[derive(Clone, Copy)]
enum Shape {
    Corner,
    Cube,
    Slab,
}

fn solid(alloc: Global, shape: Shape) -> Result<Solid, TreeError> {
    match shape {
        Shape::Corner => corner(alloc),
        Shape::Cube => cube(alloc),
        Shape::Slab => slab(alloc),
    }
}

// ---- volumes

// A volume of this shape, in which these are placed.
type Row<'a> = (Shape, &'a [Placement]);

fn volume(alloc: Global, row: Row<'_>) -> Option<Volume> {
    let name = Vec::from_slice(alloc, b"hall").ok()?;
    let material = Vec::from_slice(alloc, b"Air").ok()?;
    let placements = Vec::from_slice(alloc, row.1).ok()?;
    let solid = solid(alloc, row.0).ok()?;
    Some(Volume::new(name, solid, material, placements))
}

fn push(alloc: Global, volumes: &mut Vec<Volume>, row: Row<'_>) -> Option<()> {
    volumes.push(volume(alloc, row)?).ok()
}

fn push_all(alloc: Global, volumes: &mut Vec<Volume>, rows: &[Row<'_>]) -> Option<()> {
    for row in rows {
        push(alloc, volumes, *row)?;
    }
    Some(())
}

// So many cubes, each so often in the one before.
fn push_chain(alloc: Global, volumes: &mut Vec<Volume>, length: u32, times: usize) -> Option<()> {
    for v in 1..length {
        let inside = [single(v), single(v)];
        push(alloc, volumes, (Shape::Cube, inside.get(..times)?))?;
    }
    push(alloc, volumes, (Shape::Cube, &[]))
}

fn single(volume: u32) -> Placement {
    Placement::Single {
        volume,
        copy: 7,
        rotation: Rotation::new(10),
        offset: V3 { x: 1, y: 2, z: 3 },
    }
}

// Cells of volume 1 along x.
fn cells(count: u32, width: i64) -> Placement {
    Placement::Replica {
        volume: 1,
        axis: 0,
        count,
        width,
    }
}

// ---- hierarchies

fn hierarchy(alloc: Global, volumes: Vec<Volume>) -> Option<Result<Hierarchy, TreeError>> {
    if are_within_limits(&volumes) {
        Some(Hierarchy::new(alloc, volumes))
    } else {
        None
    }
}

// How many volumes there are, and which is the world.
fn world_of(answer: Option<Result<Hierarchy, TreeError>>) -> Option<Result<(u32, u32), TreeError>> {
    match answer {
        Some(Ok(tree)) => Some(Ok((tree.count(), tree.world()))),
        Some(Err(error)) => Some(Err(error)),
        None => None,
    }
}

fn judged(alloc: Global, rows: &[Row<'_>]) -> Option<Result<(u32, u32), TreeError>> {
    let mut volumes = Vec::new(alloc);
    let pushed = push_all(alloc, &mut volumes, rows).is_some();
    world_of(if pushed {
        hierarchy(alloc, volumes)
    } else {
        None
    })
}

fn judged_chain(alloc: Global, length: u32, times: usize) -> Option<Result<(u32, u32), TreeError>> {
    let mut volumes = Vec::new(alloc);
    let pushed = push_chain(alloc, &mut volumes, length, times).is_some();
    world_of(if pushed {
        hierarchy(alloc, volumes)
    } else {
        None
    })
}

// ---- what is accepted, and what isn't

fn fault(fault: TreeFault) -> Result<(u32, u32), TreeError> {
    Err(TreeError::Fault(fault))
}

fn check(
    rt: &impl Abort,
    alloc: Global,
    rows: &[Row<'_>],
    expected: Result<(u32, u32), TreeError>,
) {
    assert_eq!(rt; judged(alloc, rows), Some(expected));
}

#[test]
fn volumes_make_a_hierarchy_or_have_a_fault(rt: HostRuntime) {
    let alloc = rt.alloc();
    let cube = Shape::Cube;
    let (zero, one, two) = ([single(0)], [single(1)], [single(2)]);
    check(&rt, alloc, &[(cube, &zero)], fault(TreeFault::Cycle(0)));
    // The world only leads to a cycle.
    check(
        &rt,
        alloc,
        &[(cube, &one), (cube, &two), (cube, &one)],
        fault(TreeFault::Cycle(1)),
    );
    check(&rt, alloc, &[], fault(TreeFault::NoWorld));
    check(
        &rt,
        alloc,
        &[(cube, &[]), (cube, &[])],
        fault(TreeFault::TwoWorlds(1)),
    );
    // The world need not be the first.
    check(&rt, alloc, &[(cube, &[]), (cube, &zero)], Ok((2, 1)));
}

// By hand: in the chain of 34 cubes volume 33 is 33 placements below the world.
#[test]
fn chains_have_a_most(rt: HostRuntime) {
    let rows = [
        (34, 1, fault(TreeFault::TooDeep(33))),
        (4096, 1, fault(TreeFault::TooDeep(33))),
        (40, 2, fault(TreeFault::TooDeep(33))),
        (33, 2, Ok((33, 0))),
    ];
    for (length, times, expected) in rows {
        assert_eq!(rt; judged_chain(rt.alloc(), length, times), Some(expected));
    }
}

#[test]
fn replicas_that_do_not_fill_their_mother(rt: HostRuntime) {
    let (cube, slab, corner) = (Shape::Cube, Shape::Slab, Shape::Corner);
    let unfilled = TreeFault::ReplicaFill(0, 0);
    let full = [cells(5, 4)];
    let mixed = [single(1), cells(5, 4)];
    let (a, b, c, d, e) = (
        [cells(5, 6)],
        [cells(4, 5)],
        [cells(4, 4)],
        [cells(5, -4)],
        [cells(5, 0)],
    );
    let rows = [
        (cube, slab, a.as_slice(), unfilled),
        (cube, slab, &b, unfilled),
        (cube, slab, &c, unfilled),
        (cube, slab, &d, unfilled),
        (cube, slab, &e, unfilled),
        (cube, cube, &full, unfilled),
        (corner, slab, &full, TreeFault::ReplicaSolid(0, 0)),
        (cube, corner, &full, TreeFault::ReplicaSolid(0, 0)),
        (cube, slab, &mixed, TreeFault::ReplicaMixed(0, 1)),
    ];
    for (mother, cell, placements, expected) in rows {
        let found = judged(rt.alloc(), &[(mother, placements), (cell, &[])]);
        assert_eq!(rt; found, Some(fault(expected)));
    }
}

// ---- the placements of the first volume, written out

fn push_instances(tree: &Hierarchy, found: &mut Vec<Instance>) -> Option<()> {
    if tree.count() > 0 {
        for k in 0..tree.instances(0) {
            found.push(tree.instance(0, k)).ok()?;
        }
    }
    Some(())
}

fn instances_of(
    answer: Option<Result<Hierarchy, TreeError>>,
    found: &mut Vec<Instance>,
) -> Option<()> {
    match answer {
        Some(Ok(tree)) => push_instances(&tree, found),
        _ => None,
    }
}

fn instances(alloc: Global, rows: &[Row<'_>], found: &mut Vec<Instance>) -> Option<()> {
    let mut volumes = Vec::new(alloc);
    let pushed = push_all(alloc, &mut volumes, rows).is_some();
    instances_of(
        if pushed {
            hierarchy(alloc, volumes)
        } else {
            None
        },
        found,
    )
}

fn copy(copy: i32, turn: u8, offset: V3) -> Instance
    requires { turn < 24 }
{
    Instance {
        volume: 1,
        copy,
        rotation: Rotation::new(turn),
        offset,
    }
}

// By hand: five cells of width 4 fill 20, and their centres are at -8, -4, 0, 4 and 8.
#[test]
fn replicas_fill_their_mother(rt: HostRuntime) -> Result<(), Fail> {
    let alloc = rt.alloc();
    let mut found = Vec::new(alloc);
    instances(
        alloc,
        &[(Shape::Cube, &[cells(5, 4)]), (Shape::Slab, &[])],
        &mut found,
    )
    .ok_or("instances")?;
    let expected = [
        copy(0, 0, V3 { x: -8, y: 0, z: 0 }),
        copy(1, 0, V3 { x: -4, y: 0, z: 0 }),
        copy(2, 0, V3 { x: 0, y: 0, z: 0 }),
        copy(3, 0, V3 { x: 4, y: 0, z: 0 }),
        copy(4, 0, V3 { x: 8, y: 0, z: 0 }),
    ];
    assert!(rt; found.as_slice() == expected.as_slice());
    Ok(())
}

// One copy, a row and a square.
fn placed() -> [Placement; 3] {
    let row = Placement::Linear {
        volume: 1,
        axis: 1,
        rotation: Rotation::new(3),
        count: 3,
        step: 20,
        offset: -20,
    };
    let square = Placement::Square {
        volume: 1,
        plane: 0,
        rotation: Rotation::new(0),
        first_count: 2,
        second_count: 2,
        first_step: 20,
        second_step: 20,
        first_offset: -10,
        second_offset: -10,
    };
    [single(1), row, square]
}

// By hand: the row's three stand at -20, 0 and 20 on y, and copy 3 of the square is the second of its second row.
#[test]
fn placements_are_written_out(rt: HostRuntime) -> Result<(), Fail> {
    let alloc = rt.alloc();
    let mut found = Vec::new(alloc);
    instances(
        alloc,
        &[(Shape::Cube, &placed()), (Shape::Cube, &[])],
        &mut found,
    )
    .ok_or("instances")?;
    let expected = [
        copy(7, 10, V3 { x: 1, y: 2, z: 3 }),
        copy(0, 3, V3 { x: 0, y: -20, z: 0 }),
        copy(1, 3, V3 { x: 0, y: 0, z: 0 }),
        copy(2, 3, V3 { x: 0, y: 20, z: 0 }),
        copy(
            0,
            0,
            V3 {
                x: -10,
                y: -10,
                z: 0,
            },
        ),
        copy(
            1,
            0,
            V3 {
                x: 10,
                y: -10,
                z: 0,
            },
        ),
        copy(
            2,
            0,
            V3 {
                x: -10,
                y: 10,
                z: 0,
            },
        ),
        copy(3, 0, V3 { x: 10, y: 10, z: 0 }),
    ];
    assert!(rt; found.as_slice() == expected.as_slice());
    Ok(())
}

// ---- what comes back

// Whether these are the parts of the first volume.
fn are_parts(name: &[u8], solid: &Solid, material: &[u8], placements: &[Placement]) -> bool {
    name == b"hall".as_slice()
        && solid.kind() == SolidKind::Cuboid
        && material == b"Air".as_slice()
        && placements == placed().as_slice()
}

fn shows_parts(tree: &Hierarchy) -> bool {
    tree.count() > 0
        && are_parts(
            tree.name(0),
            tree.solid(0),
            tree.material(0),
            tree.placements(0),
        )
}

fn has_parts(volume: Volume) -> bool {
    let (name, solid, material, placements) = volume.into_parts();
    are_parts(&name, &solid, &material, &placements)
}

fn first_has_parts(volumes: Vec<Volume>) -> bool {
    match volumes.into_iter().next() {
        Some(volume) => has_parts(volume),
        None => false,
    }
}

// Whether the hierarchy shows the parts, how many volumes it gives back, and whether the first has the parts.
fn come_back(answer: Option<Result<Hierarchy, TreeError>>) -> Option<(bool, usize, bool)> {
    match answer {
        Some(Ok(tree)) => {
            let shown = shows_parts(&tree);
            let volumes = tree.into_volumes();
            let count = volumes.len();
            Some((shown, count, first_has_parts(volumes)))
        }
        _ => None,
    }
}

fn parts_of(alloc: Global, rows: &[Row<'_>]) -> Option<(bool, usize, bool)> {
    let mut volumes = Vec::new(alloc);
    let pushed = push_all(alloc, &mut volumes, rows).is_some();
    come_back(if pushed {
        hierarchy(alloc, volumes)
    } else {
        None
    })
}

#[test]
fn volumes_come_back(rt: HostRuntime) {
    let placed = placed();
    let rows: [Row<'_>; 2] = [(Shape::Cube, &placed), (Shape::Cube, &[])];
    assert_eq!(rt; parts_of(rt.alloc(), &rows), Some((true, 2, true)));
}
