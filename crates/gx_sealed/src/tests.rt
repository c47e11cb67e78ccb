ghost use Rattle.std.specs.Prelude.{◌≡◌, ◌<◌, IfOk};
ghost use Rattle.gx_num.specs.Vector.{IsWithin};
ghost use Rattle.gx_sealed.specs.Sealed.{IsTraceable};

use crate::{Cells, SealError, Sealed, Step};
use gx_check::Verdict;
use gx_clip::Span;
use gx_num::{Ray, V3};
use gx_rotation::from_angles3;
use gx_shapes::SolidKind;
use gx_solids::solid;
use gx_steps::Steps;
use gx_tree::{Hierarchy, Placement, Volume, are_within_limits};
use gx_voxel::Proxy;
use std::alloc::{AllocError, Global};
use std::marker::Brand;
use std::sync::ledger::{Blank, Ledger};
use std::test::Fail;

// ---- hierarchies

// A volume that is placed, its copy number, how often it is turned by a quarter about x, and where.
type Place = (u32, i32, u8, i64, i64, i64);

// A name and a kind with its values, and what is placed in it.
type Body<'a> = (&'a [u8], SolidKind, &'a [i64], &'a [Place]);

fn placement(place: Place) -> Result<Placement, Fail> {
    let (volume, copy, turns, x, y, z) = place;
    Ok(Placement::Single {
        volume,
        copy,
        rotation: from_angles3([Some(turns), Some(0), Some(0)])
            .ok()
            .ok_or("a rotation")?,
        offset: V3 { x, y, z },
    })
}

fn volume(alloc: Global, body: &Body<'_>) -> Result<Volume, Fail> {
    let &(name, kind, values, places) = body;
    if values.len() > 20 {
        return Err("too many values".into());
    }
    let mut placements = Vec::new(alloc);
    for &place in places {
        placements.push(placement(place)?)?;
    }
    Ok(Volume::new(
        Vec::from_slice(alloc, name)?,
        solid(alloc, kind, values).ok().ok_or("a solid")?,
        Vec::from_slice(alloc, b"Air")?,
        placements,
    ))
}

fn hierarchy(alloc: Global, bodies: &[Body<'_>]) -> Result<Hierarchy, Fail> {
    let mut volumes = Vec::new(alloc);
    for body in bodies {
        volumes.push(volume(alloc, body)?)?;
    }
    made(alloc, volumes)
}

fn made(alloc: Global, volumes: Vec<Volume>) -> Result<Hierarchy, Fail> {
    if !are_within_limits(&volumes) {
        return Err("too much".into());
    }
    Ok(Hierarchy::new(alloc, volumes).ok().ok_or("a hierarchy")?)
}

fn sealed(alloc: Global, bodies: &[Body<'_>]) -> Result<Sealed, Fail> {
    seal(alloc, hierarchy(alloc, bodies)?)
}

fn seal(alloc: Global, tree: Hierarchy) -> Result<Sealed, Fail> {
    match Sealed::new(alloc, tree) {
        Ok(sealed) => Ok(sealed),
        Err(SealError::Refuted { .. }) => Err("refuted".into()),
        Err(SealError::NoMemory) => Err("memory".into()),
    }
}

// ---- rays

fn vector(v: [i8; 3]) -> V3
    ensures { IsWithin 128 result }
{
    let [x, y, z] = v;
    V3 {
        x: i64::from(x),
        y: i64::from(y),
        z: i64::from(z),
    }
}

// A ray, where it has a direction.
fn ray(o: [i8; 3], d: [i8; 3]) -> Result<Ray, Fail>
    ensures { IfOk result IsTraceable }
{
    let ray = Ray {
        o: vector(o),
        d: vector(d),
    };
    if ray.d.x == 0 && ray.d.y == 0 && ray.d.z == 0 {
        return Err("no direction".into());
    }
    Ok(ray)
}

// The parts inside the world and inside each of its daughters.
fn spans(alloc: Global, sealed: &Sealed, ray: &Ray) -> Result<String, AllocError>
    requires { IsTraceable ray.now }
{
    counted::<Brand>(alloc, sealed, ray, Blank::new(1))
}

fn counted<L: Ledger>(
    alloc: Global,
    sealed: &Sealed,
    ray: &Ray,
    blank: Blank,
) -> Result<String, AllocError>
    requires ray { IsTraceable ray.now }
    requires name { blank.name ≡ L.name }
    requires parts { blank.parts ≡ L.parts }
    requires some { 0 < L.parts }
{
    let mut tests: Steps<L> = Steps::new(blank);
    let world = sealed.world();
    let mut text = String::new(alloc);
    write(alloc, &mut text, sealed.world_span(ray))?;
    for k in 0..sealed.daughters(world) {
        write(alloc, &mut text, sealed.clip(world, k, ray, &mut tests))?;
    }
    Ok(text)
}

fn write(alloc: Global, text: &mut String, span: Option<Span>) -> Result<(), AllocError> {
    let Some(Span { from, to }) = span else {
        return text.push_str("none; ");
    };
    text.push_str(&format!(in alloc; "{}/{} {}/{}; ", from.num(), from.den(), to.num(), to.den())?)
}

const BOX: SolidKind = SolidKind::Cuboid;

// By hand: two boxes side by side, which touch at x = 0.
#[test]
fn a_ray_is_inside_daughters_in_its_spans(rt: HostRuntime) -> Result<(), Fail> {
    let alloc = rt.alloc();
    let sealed = sealed(
        alloc,
        &[
            (
                b"world",
                BOX,
                &[20, 20, 20],
                &[(1, 7, 0, -5, 0, 0), (1, -3, 0, 5, 0, 0)],
            ),
            (b"b", BOX, &[5, 5, 5], &[]),
        ],
    )?;
    let cases = [
        // across both, back, and from inside one
        ([-30, 0, 0], [1, 0, 0], "10/1 50/1; 20/1 30/1; 30/1 40/1; "),
        ([30, 0, 0], [-3, 0, 0], "10/3 50/3; 10/1 40/3; 20/3 10/1; "),
        ([5, 0, 0], [0, 0, 1], "0/1 20/1; none; 0/1 5/1; "),
        // in the face between them, in an edge, and at a corner alone
        ([0, -30, 0], [0, 1, 0], "10/1 50/1; none; none; "),
        ([-30, 5, 5], [1, 0, 0], "10/1 50/1; none; none; "),
        ([0, 15, -5], [1, -1, 1], "0/1 20/1; none; none; "),
        // away from all
        ([30, 0, 0], [1, 0, 0], "none; none; none; "),
    ];
    for (o, d, expected) in cases {
        let found = spans(alloc, &sealed, &ray(o, d)?)?;
        assert_eq!(rt; found.as_str(), expected);
    }
    let world = sealed.world();
    assert_eq!(rt; sealed.name(world), b"world".as_slice());
    assert_eq!(rt; sealed.most_daughters(), 2);
    assert_eq!(rt; sealed.daughters(world), 2);
    assert_eq!(rt;
        sealed.step(world, 1),
        Step {
            volume: 1,
            copy: -3
        }
    );
    Ok(())
}

// By hand: a trapezoid, half 5 wide in x at its lower end and 8 at its upper, which is turned towards y. At y = 5 it is half 7.25
// wide.
#[test]
fn a_turned_daughter_is_entered(rt: HostRuntime) -> Result<(), Fail> {
    let alloc = rt.alloc();
    let sealed = sealed(
        alloc,
        &[
            (b"world", BOX, &[20, 20, 20], &[(1, 0, 1, 0, 2, 0)]),
            (b"t", SolidKind::Trd, &[5, 8, 5, 5, 10], &[]),
        ],
    )?;
    let across = ray([-30, 7, 0], [1, 0, 0])?;
    let found = spans(alloc, &sealed, &across)?;
    assert_eq!(rt; found.as_str(), "10/1 50/1; 91/4 149/4; ");
    let slanted = ray([-30, 7, 6], [1, 2, 3])?;
    let entered = ray([-30, -6, 5], [1, -3, 2])?;
    let world = sealed.world();
    assert_eq!(rt; sealed.daughters(world), 1);
    assert_eq!(rt; sealed.enter(world, 0, &slanted), entered);
    Ok(())
}

// By hand: two boxes of which the second begins inside the first.
#[test]
fn an_overlap_is_handed_back(rt: HostRuntime) -> Result<(), Fail> {
    let alloc = rt.alloc();
    let tree = hierarchy(
        alloc,
        &[
            (
                b"world",
                BOX,
                &[20, 20, 20],
                &[(1, 0, 0, 0, 0, 0), (1, 1, 0, 9, 0, 0)],
            ),
            (b"b", BOX, &[5, 5, 5], &[]),
        ],
    )?;
    let Err(SealError::Refuted { tree, verdict }) = Sealed::new(alloc, tree) else {
        return Err("sealed".into());
    };
    let Verdict::Overlap {
        mother,
        first,
        second,
        points,
    } = verdict
    else {
        return Err("no overlap".into());
    };
    let mut text = format!(in alloc; "{mother} {first} {second}")?;
    for i in 0..points.count() {
        let p = points.at(i);
        text.push_str(&format!(in alloc; " {}:{}:{}:{}", p.x(), p.y(), p.z(), p.w())?)?;
    }
    assert_eq!(rt;
        text.as_str(),
        "0 0 1 5:-5:5:1 5:5:-5:1 5:-5:-5:1 4:-5:-5:1"
    );
    assert_eq!(rt; tree.count(), 2);
    Ok(())
}

// By hand: five cells of width 4 fill a box from -10 to 10 along y, and have no daughters.
#[test]
fn copies_of_a_replica_are_slabs(rt: HostRuntime) -> Result<(), Fail> {
    let alloc = rt.alloc();
    let mut placements = Vec::new(alloc);
    placements.push(Placement::Replica {
        volume: 1,
        axis: 1,
        count: 5,
        width: 4,
    })?;
    let mut volumes = Vec::new(alloc);
    volumes.push(Volume::new(
        Vec::from_slice(alloc, b"world")?,
        solid(alloc, BOX, &[10, 10, 10]).ok().ok_or("a solid")?,
        Vec::from_slice(alloc, b"Air")?,
        placements,
    ))?;
    volumes.push(volume(alloc, &(b"cell", BOX, &[10, 2, 10], &[]))?)?;
    let sealed = seal(alloc, made(alloc, volumes)?)?;
    if sealed.count() != 2 {
        return Err("volumes".into());
    }
    let Cells::Replicas {
        axis,
        low,
        width,
        count,
    } = sealed.cells(0)
    else {
        return Err("a tree".into());
    };
    assert_eq!(rt; (*axis, *low, *width, *count), (1, -10, 4, 5));
    let Cells::Tree(Proxy::Node(members)) = sealed.cells(1) else {
        return Err("no node".into());
    };
    assert_eq!(rt; members.count(), 0);
    Ok(())
}
