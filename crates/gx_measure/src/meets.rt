//! Whether the insides of two hulls meet, and what shows it: of hulls that lie about one place, and of two in near contact.

ghost use Rattle.std.specs.Prelude.{◌≤◌, unsigned_abs, All, IfOk};
ghost use Rattle.gx_num.specs.declared.vector.TheConstants.{M};
ghost use Rattle.gx_num.specs.Vector.{IsWithin};

use crate::hulls::square;
use crate::random::Random;
use gx_common::{common_points, insides_meet};
use gx_hull::Hull;
use gx_num::V3;
use gx_separate::plane_between;
use std::alloc::{AllocError, Global};

/// What is asked of two hulls: only whether their insides meet, or also common points, or else the first plane between.
#[derive(Clone, Copy)]
pub enum Question {
    Decide,
    Show,
}

/// How many pairs of the hulls meet; each is asked so many times.
pub fn pairs(alloc: Global, question: Question, hulls: &[Hull], times: u64) -> Option<u64> {
    let mut meeting = 0u64;
    for _ in 0..times {
        for (i, a) in hulls.iter().enumerate() {
            for b in &hulls[i + 1..] {
                if meet(alloc, question, a, b)? {
                    meeting = meeting.saturating_add(1);
                }
            }
        }
    }
    Some(meeting)
}

fn meet(alloc: Global, question: Question, a: &Hull, b: &Hull) -> Option<bool> {
    match question {
        Question::Decide => insides_meet(alloc, a, b).ok(),
        Question::Show => {
            if common_points(alloc, a, b).ok()?.is_some() {
                return Some(true);
            }
            plane_between(a, b)?;
            Some(false)
        }
    }
}

/// Hulls of points on lenses about one place, with these numbers of vertices in turn.
pub fn lenses(
    alloc: Global,
    random: &mut Random,
    count: u64,
    least: u8,
    most: u8,
) -> Option<Vec<Hull>> {
    let mut hulls = Vec::new(alloc);
    let mut vertices = least;
    for _ in 0..count {
        let points = lens(alloc, random, vertices).ok()?;
        hulls.push(Hull::new(alloc, points).ok()?).ok()?;
        vertices = if vertices < most { vertices + 1 } else { least };
    }
    Some(hulls)
}

fn lens(alloc: Global, random: &mut Random, vertices: u8) -> Result<Vec<V3>, AllocError>
    ensures { IfOk result (λ points. All (IsWithin (unsigned_abs M)) points.items) }
{
    let middle = V3 {
        x: random.number(),
        y: random.number(),
        z: random.number(),
    };
    let mut points = Vec::new(alloc);
    for i in 0..vertices {
        points.push(on_lens(middle, random.number(), random.number(), i % 2 == 0))?;
    }
    Ok(points)
}

// A point over or under the middle, in which x and y count twice.
fn on_lens(middle: V3, x: i64, y: i64, is_upper: bool) -> V3
    requires middle { IsWithin 300 middle }
    requires x { unsigned_abs x ≤ 300 }
    requires y { unsigned_abs y ≤ 300 }
    ensures { IsWithin (unsigned_abs M) result }
{
    let height = height(x, y);
    V3 {
        x: middle.x + x + x,
        y: middle.y + y + y,
        z: if is_upper {
            middle.z + height
        } else {
            middle.z - height
        },
    }
}

// Up to 600 in the middle.
fn height(x: i64, y: i64) -> i64
    requires x { unsigned_abs x ≤ 300 }
    requires y { unsigned_abs y ≤ 300 }
    ensures { unsigned_abs result ≤ 540000 }
{
    (180000 - square(x) - square(y)) / 300
}

/// Two hulls in near contact: boxes, sheared so that their extents overlap, that touch in a face, an edge or a vertex, are a
/// step apart or a step deep; or tetrahedra whose edges cross, touching, a step apart or a step deep.
pub fn contact(alloc: Global, word: &str) -> Option<Vec<Hull>> {
    match word {
        "face" => boxes(alloc, 10, 3, 3),
        "edge" => boxes(alloc, 10, 10, 3),
        "vertex" => boxes(alloc, 10, 10, 10),
        "apart" => boxes(alloc, 11, 3, 3),
        "deep" => boxes(alloc, 9, 3, 3),
        "edges" => tetrahedra(alloc, 0),
        "edges-apart" => tetrahedra(alloc, 1),
        "edges-deep" => tetrahedra(alloc, -1),
        _ => None,
    }
}

fn boxes(alloc: Global, x: i8, y: i8, z: i8) -> Option<Vec<Hull>> {
    let mut hulls = Vec::new(alloc);
    hulls.push(sheared_box(alloc, 0, 0, 0)?).ok()?;
    hulls.push(sheared_box(alloc, x, y, z)?).ok()?;
    Some(hulls)
}

// The box of sides 10 from this corner on, sheared.
fn sheared_box(alloc: Global, x: i8, y: i8, z: i8) -> Option<Hull> {
    let (x, y, z) = (i16::from(x), i16::from(y), i16::from(z));
    hull(
        alloc,
        &[
            sheared(x, y, z),
            sheared(x + 10, y, z),
            sheared(x, y + 10, z),
            sheared(x + 10, y + 10, z),
            sheared(x, y, z + 10),
            sheared(x + 10, y, z + 10),
            sheared(x, y + 10, z + 10),
            sheared(x + 10, y + 10, z + 10),
        ],
    )
}

fn tetrahedra(alloc: Global, d: i8) -> Option<Vec<Hull>> {
    let d = i16::from(d);
    let below = [
        sheared(-1000, 0, 0),
        sheared(1000, 0, 0),
        sheared(0, -1000, -1000),
        sheared(0, 1000, -1000),
    ];
    let above = [
        sheared(0, -1000, d),
        sheared(0, 1000, d),
        sheared(-1000, 0, 1000),
        sheared(1000, 0, 1000),
    ];
    let mut hulls = Vec::new(alloc);
    hulls.push(hull(alloc, &below)?).ok()?;
    hulls.push(hull(alloc, &above)?).ok()?;
    Some(hulls)
}

fn hull(alloc: Global, points: &[V3]) -> Option<Hull>
    requires { All (IsWithin (unsigned_abs M)) points.now }
{
    Hull::new(alloc, Vec::from_slice(alloc, points).ok()?).ok()
}

fn sheared(x: i16, y: i16, z: i16) -> V3
    ensures { IsWithin (unsigned_abs M) result }
{
    let (x, y, z) = (i64::from(x), i64::from(y), i64::from(z));
    V3 {
        x: x - y,
        y: y - z,
        z: z + x - y,
    }
}
