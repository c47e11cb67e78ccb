ghost use Rattle.std.specs.Prelude.{◌≡◌, ◌++◌, pos, int_lt, map, All, IfOk};
ghost use Rattle.std.specs.List.{list_any};
ghost use Rattle.std.specs.Option.{option_map, is_none, is_some};
ghost use Rattle.gx_num.specs.Vector.{IsWithin};
ghost use Rattle.gx_plane.specs.Plane.{reach, side_of};
ghost use Rattle.gx_convex.specs.Faces.{faces_of};
ghost use Rattle.gx_hull.specs.Hull.{IsVertices};
ghost use Rattle.gx_separate.specs.Between.{first_between};
ghost use Rattle.gx_common.specs.Common.{candidate_points, taken_of, common_of};
ghost use Rattle.gx_common.specs.Reached.{is_any_at_most, are_extents_apart, are_reached_by};
ghost use Rattle.gx_common.specs.Slots.{empty, after};

use crate::Points;
use crate::candidate::Candidate;
use crate::distinct::distinct;
use crate::offers::{offer_crossings, offer_vertices};
use crate::slots::{Slot, points, slots};
use crate::vertex::vertices;
use gx_hull::Hull;
use gx_num::{Extent, NoMemory, V3};
use gx_plane::Plane;
use std::alloc::Global;

/// The points that show that the insides of the two meet: for each face of `a` and then of `b` the first common point that is
/// strictly inside it, each point once. The points that are tried are the vertices of `a` and then of `b` that are in the other,
/// and then the points where a segment of two vertices of `a`, and then of `b`, crosses a face of the other, where they are in
/// the other. None where the insides don't meet, just where a plane is between the two.
pub fn common_points(alloc: Global, a: &Hull, b: &Hull) -> Result<Option<Points>, NoMemory>
    ensures value { IfOk result (λ found. found ≡ common_of a.now b.now) }
    ensures apart { IfOk result (λ found. is_none found ≡ is_some (first_between a.now b.now)) }
{
    let Some(candidates) = taken_points(alloc, a, b)? else {
        return Ok(None);
    };
    Ok(Some(Points::seal(distinct(alloc, &candidates)?)))
}

/// The insides of the two meet: no plane is between them. No plane is looked for.
pub fn insides_meet(alloc: Global, a: &Hull, b: &Hull) -> Result<bool, NoMemory>
    ensures { IfOk result (λ meet. meet ≡ is_none (first_between a.now b.now)) }
{
    let candidates = taken_points(alloc, a, b)?;
    Ok(candidates.is_some())
}

// The candidate points taken for the faces; None where a face has none. Most pairs without any are told by their extents, or
// by a face with no vertex of the other strictly inside.
fn taken_points(alloc: Global, a: &Hull, b: &Hull) -> Result<Option<Vec<Candidate>>, NoMemory>
    ensures value { IfOk result (λ found. option_map (λ points. points.items) found ≡ taken_of a.now b.now) }
    ensures vertices { IsVertices a.now }
    ensures others { IsVertices b.now }
{
    let (vertices, others) = (a.vertices(), b.vertices());
    if are_apart(a.extent(), b.extent()) {
        return Ok(None);
    }
    if !are_reached(a.faces(), others) {
        return Ok(None);
    }
    if !are_reached(b.faces(), vertices) {
        return Ok(None);
    }
    take_all(alloc, a, b)
}

/// On some axis the one ends where the other begins, or before; so the insides of two solids with these extents don't meet.
#[inline(always)]
pub fn are_apart(a: Extent, b: Extent) -> bool
    ensures { result ≡ are_extents_apart a b }
{
    if is_any_at_most(a.high, b.low) {
        return true;
    }
    is_any_at_most(b.high, a.low)
}

fn is_any_at_most(p: V3, q: V3) -> bool
    ensures { result ≡ is_any_at_most p q }
{
    if p.x <= q.x {
        return true;
    }
    if p.y <= q.y {
        return true;
    }
    p.z <= q.z
}

// Each of the faces has one of the points strictly inside it.
fn are_reached(faces: &[Plane], points: &[V3]) -> bool
    requires { All (IsWithin reach) points.now }
    ensures { result ≡ are_reached_by faces.now points.now }
{
    faces.iter().all(|face| is_reached(face, points))
}

fn is_reached(face: &Plane, points: &[V3]) -> bool
    requires { All (IsWithin reach) points.now }
    ensures { result ≡ list_any (λ p. int_lt (side_of face.now p) (pos 0)) points.now }
{
    points.iter().any(|&p| face.side(p) < 0)
}

fn take_all(alloc: Global, a: &Hull, b: &Hull) -> Result<Option<Vec<Candidate>>, NoMemory>
    ensures { IfOk result (λ found. option_map (λ points. points.items) found ≡ taken_of a.now b.now) }
{
    let mut slots = slots(alloc, a.faces(), b.faces())?;
    take_into(alloc, &mut slots, a, b)
}

fn take_into(
    alloc: Global,
    slots: &mut [Slot],
    a: &Hull,
    b: &Hull,
) -> Result<Option<Vec<Candidate>>, NoMemory>
    requires { slots.now ≡ map empty (faces_of a.now ++ faces_of b.now) }
    ensures { IfOk result (λ found. option_map (λ points. points.items) found ≡ taken_of a.now b.now) }
{
    fill(alloc, slots, a, b)?;
    points(alloc, slots)
}

// Offers the candidates in their order, until no face wants one.
fn fill(alloc: Global, slots: &mut [Slot], a: &Hull, b: &Hull) -> Result<(), NoMemory>
    ensures { IfOk result (λ _. slots.new ≡ after (candidate_points a.now b.now) slots.old) }
{
    let (points, others) = (a.vertices(), b.vertices());
    let (faces, other_faces) = (a.faces(), b.faces());
    if offer_vertices(slots, points, other_faces) {
        return Ok(());
    }
    if offer_vertices(slots, others, faces) {
        return Ok(());
    }
    if offer_crossings(slots, &vertices(alloc, points, other_faces)?) {
        return Ok(());
    }
    let _filled = offer_crossings(slots, &vertices(alloc, others, faces)?);
    Ok(())
}
