ghost use Rattle.std.specs.Prelude.{◌≡◌, ◌≤◌, ◌*◌, ◌*ℤ◌, ◌<ℤ◌, [], ◌∷◌, pos, int_le, int_lt, map, filter, unsigned_abs, slice_get, Some, All, IsTrue};
ghost use Rattle.std.specs.List.{cons_option, list_all};
ghost use Rattle.gx_num.specs.Vector.{IsWithin};
ghost use Rattle.gx_num.specs.Space.{is_in as is_in_all};
ghost use Rattle.gx_plane.specs.Plane.{reach, offset_reach, side_of};
ghost use Rattle.gx_common.specs.Common.{point_of};
ghost use Rattle.gx_common.specs.Sides.{crossing_in, crossings_of_two, crossings_with, crossings_in};
ghost use Rattle.gx_common.specs.Slots.{after, are_filled};

use crate::candidate::Candidate;
use crate::slots::{Slot, offer};
use crate::vertex::Vertex;
use gx_num::V3;
use gx_plane::Plane;

/// Offers those of the points that are in all the faces. True: no face wants a point any more.
pub fn offer_vertices(slots: &mut [Slot], points: &[V3], faces: &[Plane]) -> bool
    requires { All (IsWithin reach) points.now }
    ensures value { slots.new ≡ after (filter (is_in_all faces.now) (map point_of points.now)) slots.old }
    ensures filled { IsTrue result → IsTrue (are_filled slots.new) }
{
    for &point in points {
        if offer_vertex(slots, point, faces) {
            return true;
        }
    }
    false
}

// Offers the point, where it is in all the faces.
fn offer_vertex(slots: &mut [Slot], point: V3, faces: &[Plane]) -> bool
    requires { IsWithin reach point }
    ensures value { slots.new ≡ after (filter (is_in_all faces.now) (point_of point ∷ [])) slots.old }
    ensures filled { IsTrue result → IsTrue (are_filled slots.new) }
{
    if is_in(point, faces) {
        return offer(slots, &Candidate::vertex(point));
    }
    false
}

fn is_in(point: V3, faces: &[Plane]) -> bool
    requires { IsWithin reach point }
    ensures { result ≡ list_all (λ h. int_le (side_of h point) (pos 0)) faces.now }
{
    faces.iter().all(|face| face.side(point) <= 0)
}

/// Offers the points where the segment of two of the vertices crosses one of the faces, where they are in all the faces.
/// True: no face wants a point any more.
pub fn offer_crossings(slots: &mut [Slot], vertices: &[Vertex]) -> bool
    ensures value { slots.new ≡ after (crossings_in vertices.now) slots.old }
    ensures filled { IsTrue result → IsTrue (are_filled slots.new) }
{
    let mut rest = vertices;
    'vertices: while let Some((first, others)) = rest.split_first() {
        if offer_with(slots, first, others) {
            return true;
        }
        rest = others;
    }
    false
}

// The same for the first vertex and each of the others.
fn offer_with(slots: &mut [Slot], first: &Vertex, others: &[Vertex]) -> bool
    ensures value { slots.new ≡ after (crossings_with first.now others.now) slots.old }
    ensures filled { IsTrue result → IsTrue (are_filled slots.new) }
{
    for second in others {
        if offer_of_two(slots, first, second) {
            return true;
        }
    }
    false
}

// The same for two vertices.
fn offer_of_two(slots: &mut [Slot], first: &Vertex, second: &Vertex) -> bool
    ensures value { slots.new ≡ after (crossings_of_two first.now second.now) slots.old }
    ensures filled { IsTrue result → IsTrue (are_filled slots.new) }
{
    if first.is_beyond_with(second) {
        return false;
    }
    offer_each(slots, first, second)
}

// The same, for each face.
fn offer_each(slots: &mut [Slot], first: &Vertex, second: &Vertex) -> bool
    ensures value { slots.new ≡ after (crossings_of_two first.now second.now) slots.old }
    ensures filled { IsTrue result → IsTrue (are_filled slots.new) }
{
    for (&side, &other_side) in first.sides().iter().zip(second.sides()) {
        if offer_crossing(slots, first, second, side, other_side) {
            return true;
        }
    }
    false
}

// The same for the face against which these are the sides.
fn offer_crossing(
    slots: &mut [Slot],
    first: &Vertex,
    second: &Vertex,
    side: i128,
    other_side: i128,
) -> bool
    requires side { unsigned_abs side ≤ 2 * offset_reach }
    requires other_side { unsigned_abs other_side ≤ 2 * offset_reach }
    ensures value { slots.new ≡ after (cons_option (crossing_in first.now second.now (side, other_side)) []) slots.old }
    ensures filled { IsTrue result → IsTrue (are_filled slots.new) }
{
    if are_opposite(side, other_side) {
        if first.is_mixed_in(other_side.unsigned_abs(), second, side.unsigned_abs()) {
            let crossing = Candidate::crossing(first.point(), second.point(), side, other_side);
            return offer(slots, &crossing);
        }
    }
    false
}

fn are_opposite(a: i128, b: i128) -> bool
    ensures { result ≡ int_lt (a *ℤ b) (pos 0) }
{
    if a < 0 {
        return b > 0;
    }
    if a > 0 {
        return b < 0;
    }
    false
}
