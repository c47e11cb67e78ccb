ghost use Rattle.std.specs.Prelude.{◌≡◌, true, filter, All, Contains, IfOk, IfSome, OnOk};
ghost use Rattle.gx_num.specs.Vector.{IsWithin};
ghost use Rattle.gx_plane.specs.Plane.{reach};
ghost use Rattle.gx_faces.specs.Closed.{IsEdge, IsJoined, IsClosedAt, AreClosed};
ghost use Rattle.gx_faces.specs.Steps.{is_on as is_on_plane, AreMore};

use crate::edge::{is_edge, is_joined, is_on, is_same};
use crate::search::{first_face, neighbour};
use gx_num::{NoMemory, V3};
use gx_plane::Plane;
use std::alloc::Global;

// 32 points have at most 60 faces.
const MOST: usize = 64;

/// Faces of the points of which each edge is joined, found from one on by going over edges; None where the way is lost, as
/// it may be where three points are on one line.
pub fn closed_faces(alloc: Global, points: &[V3]) -> Result<Option<Vec<Plane>>, NoMemory>
    requires within { All (IsWithin reach) points.now }
    ensures { IfOk result (λ found. IfSome found (λ faces. AreClosed points.now faces.items)) }
{
    let Some(first) = first_face(points) else {
        return Ok(None);
    };
    let mut faces = Vec::new(alloc);
    faces.push(first)?;
    for i in 0..MOST {
        if i == faces.len() {
            return Ok(Some(faces));
        }
        if !close_face(alloc, faces[i], points, &mut faces)? {
            return Ok(None);
        }
    }
    Ok(None)
}

// Each edge of the face is joined, by faces that come.
fn close_face(
    alloc: Global,
    face: Plane,
    points: &[V3],
    faces: &mut Vec<Plane>,
) -> Result<bool, NoMemory>
    requires within { All (IsWithin reach) points.now }
    ensures more { OnOk result (AreMore points.now faces.old.items faces.new.items) }
    ensures closed { IfOk result (λ done. done ≡ true → IsClosedAt points.now faces.new.items face) }
{
    let on = points_on(alloc, &face, points)?;
    close_all(&face, &on, points, faces)
}

// Each edge between the points on the face.
fn close_all(
    face: &Plane,
    on: &[V3],
    points: &[V3],
    faces: &mut Vec<Plane>,
) -> Result<bool, NoMemory>
    requires within { All (IsWithin reach) points.now }
    requires on { on.now ≡ filter (is_on_plane face.now) points.now }
    ensures more { OnOk result (AreMore points.now faces.old.items faces.new.items) }
    ensures closed { IfOk result (λ done. done ≡ true → All (λ p. All (λ q. IsEdge points.now face.now p q → IsJoined faces.new.items face.now p q) on.now) on.now) }
{
    for &p in on {
        if !close_from(face, p, on, points, faces)? {
            return Ok(false);
        }
    }
    Ok(true)
}

fn points_on(alloc: Global, plane: &Plane, points: &[V3]) -> Result<Vec<V3>, NoMemory>
    requires within { All (IsWithin reach) points.now }
    ensures { IfOk result (λ on. on.items ≡ filter (is_on_plane plane.now) points.now) }
{
    let mut on = Vec::new(alloc);
    for &p in points {
        if is_on(plane, p) {
            on.push(p)?;
        }
    }
    Ok(on)
}

// Each edge from p.
fn close_from(
    face: &Plane,
    p: V3,
    on: &[V3],
    points: &[V3],
    faces: &mut Vec<Plane>,
) -> Result<bool, NoMemory>
    requires within { All (IsWithin reach) points.now }
    requires on { on.now ≡ filter (is_on_plane face.now) points.now }
    requires p { Contains on.now p }
    ensures more { OnOk result (AreMore points.now faces.old.items faces.new.items) }
    ensures closed { IfOk result (λ done. done ≡ true → All (λ q. IsEdge points.now face.now p q → IsJoined faces.new.items face.now p q) on.now) }
{
    for &q in on {
        if !close_edge(face, p, q, on, points, faces)? {
            return Ok(false);
        }
    }
    Ok(true)
}

fn close_edge(
    face: &Plane,
    p: V3,
    q: V3,
    on: &[V3],
    points: &[V3],
    faces: &mut Vec<Plane>,
) -> Result<bool, NoMemory>
    requires within { All (IsWithin reach) points.now }
    requires on { on.now ≡ filter (is_on_plane face.now) points.now }
    requires first { Contains on.now p }
    requires second { Contains on.now q }
    ensures more { OnOk result (AreMore points.now faces.old.items faces.new.items) }
    ensures closed { IfOk result (λ done. done ≡ true → IsEdge points.now face.now p q → IsJoined faces.new.items face.now p q) }
{
    if is_same(p, q) || !is_edge(face, p, q, on) || is_joined(face, p, q, faces) {
        return Ok(true);
    }
    let Some(other) = neighbour(face, p, q, points) else {
        return Ok(false);
    };
    faces.push(other)?;
    Ok(true)
}
