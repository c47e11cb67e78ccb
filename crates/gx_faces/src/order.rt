ghost use Rattle.std.specs.Prelude.{◌≡◌, ◌∷◌, [], filter, not, ◌&&◌, false, All, Contains, IfOk, OnOk};
ghost use Rattle.std.specs.List.{list_any};
ghost use Rattle.gx_num.specs.Vector.{IsWithin};
ghost use Rattle.gx_plane.specs.Plane.{reach};
ghost use Rattle.gx_convex.specs.Points.{are_coplanar};
ghost use Rattle.gx_convex.specs.Faces.{is_same_plane, faces_of};
ghost use Rattle.gx_faces.specs.Steps.{is_on as is_on_plane};
ghost use Rattle.gx_faces.specs.Order.{triples_along, triples_from, faces_through, after, IsListed};

use crate::edge::is_on;
use gx_num::{NoMemory, V3};
use gx_plane::Plane;
use std::alloc::Global;

/// All faces of the points, in the order of the triples of points, where they all are among the planes.
pub fn in_order(alloc: Global, planes: Vec<Plane>, points: &[V3]) -> Result<Vec<Plane>, NoMemory>
    requires within { All (IsWithin reach) points.now }
    requires solid { are_coplanar points.now ≡ false }
    requires all { All (Contains planes.items) (faces_of points.now) }
    ensures { IfOk result (λ faces. faces.items ≡ faces_of points.now) }
{
    let mut faces = Vec::new(alloc);
    let mut missing = planes;
    let mut firsts = points;
    while let Some((&a, seconds)) = firsts.split_first() {
        add_of_first(alloc, &mut faces, &mut missing, a, seconds, points)?;
        firsts = seconds;
    }
    Ok(faces)
}

// Adds the faces of the triples that begin with a point; those that are new are among the missing.
fn add_of_first(
    alloc: Global,
    faces: &mut Vec<Plane>,
    missing: &mut Vec<Plane>,
    a: V3,
    seconds: &[V3],
    points: &[V3],
) -> Result<(), NoMemory>
    requires first { IsWithin reach a }
    requires seconds { All (IsWithin reach) seconds.now }
    requires within { All (IsWithin reach) points.now }
    requires solid { are_coplanar points.now ≡ false }
    requires all { All (IsListed missing.old.items faces.old.items) (faces_through points.now (triples_from a seconds.now)) }
    ensures added { OnOk result (faces.new.items ≡ after points.now (triples_from a seconds.now) faces.old.items) }
    ensures left { OnOk result (All (IsListed missing.new.items faces.new.items) missing.old.items) }
{
    let through = planes_through(alloc, missing, a)?;
    if through.is_empty() {
        return Ok(());
    }
    add_from(alloc, faces, through, a, seconds, points)?;
    drop_found(missing, a, faces);
    Ok(())
}

// The same, with those of the planes that are through the point.
fn add_from(
    alloc: Global,
    faces: &mut Vec<Plane>,
    planes: Vec<Plane>,
    a: V3,
    seconds: &[V3],
    points: &[V3],
) -> Result<(), NoMemory>
    requires first { IsWithin reach a }
    requires seconds { All (IsWithin reach) seconds.now }
    requires within { All (IsWithin reach) points.now }
    requires solid { are_coplanar points.now ≡ false }
    requires all { All (IsListed planes.items faces.old.items) (faces_through points.now (triples_from a seconds.now)) }
    ensures { OnOk result (faces.new.items ≡ after points.now (triples_from a seconds.now) faces.old.items) }
{
    let mut missing = planes;
    let mut rest = seconds;
    while let Some((&b, thirds)) = rest.split_first() {
        if missing.is_empty() {
            return Ok(());
        }
        add_of_two(alloc, faces, &mut missing, a, b, thirds, points)?;
        rest = thirds;
    }
    Ok(())
}

// Adds the faces of the triples that begin with two points; those that are new are among the missing.
fn add_of_two(
    alloc: Global,
    faces: &mut Vec<Plane>,
    missing: &mut Vec<Plane>,
    a: V3,
    b: V3,
    thirds: &[V3],
    points: &[V3],
) -> Result<(), NoMemory>
    requires first { IsWithin reach a }
    requires second { IsWithin reach b }
    requires thirds { All (IsWithin reach) thirds.now }
    requires within { All (IsWithin reach) points.now }
    requires solid { are_coplanar points.now ≡ false }
    requires all { All (IsListed missing.old.items faces.old.items) (faces_through points.now (triples_along a b thirds.now)) }
    ensures added { OnOk result (faces.new.items ≡ after points.now (triples_along a b thirds.now) faces.old.items) }
    ensures left { OnOk result (All (IsListed missing.new.items faces.new.items) missing.old.items) }
{
    let through = planes_through(alloc, missing, b)?;
    if through.is_empty() {
        return Ok(());
    }
    add_along(faces, through, a, b, thirds, points)?;
    drop_found(missing, b, faces);
    Ok(())
}

// The same, with those of the planes that are through both points.
fn add_along(
    faces: &mut Vec<Plane>,
    planes: Vec<Plane>,
    a: V3,
    b: V3,
    thirds: &[V3],
    points: &[V3],
) -> Result<(), NoMemory>
    requires first { IsWithin reach a }
    requires second { IsWithin reach b }
    requires thirds { All (IsWithin reach) thirds.now }
    requires within { All (IsWithin reach) points.now }
    requires solid { are_coplanar points.now ≡ false }
    requires all { All (IsListed planes.items faces.old.items) (faces_through points.now (triples_along a b thirds.now)) }
    ensures { OnOk result (faces.new.items ≡ after points.now (triples_along a b thirds.now) faces.old.items) }
{
    let mut missing = planes;
    for &c in thirds {
        if missing.is_empty() {
            return Ok(());
        }
        add_missing(faces, &mut missing, a, b, c, points)?;
    }
    Ok(())
}

// Adds the face of three points, which is among the missing if it is new.
fn add_missing(
    faces: &mut Vec<Plane>,
    missing: &mut Vec<Plane>,
    a: V3,
    b: V3,
    c: V3,
    points: &[V3],
) -> Result<(), NoMemory>
    requires first { IsWithin reach a }
    requires second { IsWithin reach b }
    requires third { IsWithin reach c }
    requires within { All (IsWithin reach) points.now }
    requires solid { are_coplanar points.now ≡ false }
    requires all { All (IsListed missing.old.items faces.old.items) (faces_through points.now ((a, b, c) ∷ [])) }
    ensures added { OnOk result (faces.new.items ≡ after points.now ((a, b, c) ∷ []) faces.old.items) }
    ensures left { OnOk result (All (IsListed missing.new.items faces.new.items) missing.old.items) }
{
    if !is_any_on(missing, c) {
        return Ok(());
    }
    add_of_three(faces, a, b, c, points)?;
    drop_found(missing, c, faces);
    Ok(())
}

/// Adds the face of three points, if they have one and it is new.
pub fn add_of_three(
    faces: &mut Vec<Plane>,
    a: V3,
    b: V3,
    c: V3,
    points: &[V3],
) -> Result<(), NoMemory>
    requires first { IsWithin reach a }
    requires second { IsWithin reach b }
    requires third { IsWithin reach c }
    requires within { All (IsWithin reach) points.now }
    requires solid { are_coplanar points.now ≡ false }
    ensures { OnOk result (faces.new.items ≡ after points.now ((a, b, c) ∷ []) faces.old.items) }
{
    if let Some(face) = Plane::supporting(a, b, c, points) {
        if !is_among(&face, faces) {
            faces.push(face)?;
        }
    }
    Ok(())
}

fn planes_through(alloc: Global, planes: &[Plane], p: V3) -> Result<Vec<Plane>, NoMemory>
    requires { IsWithin reach p }
    ensures { IfOk result (λ found. found.items ≡ filter (λ h. is_on_plane h p) planes.now) }
{
    let mut found = Vec::new(alloc);
    for plane in planes {
        if is_on(plane, p) {
            found.push(*plane)?;
        }
    }
    Ok(found)
}

// Drops the planes through a point that are among the faces.
fn drop_found(missing: &mut Vec<Plane>, p: V3, faces: &[Plane])
    requires { IsWithin reach p }
    ensures { missing.new.items ≡ filter (λ h. not (is_on_plane h p && list_any (is_same_plane h) faces.now)) missing.old.items }
{
    missing.retain(|plane| !(is_on(plane, p) && is_among(plane, faces)));
}

fn is_any_on(planes: &[Plane], p: V3) -> bool
    requires { IsWithin reach p }
    ensures { result ≡ list_any (λ h. is_on_plane h p) planes.now }
{
    planes.iter().any(|plane| is_on(plane, p))
}

fn is_among(plane: &Plane, planes: &[Plane]) -> bool
    ensures { result ≡ list_any (is_same_plane plane.now) planes.now }
{
    planes.iter().rev().any(|other| plane == other)
}
