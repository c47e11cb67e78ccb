ghost use Rattle.std.specs.Prelude.{◌≡◌, ◌≤◌, ◌*◌, ◌*ℤ◌, ◌+ℤ◌, pos, int_le, unsigned_abs, map, All, IfOk};
ghost use Rattle.gx_num.specs.Vector.{IsWithin};
ghost use Rattle.gx_plane.specs.Plane.{reach, offset_reach, side_of};
ghost use Rattle.gx_common.specs.Sides.{sided, is_mixed_in as is_mixed_in_all, are_beyond};

use crate::sum::cmp_sum;
use gx_num::{NoMemory, V3};
use gx_plane::Plane;
use std::alloc::Global;
use std::marker::Model;

/// A vertex of one solid, with its sides against the faces of another.
#[derive(Drop)]
pub struct Vertex {
    point: V3,
    sides: Vec<i128>,
}

impl Model for Vertex {
    ghost use Rattle.std.specs.Prelude.{All, ◌≤◌, ◌*◌, unsigned_abs};
    ghost use Rattle.gx_num.specs.Vector.{IsWithin};
    ghost use Rattle.gx_plane.specs.Plane.{reach, offset_reach};
    ghost use Rattle.gx_common.specs.Sides.{Sided};

    ghost Value = { Sided };

    ghost view = { λ v. record { point = v.point; sides = v.sides.items } };

    ghost invariant = { λ v. IsWithin reach v.point × All (λ z. unsigned_abs z ≤ 2 * offset_reach) v.sides.items };
}

impl Vertex {
    pub fn new(alloc: Global, point: V3, faces: &[Plane]) -> Result<Vertex, NoMemory>
        requires { IsWithin reach point }
        ensures { IfOk result (λ vertex. vertex ≡ sided faces.now point) }
    {
        let sides = sides(alloc, point, faces)?;
        Ok(Vertex { point, sides })
    }

    pub fn point(&self) -> V3
        ensures value { result ≡ self.now.point }
        ensures within { IsWithin reach result }
    {
        self.point
    }

    /// The sides against the faces, in their order.
    pub fn sides(&self) -> &[i128]
        ensures value { result.now ≡ self.now.sides }
        ensures within { All (λ z. unsigned_abs z ≤ 2 * offset_reach) result.now }
    {
        &self.sides
    }

    /// The point (k p + l q) / (k + l) of the two is in all the faces.
    pub fn is_mixed_in(&self, k: u128, other: &Vertex, l: u128) -> bool
        ensures { result ≡ is_mixed_in_all k self.now.sides l other.now.sides }
    {
        self.sides
            .iter()
            .zip(&other.sides)
            .all(|(&side, &other_side)| is_mixed_at(k, side, l, other_side))
    }

    /// Both are beyond one of the faces.
    pub fn is_beyond_with(&self, other: &Vertex) -> bool
        ensures { result ≡ are_beyond self.now.sides other.now.sides }
    {
        self.sides
            .iter()
            .zip(&other.sides)
            .any(|(&side, &other_side)| side > 0 && other_side > 0)
    }
}

fn sides(alloc: Global, point: V3, faces: &[Plane]) -> Result<Vec<i128>, NoMemory>
    requires { IsWithin reach point }
    ensures value { IfOk result (λ sides. sides.items ≡ map (λ h. side_of h point) faces.now) }
    ensures within { IfOk result (λ sides. All (λ z. unsigned_abs z ≤ 2 * offset_reach) sides.items) }
{
    let mut sides = Vec::with_capacity(alloc, faces.len())?;
    for face in faces {
        sides.push(face.side(point))?;
    }
    Ok(sides)
}

fn is_mixed_at(k: u128, side: i128, l: u128, other_side: i128) -> bool
    ensures { result ≡ int_le (pos k *ℤ side +ℤ pos l *ℤ other_side) (pos 0) }
{
    cmp_sum(k, side, l, other_side).is_le()
}

/// The vertices of one solid with their sides against the faces of another.
pub fn vertices(alloc: Global, points: &[V3], faces: &[Plane]) -> Result<Vec<Vertex>, NoMemory>
    requires { All (IsWithin reach) points.now }
    ensures { IfOk result (λ vertices. vertices.items ≡ map (sided faces.now) points.now) }
{
    let mut vertices = Vec::with_capacity(alloc, points.len())?;
    for &point in points {
        vertices.push(Vertex::new(alloc, point, faces)?)?;
    }
    Ok(vertices)
}
