ghost use Rattle.std.specs.Prelude.{◌≡◌, ◌≤◌, ◌<◌, length, map, unsigned_abs, All, false, IfOk, IfErr};
ghost use Rattle.gx_num.specs.declared.vector.TheConstants.{M};
ghost use Rattle.gx_num.specs.Vector.{IsWithin};
ghost use Rattle.gx_plane.specs.Plane.{reach};
ghost use Rattle.gx_convex.specs.Faces.{faces_of};
ghost use Rattle.gx_convex.specs.Extent.{extent_of};
ghost use Rattle.gx_rotation.specs.Place.{placed_point};
ghost use Rattle.gx_hull.specs.Hull.{hull_of, IsVertices, IsHullCause};

use crate::HullFault;
use crate::flat::are_coplanar;
use crate::placed::{placed_faces, placed_points};
use crate::points::{distinct, extent};
use gx_faces::faces;
use gx_num::{Extent, NoMemory, V3};
use gx_plane::Plane;
use gx_rotation::Rotation;
use std::alloc::Global;
use std::marker::Model;

/// The convex hull of 4 to 32 distinct points that aren't coplanar, with coordinates at most 2 M in magnitude.
/// Contracts see its vertices.
#[derive(Drop)]
pub struct Hull {
    vertices: Vec<V3>,
    faces: Vec<Plane>,
    extent: Extent,
}

impl Model for Hull {
    ghost use Rattle.std.specs.Prelude.{◌≡◌, List};
    ghost use Rattle.gx_num.specs.declared.vector.V3.{V3 as Point};
    ghost use Rattle.gx_hull.specs.Hull.{IsVertices};
    ghost use Rattle.gx_convex.specs.Faces.{faces_of};
    ghost use Rattle.gx_convex.specs.Extent.{extent_of};

    ghost Value = { List Point };

    ghost view = { λ h. h.vertices.items };

    ghost invariant = { λ h. IsVertices h.vertices.items × (h.faces.items ≡ faces_of h.vertices.items) × (h.extent ≡ extent_of h.vertices.items) };
}

impl Hull {
    /// The hull of these points; a repeated point is dropped after its first place. `Vertices` where there are more
    /// than 32 distinct ones, else `Flat` where they are coplanar.
    pub fn new(alloc: Global, points: Vec<V3>) -> Result<Hull, HullFault>
        requires { All (IsWithin (unsigned_abs M)) points.items }
        ensures ok { IfOk result (λ hull. hull_of points.items ≡ Ok hull) }
        ensures err { IfErr result (IsHullCause (hull_of points.items)) }
    {
        let vertices = distinct(alloc, &points)?;
        if are_coplanar(&vertices) {
            return Err(HullFault::Flat);
        }
        let faces = faces(alloc, &vertices)?;
        let extent = extent(&vertices);
        Ok(Hull {
            vertices,
            faces,
            extent,
        })
    }

    /// An equal hull.
    pub fn copy(&self, alloc: Global) -> Result<Hull, NoMemory>
        ensures { IfOk result (λ hull. hull ≡ self.now) }
    {
        Ok(Hull {
            vertices: Vec::from_slice(alloc, &self.vertices)?,
            faces: Vec::from_slice(alloc, &self.faces)?,
            extent: self.extent,
        })
    }

    /// The hull in a mother's frame, where it has this rotation and offset: the vertices are placed, in their order.
    pub fn placed(&self, alloc: Global, rotation: Rotation, offset: V3) -> Result<Hull, NoMemory>
        requires vertices { All (IsWithin (unsigned_abs M)) self.now }
        requires offset { IsWithin (unsigned_abs M) offset }
        ensures { IfOk result (λ hull. hull ≡ map (placed_point rotation offset) self.now) }
    {
        // What each rotation keeps is known from here on.
        let _ = rotation.index();
        let vertices = placed_points(alloc, rotation, offset, &self.vertices)?;
        let faces = placed_faces(alloc, rotation, offset, &self.faces)?;
        let extent = extent(&vertices);
        Ok(Hull {
            vertices,
            faces,
            extent,
        })
    }

    /// The vertices, in the order of the points.
    pub fn vertices(&self) -> &[V3]
        ensures value { result.now ≡ self.now }
        ensures kept { IsVertices result.now }
    {
        &self.vertices
    }

    /// The faces, in the order of the triples of vertices, with their normals outward.
    pub fn faces(&self) -> &[Plane]
        ensures { result.now ≡ faces_of self.now }
    {
        &self.faces
    }

    /// The least and the greatest coordinates of the vertices.
    pub fn extent(&self) -> Extent
        ensures { result ≡ extent_of self.now }
    {
        self.extent
    }
}
