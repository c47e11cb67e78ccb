ghost use Rattle.std.specs.Prelude.{◌≡◌, IfOk};
ghost use Rattle.gx_convex.specs.Points.{distinct};
ghost use Rattle.gx_shapes.specs.Solid.{kind_of, vertices_of};
ghost use Rattle.gx_shapes.specs.Accepted.{IsSolid};

use crate::Hull;
use gx_num::NoMemory;
use gx_shapes::{Figure, SolidKind};
use std::alloc::Global;
use std::marker::Model;

/// A solid: the figure of some values that make one, and the hull of its vertices. Contracts see the figure.
#[derive(Drop)]
pub struct Solid {
    figure: Figure,
    hull: Hull,
}

impl Model for Solid {
    ghost use Rattle.std.specs.Prelude.{◌≡◌};
    ghost use Rattle.gx_convex.specs.Points.{distinct};
    ghost use Rattle.gx_shapes.specs.declared.figure.Figure.{Figure};
    ghost use Rattle.gx_shapes.specs.Solid.{vertices_of};
    ghost use Rattle.gx_shapes.specs.Accepted.{IsSolid};

    ghost Value = { Figure };

    ghost view = { λ s. s.figure };

    ghost invariant = { λ s. IsSolid s.figure × (s.hull ≡ distinct (vertices_of s.figure)) };
}

impl Solid {
    /// The solid of this figure, whose hull is handed in.
    pub fn seal(figure: Figure, hull: Hull) -> Solid
        requires solid { IsSolid figure }
        requires hull { hull ≡ distinct (vertices_of figure) }
        ensures { result ≡ figure }
    {
        Solid { figure, hull }
    }

    pub fn kind(&self) -> SolidKind
        ensures { result ≡ kind_of self.now }
    {
        self.figure.kind()
    }

    pub fn figure(&self) -> &Figure
        ensures value { result.now ≡ self.now }
        ensures solid { IsSolid self.now }
    {
        &self.figure
    }

    /// The hull of the vertices.
    pub fn hull(&self) -> &Hull
        ensures value { result.now ≡ distinct (vertices_of self.now) }
        ensures solid { IsSolid self.now }
    {
        &self.hull
    }

    /// An equal solid.
    pub fn copy(&self, alloc: Global) -> Result<Solid, NoMemory>
        ensures { IfOk result (λ solid. solid ≡ self.now) }
    {
        Ok(Solid {
            figure: self.figure.copy(alloc)?,
            hull: self.hull.copy(alloc)?,
        })
    }
}
