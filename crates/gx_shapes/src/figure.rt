ghost use Rattle.std.specs.Prelude.{◌≡◌, IfOk};
ghost use Rattle.gx_shapes.specs.Solid.{kind_of};

use crate::{Facets, Polygon, Section, SolidKind};
use gx_num::{NoMemory, V3};
use std::alloc::Global;

/// A kind with its values, by what they mean.
#[derive(Drop)]
pub enum Figure {
    /// hx hy hz.
    Cuboid(i64, i64, i64),
    /// dx1 dx2 dy1 dy2 dz.
    Trd(i64, i64, i64, i64, i64),
    Tet(V3, V3, V3, V3),
    /// The polygon, and its two ends.
    Extruded(Polygon, Section, Section),
    Tessellated(Facets),
}

impl Figure {
    pub fn kind(&self) -> SolidKind
        ensures { result ≡ kind_of self.now }
    {
        match self {
            Figure::Cuboid(..) => SolidKind::Cuboid,
            Figure::Trd(..) => SolidKind::Trd,
            Figure::Tet(..) => SolidKind::Tet,
            Figure::Extruded(..) => SolidKind::Extruded,
            Figure::Tessellated(_) => SolidKind::Tessellated,
        }
    }

    /// An equal figure.
    pub fn copy(&self, alloc: Global) -> Result<Figure, NoMemory>
        ensures { IfOk result (λ figure. figure ≡ self.now) }
    {
        match self {
            Figure::Cuboid(x, y, z) => Ok(Figure::Cuboid(*x, *y, *z)),
            Figure::Trd(x1, x2, y1, y2, z) => Ok(Figure::Trd(*x1, *x2, *y1, *y2, *z)),
            Figure::Tet(a, b, c, d) => Ok(Figure::Tet(*a, *b, *c, *d)),
            Figure::Extruded(corners, low, high) => {
                Ok(Figure::Extruded(corners.copy(), *low, *high))
            }
            Figure::Tessellated(facets) => Ok(Figure::Tessellated(facets.copy(alloc)?)),
        }
    }
}
