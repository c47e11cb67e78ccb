ghost use Rattle.std.specs.Prelude.{◌^◌};
ghost use Rattle.gx_num.specs.Vector.{IsWithin};
ghost use Rattle.gx_num.specs.Ray.{HasDirection};
ghost use Rattle.gx_shapes.specs.Solid.{solid_of};
ghost use Rattle.gx_clip.specs.Clip.{IsClip};

use gx_clip::{Span, clip};
use gx_hull::Solid;
use gx_num::Ray;

/// The part of the ray above 0 that is inside the solid, in whose frame the ray is.
pub fn span_in(solid: &Solid, ray: &Ray) -> Option<Span>
    requires origin { IsWithin (2 ^ 61) ray.now.o }
    requires direction { IsWithin (2 ^ 61) ray.now.d }
    requires moves { HasDirection ray.now }
    ensures { IsClip (solid_of solid.now) ray.now result }
{
    clip(solid.hull().faces(), ray)
}
