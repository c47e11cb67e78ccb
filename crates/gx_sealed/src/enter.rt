ghost use Rattle.std.specs.Prelude.{◌≡◌, ℕ, ◌+◌, unsigned_abs};
ghost use Rattle.gx_num.specs.declared.vector.TheConstants.{M};
ghost use Rattle.gx_num.specs.Vector.{IsWithin};
ghost use Rattle.gx_num.specs.Ray.{HasDirection};
ghost use Rattle.gx_frame.specs.Frames.{local_ray as local_ray_of};
ghost use Rattle.gx_sealed.specs.Sealed.{IsTraceable};

use gx_num::Ray;
use gx_tree::Instance;

/// A ray of the mother's frame in the daughter's.
pub fn local_ray(instance: &Instance, ray: &Ray) -> Ray
    requires offset { IsWithin (unsigned_abs M) instance.now.offset }
    requires ray { IsTraceable ray.now }
    ensures value { result ≡ local_ray_of instance.now ray.now }
    ensures origin { (bound : ℕ) → IsWithin bound ray.now.o → IsWithin (bound + unsigned_abs M) result.o }
    ensures direction { (bound : ℕ) → IsWithin bound ray.now.d → IsWithin bound result.d }
    ensures moves { HasDirection result }
{
    // What each rotation keeps is known from here on.
    let _ = instance.rotation.index();
    Ray {
        o: instance.rotation.apply(ray.o.sub(instance.offset)),
        d: instance.rotation.apply(ray.d),
    }
}
