ghost use Rattle.std.specs.Prelude.{◌≡◌, ◌≢◌, ◌⊎◌, ◌≤◌, ◌^◌, ◌≤ℤ◌, ◌-ℤ◌, ◌*ℤ◌, pos, unsigned_abs, IsTrue};
ghost use Rattle.gx_num.specs.Vector.{IsWithin};
ghost use Rattle.gx_num.specs.Ray.{RayParameter, IsPositive};
ghost use Rattle.gx_boxes.specs.Boxes.{reach, IsNear, IsMet};
ghost use Rattle.gx_boxes.specs.Slabs.{IsCrossed, IsReached};

use crate::slab::{Reached, Slab};
use gx_num::{Extent, Ray};
use std::cmp::Ordering::{Equal, Greater, Less};

/// The ray misses the box, or only touches it: by products of 64 bits alone.
pub fn misses(extent: &Extent, ray: &Ray) -> bool
    requires low { IsWithin reach extent.now.low }
    requires high { IsWithin reach extent.now.high }
    requires ray { IsNear ray.now }
    ensures { IsTrue result → IsMet extent.now ray.now → ⊥ }
{
    let Extent { low, high } = *extent;
    let x = Slab::new(low.x, high.x, ray.o.x, ray.d.x);
    let y = Slab::new(low.y, high.y, ray.o.y, ray.d.y);
    let z = Slab::new(low.z, high.z, ray.o.z, ray.d.z);
    x.is_missed(y) || y.is_missed(z) || z.is_missed(x)
}

impl Slab {
    fn new(low: i64, high: i64, origin: i64, speed: i64) -> Slab
        requires low { unsigned_abs low ≤ reach }
        requires high { unsigned_abs high ≤ reach }
        requires origin { unsigned_abs origin ≤ 2 ^ 31 }
        requires speed { unsigned_abs speed ≤ 2 ^ 31 }
        ensures low { result.low ≡ low -ℤ origin }
        ensures high { result.high ≡ high -ℤ origin }
        ensures speed { result.speed ≡ speed }
    {
        Slab {
            low: low - origin,
            high: high - origin,
            speed,
        }
    }

    // The ray is nowhere between the sides of both.
    fn is_missed(self, o: Slab) -> bool
        ensures { IsTrue result → (t : RayParameter) → IsPositive t → IsCrossed self t → IsCrossed o t → ⊥ }
    {
        self.is_behind() || self.is_beside(o)
    }

    // It comes to the far side at 0 or before.
    fn is_behind(self) -> bool
        ensures { IsTrue result → (t : RayParameter) → IsPositive t → IsCrossed self t → ⊥ }
    {
        match self.speed.cmp(&0) {
            Greater => self.high <= 0,
            Less => self.low >= 0,
            Equal => false,
        }
    }

    // Its line is nowhere between the sides of both.
    fn is_beside(self, o: Slab) -> bool
        ensures { IsTrue result → (t : RayParameter) → IsPositive t → IsCrossed self t → IsCrossed o t → ⊥ }
    {
        self.moves(o) && self.reached(o).is_apart(o.reached(self))
    }

    fn moves(self, o: Slab) -> bool
        ensures { IsTrue result → (self.speed ≢ pos 0) ⊎ (o.speed ≢ pos 0) }
    {
        self.speed != 0 || o.speed != 0
    }

    // Where the way along this axis comes between the sides, times the other's speed.
    fn reached(self, o: Slab) -> Reached
        ensures { IsReached self.low self.high o.speed result }
    {
        let first = self.low_times(o);
        let last = self.high_times(o);
        if o.speed < 0 {
            Reached {
                least: last,
                greatest: first,
            }
        } else {
            Reached {
                least: first,
                greatest: last,
            }
        }
    }

    fn low_times(self, o: Slab) -> i64
        ensures { result ≡ self.low *ℤ o.speed }
    {
        self.low * o.speed
    }

    fn high_times(self, o: Slab) -> i64
        ensures { result ≡ self.high *ℤ o.speed }
    {
        self.high * o.speed
    }
}

impl Reached {
    // The one ends where the other begins, or before.
    fn is_apart(self, o: Reached) -> bool
        ensures { IsTrue result → (self.greatest ≤ℤ o.least) ⊎ (o.greatest ≤ℤ self.least) }
    {
        self.greatest <= o.least || o.greatest <= self.least
    }
}
