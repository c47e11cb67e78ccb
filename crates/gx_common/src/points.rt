ghost use Rattle.std.specs.Prelude.{◌≡◌, ◌<◌, ◌≤◌, ◌^◌, length, slice_get, Some};

use gx_num::Hp;
use std::marker::Model;

/// Points that two solids have in common, in lowest terms, each once: for each face of the one and then of the other, the first
/// that was found strictly inside it. Contracts see the list of their four numbers.
#[derive(Drop)]
pub struct Points {
    points: Vec<Hp>,
}

impl Model for Points {
    ghost use Rattle.std.specs.Prelude.{◌≤◌, ◌^◌, List, length};
    ghost use Rattle.gx_num.specs.Vector4.{Vec4};

    ghost Value = { List Vec4 };

    ghost view = { λ p. p.points.items };

    ghost invariant = { λ p. length p.points.items ≤ 2 ^ 17 };
}

impl Points {
    /// These points, at most 2^17.
    pub(crate) fn seal(points: Vec<Hp>) -> Points
        requires { length points.items ≤ 2 ^ 17 }
        ensures { result ≡ points.items }
    {
        Points { points }
    }

    pub fn count(&self) -> u32
        ensures { result ≡ length self.now }
    {
        self.points.len() as u32
    }

    /// The point at a place, of 0 to below `count`.
    pub fn at(&self, i: u32) -> Hp
        requires { i < length self.now }
        ensures { slice_get self.now i ≡ Some result }
    {
        self.points[i as usize]
    }
}
