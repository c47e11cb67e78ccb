ghost use Rattle.std.specs.Prelude.{◌≡◌, ◌≤◌, ◌<◌, ◌++◌, [], ◌∷◌, length};

use gx_num::V3;
use std::marker::Model;

/// Up to 16 corners of a polygon. Contracts see the list.
#[derive(Drop)]
pub struct Polygon {
    corners: [V3; 16],
    count: usize,
}

impl Model for Polygon {
    ghost use Rattle.std.specs.Prelude.{◌≤◌, List, take};
    ghost use Rattle.gx_num.specs.declared.vector.V3.{V3 as Point};

    ghost Value = { List Point };

    ghost view = { λ p. take p.count p.corners };

    ghost invariant = { λ p. p.count ≤ 16 };
}

impl Polygon {
    pub fn new() -> Polygon
        ensures { result ≡ [] }
    {
        Polygon {
            corners: [V3 { x: 0, y: 0, z: 0 }; 16],
            count: 0,
        }
    }

    pub fn push(&mut self, corner: V3)
        requires { length self.old < 16 }
        ensures { self.new ≡ self.old ++ corner ∷ [] }
    {
        self.corners[self.count] = corner;
        self.count += 1;
    }

    pub fn as_slice(&self) -> &[V3]
        ensures value { result.now ≡ self.now }
        ensures few { length result.now ≤ 16 }
    {
        &self.corners[..self.count]
    }

    /// An equal polygon.
    pub fn copy(&self) -> Polygon
        ensures { result ≡ self.now }
    {
        Polygon {
            corners: self.corners,
            count: self.count,
        }
    }
}
