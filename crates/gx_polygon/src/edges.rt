ghost use Rattle.std.specs.Prelude.{◌≡◌};
ghost use Rattle.std.specs.Iterator.{YieldsFirst, item_count};
ghost use Rattle.gx_polygon.specs.Around.{around};

use gx_num::V3;
use std::marker::Model;

/// The edges of a polygon: each corner with the next, and the last with the first.
/// Contracts see the edges that are still to come.
#[derive(Drop)]
pub struct Edges<'a> {
    first: V3,
    rest: &'a [V3],
}

impl<'a> Model for Edges<'a> {
    ghost use Rattle.std.specs.Prelude.{List};
    ghost use Rattle.gx_num.specs.declared.vector.V3.{V3 as Point};
    ghost use Rattle.gx_polygon.specs.Around.{around_to};

    ghost Value = { List (Point × Point) };

    ghost view = { λ e. around_to e.first e.rest.now };
}

impl<'a> Edges<'a> {
    pub fn new(corners: &'a [V3]) -> Edges<'a>
        ensures { result ≡ around corners.now }
    {
        // Of no corners there is no first one, and no edge.
        let first = corners.first().copied().unwrap_or(V3 { x: 0, y: 0, z: 0 });
        Edges {
            first,
            rest: corners,
        }
    }
}

impl<'a> Iterator for Edges<'a> {
    type Item = (V3, V3);

    ghost next_gives = { YieldsFirst (λ edges. edges) };

    ghost remaining = { item_count (λ edges. edges) };

    fn next(&mut self) -> Option<(V3, V3)> {
        let (from, rest) = self.rest.split_first()?;
        self.rest = rest;
        let to = rest.first().copied().unwrap_or(self.first);
        Some((*from, to))
    }
}
