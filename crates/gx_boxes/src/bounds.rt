ghost use Rattle.std.specs.Prelude.{◌≡◌, ◌<◌, length};
ghost use Rattle.std.specs.Int.{int_min, int_max};
ghost use Rattle.std.specs.List.{All};
ghost use Rattle.gx_boxes.specs.Tree.{IsEnclosed, IsInReach, AreLeast, AreGreatest};

use crate::Boxed;
use gx_num::{Extent, V3};

/// Bounds of some boxes.
pub fn bounds_of(boxes: &[Boxed]) -> Extent
    requires some { 0 < length boxes.now }
    requires reach { All (λ b. IsInReach b.extent) boxes.now }
    ensures each { All (λ b. IsEnclosed result b.extent) boxes.now }
    ensures reach { IsInReach result }
{
    let mut bounds = boxes[0].extent;
    for boxed in boxes {
        bounds = joined(bounds, boxed.extent);
    }
    bounds
}

fn joined(a: Extent, b: Extent) -> Extent
    requires first { IsInReach a }
    requires second { IsInReach b }
    ensures first { IsEnclosed result a }
    ensures second { IsEnclosed result b }
    ensures reach { IsInReach result }
{
    Extent {
        low: least(a.low, b.low),
        high: greatest(a.high, b.high),
    }
}

fn least(a: V3, b: V3) -> V3
    ensures { AreLeast a b result }
{
    V3 {
        x: lesser(a.x, b.x),
        y: lesser(a.y, b.y),
        z: lesser(a.z, b.z),
    }
}

fn greatest(a: V3, b: V3) -> V3
    ensures { AreGreatest a b result }
{
    V3 {
        x: greater(a.x, b.x),
        y: greater(a.y, b.y),
        z: greater(a.z, b.z),
    }
}

fn lesser(a: i64, b: i64) -> i64
    ensures { result ≡ int_min a b }
{
    a.min(b)
}

fn greater(a: i64, b: i64) -> i64
    ensures { result ≡ int_max a b }
{
    a.max(b)
}
