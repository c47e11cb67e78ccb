ghost use Rattle.std.specs.Prelude.{◌≡◌, ◌≤◌, unsigned_abs};
ghost use Rattle.gx_num.specs.Vector.{IsWithin};

use crate::misses;
use gx_num::{Extent, Ray, V3};

fn vector(v: [i8; 3]) -> V3
    ensures { IsWithin 128 result }
{
    let [x, y, z] = v;
    V3 {
        x: i64::from(x),
        y: i64::from(y),
        z: i64::from(z),
    }
}

// By hand: boxes ahead and behind, and rays that touch a side and an edge.
#[test]
fn a_box_beside_or_behind_is_missed(rt: HostRuntime) {
    let rows = [
        ([0, -1, -1], [1, 1, 1], [-5, 0, 0], [1, 0, 0], false),
        ([0, -1, -1], [1, 1, 1], [-5, 0, 0], [-1, 0, 0], true),
        ([0, -1, -1], [1, 1, 1], [1, 0, 0], [1, 0, 0], true),
        ([0, -1, -1], [1, 1, 1], [0, 0, 0], [1, 0, 0], false),
        ([0, -1, -1], [1, 1, 1], [-5, 1, 0], [1, 0, 0], true),
        ([0, 0, 0], [2, 2, 2], [-1, 1, 1], [1, 1, 0], true),
        ([0, 0, 0], [2, 2, 2], [-1, 0, 1], [1, 1, 0], false),
        ([0, 0, 0], [2, 2, 2], [3, 1, 2], [-1, 0, -1], false),
    ];
    for (low, high, o, d, missed) in rows {
        let extent = Extent {
            low: vector(low),
            high: vector(high),
        };
        let ray = Ray {
            o: vector(o),
            d: vector(d),
        };
        assert_eq!(rt; misses(&extent, &ray), missed);
    }
}
