ghost use Rattle.std.specs.Prelude.{◌≡◌, pos};

use crate::{is_convex, is_straight};
use gx_num::V3;

fn at(x: i64, y: i64) -> V3
    ensures x { result.x ≡ x }
    ensures y { result.y ≡ y }
    ensures z { result.z ≡ pos 0 }
{
    V3 { x, y, z: 0 }
}

// By hand.
#[test]
fn a_polygon_is_straight_or_convex_or_neither(rt: HostRuntime) {
    let square = [at(0, 0), at(2, 0), at(2, 2), at(0, 2)];
    let clockwise = [at(0, 0), at(0, 2), at(2, 2), at(2, 0)];
    let on_sides = [at(2, 0), at(4, 0), at(6, 0), at(3, 3), at(0, 6), at(0, 0)];
    let pentagram = [at(0, 10), at(-6, -8), at(10, 3), at(-10, 3), at(6, -8)];
    let repeated = [at(0, 0), at(6, 0), at(6, 0), at(0, 6)];
    let turning_back = [at(0, 0), at(4, 0), at(2, 0), at(6, 0), at(0, 6)];
    let dented = [at(0, 0), at(4, 0), at(1, 1), at(0, 4)];
    let line = [at(0, 0), at(4, 2), at(2, 1)];
    let off_line = [at(0, 0), at(2, 0), at(4, 0), at(4, 1)];
    let cases: [(&[V3], bool, bool); 9] = [
        (&square, false, true),
        (&clockwise, false, true),
        (&on_sides, false, true),
        (&off_line, false, true),
        (&pentagram, false, false),
        (&repeated, false, false),
        (&turning_back, false, false),
        (&dented, false, false),
        (&line, true, true),
    ];
    for (corners, straight, convex) in cases {
        assert_eq!(rt; is_straight(corners), straight);
        assert_eq!(rt; is_convex(corners), convex);
    }
}
