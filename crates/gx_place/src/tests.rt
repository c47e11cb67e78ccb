use crate::place_point;
use gx_num::V3;
use gx_rotation::Rotation;

// By hand: rotation 10 takes (x, y, z) to (-y, x, z), so a daughter's point (x, y, z) is at (y, -x, z) before the offset.
#[test]
fn points_are_placed(rt: HostRuntime) {
    let turned = Rotation::new(10);
    let offset = V3 {
        x: 100,
        y: 20,
        z: -3,
    };
    let cases = [
        (
            V3 { x: 1, y: 2, z: 3 },
            V3 {
                x: 102,
                y: 19,
                z: 0,
            },
        ),
        (V3 { x: 0, y: 0, z: 0 }, offset),
    ];
    for (point, placed) in cases {
        assert_eq!(rt; place_point(turned, offset, point), placed);
    }
}
