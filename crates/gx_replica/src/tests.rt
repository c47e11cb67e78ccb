use crate::{replica_at, replica_fits};
use gx_num::V3;

fn point(x: i64, y: i64, z: i64) -> V3 {
    V3 { x, y, z }
}

// By hand: five cells of width 4 have their centres at -8, -4, 0, 4 and 8.
#[test]
fn cells_stand_side_by_side(rt: HostRuntime) {
    let cases = [
        (replica_at(0, 5, 4, 0), point(-8, 0, 0)),
        (replica_at(0, 5, 4, 4), point(8, 0, 0)),
        (replica_at(1, 5, 4, 3), point(0, 4, 0)),
        (replica_at(2, 2, 6, 0), point(0, 0, -3)),
    ];
    for (centre, expected) in cases {
        assert_eq!(rt; centre, expected);
    }
}

// By hand, in a mother from -10 to 10 on each axis.
#[test]
fn cells_fill_a_mother_or_do_not(rt: HostRuntime) {
    let mother = V3 {
        x: 10,
        y: 10,
        z: 10,
    };
    let cell = V3 { x: 2, y: 10, z: 10 };
    let narrow = V3 { x: 2, y: 9, z: 10 };
    let cases = [
        (replica_fits(mother, cell, 0, 5, 4), true),
        (replica_fits(mother, cell, 0, 4, 4), false),
        (replica_fits(mother, cell, 0, 5, 6), false),
        (replica_fits(mother, cell, 0, 5, 5), false),
        (replica_fits(mother, cell, 0, 5, -4), false),
        (replica_fits(mother, cell, 1, 5, 4), false),
        (replica_fits(mother, narrow, 0, 5, 4), false),
        (
            replica_fits(mother, V3 { x: 10, y: 10, z: 1 }, 2, 10, 2),
            true,
        ),
    ];
    for (fits, expected) in cases {
        assert_eq!(rt; fits, expected);
    }
}
