use crate::{linear_at, reaches, square_at};
use gx_num::{M, V3};

fn point(x: i64, y: i64, z: i64) -> V3 {
    V3 { x, y, z }
}

// By hand: copy 3 of rows of two is the second of the second row.
#[test]
fn copies_are_at_their_steps(rt: HostRuntime) {
    let cases = [
        (linear_at(0, 20, -40, 4), point(40, 0, 0)),
        (linear_at(1, -20, 5, 0), point(0, 5, 0)),
        (linear_at(2, 20, -10, 3), point(0, 0, 50)),
        (square_at(0, 2, 20, 20, -10, -10, 3), point(10, 10, 0)),
        (square_at(1, 2, 20, 30, -10, -10, 3), point(10, 0, 20)),
        (square_at(2, 2, 20, 30, -10, -10, 2), point(0, -10, 20)),
    ];
    for (place, expected) in cases {
        assert_eq!(rt; place, expected);
    }
}

// By hand.
#[test]
fn a_row_is_within_reach_or_is_not(rt: HostRuntime) {
    let cases = [
        (reaches(2, M, 0), true),
        (reaches(2, M, 1), false),
        (reaches(3, -M, M), true),
        (reaches(3, 1 - M, M), true),
        (reaches(3, -M, M - 1), false),
        (reaches(4096, 0, -M), true),
    ];
    for (reached, expected) in cases {
        assert_eq!(rt; reached, expected);
    }
}
