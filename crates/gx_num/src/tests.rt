use crate::{Hp, cmp_products, gcd, sign};
use std::cmp::Ordering::{Equal, Greater, Less};

// By hand; the last rows are beyond 64 bits, and their products beyond 128.
#[test]
fn products_compare_in_short_and_in_long(rt: HostRuntime) {
    let cases = [
        (0, 5, 3, 0, Equal),
        (2, 3, 7, 1, Less),
        (
            u128::from(u64::MAX),
            2,
            2,
            u128::from(u64::MAX) - 1,
            Greater,
        ),
        (1 << 64, 3, 3, 1 << 64, Equal),
        (
            (1 << 80) + 1,
            (1 << 75) + 1,
            (1 << 80) + 33,
            1 << 75,
            Greater,
        ),
        ((1 << 80) + 33, 1 << 75, (1 << 80) + 1, (1 << 75) + 1, Less),
        (1 << 125, 1 << 125, 1 << 124, (1 << 126) - 1, Greater),
    ];
    for (a, b, c, d, order) in cases {
        assert_eq!(rt; cmp_products(a, b, c, d), order, "{a} {b} {c} {d}");
    }
}

#[test]
fn divisors_are_found_in_short_and_in_long(rt: HostRuntime) {
    let cases = [
        (0, 0, 0),
        (12, 18, 6),
        (7, 0, 7),
        (0, 1 << 100, 1 << 100),
        (1 << 100, 3 << 70, 1 << 70),
        ((1 << 89) - 1, 1 << 90, 1),
        (5 * ((1 << 89) - 1), 15, 5),
    ];
    for (a, b, divisor) in cases {
        assert_eq!(rt; gcd(a, b), divisor, "{a} {b}");
    }
    for (a, s) in [(-5, -1), (0, 0), (i128::MAX, 1)] {
        assert_eq!(rt; sign(a), s);
    }
}

// By hand.
#[test]
fn a_point_is_in_lowest_terms(rt: HostRuntime) {
    let cases = [
        (Hp::new(6, -9, 0, 3), (2, -3, 0, 1)),
        (Hp::new(10, -10, 14, 4), (5, -5, 7, 2)),
        (Hp::new(0, 0, 0, 5), (0, 0, 0, 1)),
        (
            Hp::new(1 << 100, 3, -4, 1 << 90),
            (1 << 100, 3, -4, 1 << 90),
        ),
    ];
    for (point, numbers) in cases {
        assert_eq!(rt; (point.x(), point.y(), point.z(), point.w()), numbers);
    }
}
