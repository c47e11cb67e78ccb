use crate::Frac;
use std::cmp::Ordering::{Equal, Greater, Less};

// By hand.
#[test]
fn a_fraction_is_in_lowest_terms(rt: HostRuntime) {
    let cases = [
        (Frac::new(6, 4), 3, 2),
        (Frac::new(-3, 9), -1, 3),
        (Frac::new(8, 2), 4, 1),
        (Frac::new(0, 7), 0, 1),
        (Frac::new(6, 4).neg(), -3, 2),
    ];
    for (fraction, num, den) in cases {
        assert_eq!(rt; fraction.num(), num);
        assert_eq!(rt; fraction.den(), den);
    }
}

// By hand: with n = 2^75, the last pair is 32 + 1/n and 32 + 1/(n + 1), the other way round.
#[test]
fn fractions_are_in_order(rt: HostRuntime) {
    let pairs = [
        (Frac::new(-1, 3), Frac::new(-1, 4)),
        (Frac::new(-1, 4), Frac::new(0, 5)),
        (Frac::new(-2, 1), Frac::new(1, 9)),
        (Frac::new(0, 1), Frac::new(1, 3)),
        (Frac::new(4, 3), Frac::new(6, 4)),
        (
            Frac::new((1 << 80) + 33, (1 << 75) + 1),
            Frac::new((1 << 80) + 1, 1 << 75),
        ),
    ];
    for (less, more) in pairs {
        assert_eq!(rt; less.cmp(&more), Less);
        assert_eq!(rt; more.cmp(&less), Greater);
        assert_eq!(rt; more.cmp(&more), Equal);
        assert_eq!(rt; less.max(more), more);
        assert_eq!(rt; more.max(less), more);
        assert_eq!(rt; less.min(more), less);
        assert_eq!(rt; more.min(less), less);
    }
}
