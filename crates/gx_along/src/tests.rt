ghost use Rattle.std.specs.Prelude.{◌<◌};

use crate::{Bounds, Line, Stretch, Time, is_entered, is_left, part};

fn time(num: u128) -> Time
    ensures { 0 < result.den }
{
    Time { num, den: 1 }
}

#[test]
fn a_run_is_entered_at_its_near_side_and_left_at_its_far_side(rt: HostRuntime) {
    let run = Bounds { low: 5, high: 6 };
    let up = Line { o: 1, d: 2 };
    let down = Line { o: 10, d: -1 };
    let rest = Line { o: 5, d: 0 };
    assert!(rt; !is_entered(up, run, time(2)) && is_entered(up, run, time(3)));
    assert!(rt; !is_left(up, run, time(2)) && is_left(up, run, time(3)));
    assert!(rt; !is_entered(down, run, time(4)) && is_entered(down, run, time(5)));
    assert!(rt; !is_left(down, run, time(4)) && is_left(down, run, time(5)));
    assert!(rt; is_entered(rest, run, time(0)) && !is_left(rest, run, time(9)));
    let whole = Stretch {
        from: time(0),
        to: time(9),
    };
    let inside = part(up, run, whole);
    assert_eq!(rt; (inside.from.num, inside.from.den), (4, 2));
    assert_eq!(rt; (inside.to.num, inside.to.den), (5, 2));
}
