ghost use Rattle.gx_num.specs.Vector.{IsWithin};

use crate::offer_copies;
use gx_along::{Stretch, Time};
use gx_num::{Ray, V3};
use gx_offers::Offers;
use std::test::Fail;

fn vector(v: [i8; 3]) -> V3
    ensures { IsWithin 128 result }
{
    let [x, y, z] = v;
    V3 {
        x: i64::from(x),
        y: i64::from(y),
        z: i64::from(z),
    }
}

// By hand: five copies of width 4 from -10 to 10. The second times are halves.
#[test]
fn copies_that_a_ray_meets_are_offered_along_it(rt: HostRuntime) -> Result<(), Fail> {
    let alloc = rt.alloc();
    let cases: [(u8, [i8; 3], [i8; 3], u8, u8, &[u32]); 8] = [
        // across all, back, and a part of it
        (0, [-20, 0, 0], [1, 0, 0], 0, 100, &[0, 1, 2, 3, 4]),
        (0, [20, 0, 0], [-1, 0, 0], 0, 100, &[4, 3, 2, 1, 0]),
        (1, [0, -20, 0], [0, 1, 0], 30, 45, &[1, 2, 3]),
        // up to a face, and from it on
        (0, [-20, 0, 0], [1, 0, 0], 0, 28, &[0]),
        (0, [-20, 0, 0], [1, 0, 0], 28, 29, &[1]),
        (2, [0, 0, 20], [0, 0, -1], 28, 29, &[3]),
        // along the copies' faces, and beside them all
        (0, [-2, 0, 0], [0, 1, 0], 0, 9, &[2]),
        (0, [10, 0, 0], [0, 1, 0], 0, 9, &[]),
    ];
    for (axis, o, d, from, to, expected) in cases {
        let mut offers = Offers::new(alloc, 5)?;
        let ray = Ray {
            o: vector(o),
            d: vector(d),
        };
        if from >= to || axis > 2 {
            return Err("no stretch".into());
        }
        let stretch = Stretch {
            from: Time {
                num: u128::from(from),
                den: 2,
            },
            to: Time {
                num: u128::from(to),
                den: 2,
            },
        };
        offer_copies(axis, -10, 4, 5, &ray, stretch, &mut offers);
        assert_eq!(rt; offers.as_slice(), expected);
    }
    Ok(())
}
