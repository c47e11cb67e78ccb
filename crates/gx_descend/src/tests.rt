ghost use Rattle.std.specs.Prelude.{◌≡◌, ◌<◌, ◌^◌, length, IfOk};
ghost use Rattle.std.specs.List.{All};
ghost use Rattle.gx_num.specs.Vector.{IsWithin};
ghost use Rattle.gx_boxes.specs.Boxes.{IsProper, IsNear};

use crate::descend;
use gx_along::{Stretch, Time};
use gx_num::{Extent, NoMemory, Ray, V3};
use gx_offers::Offers;
use gx_refine::build;
use gx_steps::Steps;
use std::alloc::Global;
use std::marker::Brand;
use std::sync::ledger::{Blank, Ledger};
use std::test::Fail;

// Of one step on the x axis and of two on the others.
fn place(i: u8) -> Extent
    ensures { IsProper result }
{
    let x = 2 * i64::from(i);
    Extent {
        low: V3 { x, y: 0, z: 0 },
        high: V3 {
            x: x + 1,
            y: 2,
            z: 2,
        },
    }
}

// So many boxes on the x axis, a step apart.
fn boxes(alloc: Global, count: u8) -> Result<Vec<Extent>, NoMemory>
    ensures proper { IfOk result (λ v. All IsProper v.items) }
    ensures count { IfOk result (λ v. length v.items ≡ count) }
{
    let mut extents = Vec::new(alloc);
    for i in 0..count {
        extents.push(place(i))?;
    }
    Ok(extents)
}

fn vector(x: i32, y: i32, z: i32) -> V3
    ensures { IsWithin (2 ^ 31) result }
{
    V3 {
        x: i64::from(x),
        y: i64::from(y),
        z: i64::from(z),
    }
}

fn ray(o: [i32; 3], d: [i32; 3]) -> Ray
    ensures { IsNear result }
{
    Ray {
        o: vector(o[0], o[1], o[2]),
        d: vector(d[0], d[1], d[2]),
    }
}

// The numbers of eight boxes that come.
fn offered<L: Ledger>(
    alloc: Global,
    ray: &Ray,
    from: u8,
    to: u8,
    blank: Blank,
) -> Result<Vec<u32>, NoMemory>
    requires near { IsNear ray.now }
    requires order { from < to }
    requires name { blank.name ≡ L.name }
    requires parts { blank.parts ≡ L.parts }
    requires some { 0 < L.parts }
{
    let mut reads: Steps<L> = Steps::new(blank);
    let extents = boxes(alloc, 8)?;
    let proxy = build(alloc, &extents)?;
    let mut offers = Offers::new(alloc, 8)?;
    let stretch = Stretch {
        from: Time {
            num: u128::from(from),
            den: 1,
        },
        to: Time {
            num: u128::from(to),
            den: 1,
        },
    };
    descend(&proxy, ray, stretch, &mut offers, &mut reads);
    Ok(Vec::from_slice(alloc, offers.as_slice())?)
}

// By hand: along x there is a run for each box and for each gap.
#[test]
fn boxes_come_as_the_ray_comes_to_their_runs(rt: HostRuntime) -> Result<(), Fail> {
    let up = ([-1, 1, 1], [1, 0, 0]);
    let down = ([16, 1, 1], [-1, 0, 0]);
    let table: [(([i32; 3], [i32; 3]), u8, u8, &[u32]); 5] = [
        (up, 0, 99, &[0, 1, 2, 3, 4, 5, 6, 7]),
        (up, 4, 8, &[2, 3]),
        (down, 0, 99, &[7, 6, 5, 4, 3, 2, 1, 0]),
        (([4, -1, 1], [0, 1, 0]), 0, 99, &[2]),
        (([5, -1, 1], [0, 1, 0]), 0, 99, &[]),
    ];
    for ((o, d), from, to, numbers) in table {
        if from < to {
            let found = offered::<Brand>(rt.alloc(), &ray(o, d), from, to, Blank::new(1))?;
            assert_eq!(rt; found.as_slice(), numbers);
        }
    }
    Ok(())
}
