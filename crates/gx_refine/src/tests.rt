ghost use Rattle.std.specs.Prelude.{◌≡◌, ◌<◌, ◌≤◌, ◌+◌, length, IfOk};
ghost use Rattle.std.specs.List.{All};
ghost use Rattle.std.proofs.Common.{inr};
ghost use Rattle.gx_boxes.specs.Boxes.{IsProper};
ghost use Rattle.gx_voxel.specs.Proxy.{content_of, list_of};

use crate::build;
use gx_num::{Extent, NoMemory, V3};
use gx_steps::Steps;
use gx_voxel::{Header, Members, Proxy};
use std::alloc::Global;
use std::marker::Brand;
use std::sync::ledger::{Blank, Ledger};
use std::test::Fail;

fn push_members(numbers: &mut Vec<i64>, members: &Members) -> Result<(), NoMemory> {
    for i in 0..members.count() {
        numbers.push(i64::from(members.at(i)))?;
    }
    Ok(())
}

// The axis, and for each run its slices, bounds and members.
fn push_header<L: Ledger>(
    numbers: &mut Vec<i64>,
    header: &Header,
    reads: &mut Steps<L>,
) -> Result<(), NoMemory>
    requires { length (list_of header.now) ≤ 1000 }
{
    numbers.push(i64::from(header.axis()))?;
    for i in 0..header.run_count() {
        let run = header.run_at(i, reads);
        numbers.push(i64::from(run.first()))?;
        numbers.push(i64::from(run.last()))?;
        numbers.push(run.low())?;
        numbers.push(run.high())?;
        if let Proxy::Node(members) = run.proxy() {
            push_members(numbers, members)?;
        }
    }
    Ok(())
}

fn numbers_of<L: Ledger>(
    alloc: Global,
    proxy: &Proxy,
    reads: &mut Steps<L>,
) -> Result<Vec<i64>, NoMemory>
    requires { (h : Header) → content_of proxy.now ≡ inr h → length (list_of h) ≤ 1000 }
{
    let mut numbers = Vec::new(alloc);
    match proxy {
        Proxy::Node(members) => push_members(&mut numbers, members)?,
        Proxy::Refined(header) => push_header(&mut numbers, header, reads)?,
    }
    Ok(numbers)
}

// With one more, from a low coordinate above -1 to a higher one up to 100.
fn push_extent(extents: &mut Vec<Extent>, low: i64, high: i64) -> Result<(), NoMemory>
    requires { All IsProper extents.old.items }
    ensures proper { All IsProper extents.new.items }
    ensures few { length extents.new.items ≤ length extents.old.items + 1 }
{
    if low < 0 || low >= high || high > 100 {
        return Ok(());
    }
    extents.push(Extent {
        low: V3 { x: low, y: 0, z: 0 },
        high: V3 {
            x: high,
            y: 1,
            z: 1,
        },
    })?;
    Ok(())
}

fn extents_on_x(alloc: Global, bounds: &[(i64, i64)]) -> Result<Vec<Extent>, NoMemory>
    ensures proper { IfOk result (λ v. All IsProper v.items) }
    ensures few { IfOk result (λ v. length v.items ≤ length bounds.now) }
{
    let mut extents = Vec::new(alloc);
    for (low, high) in bounds {
        push_extent(&mut extents, *low, *high)?;
    }
    Ok(extents)
}

fn built<L: Ledger>(
    alloc: Global,
    bounds: &[(i64, i64); 4],
    blank: Blank,
) -> Result<Vec<i64>, NoMemory>
    requires name { blank.name ≡ L.name }
    requires parts { blank.parts ≡ L.parts }
    requires some { 0 < L.parts }
{
    let mut reads: Steps<L> = Steps::new(blank);
    let extents = extents_on_x(alloc, bounds)?;
    let proxy = build(alloc, &extents)?;
    numbers_of(alloc, &proxy, &mut reads)
}

#[test]
fn a_header_has_runs_of_equal_slices_in_turn(rt: HostRuntime) -> Result<(), Fail> {
    let two_runs: &[i64] = &[0, 0, 4, 0, 5, 0, 1, 2, 5, 5, 5, 6, 3];
    let four_runs: &[i64] = &[
        0, 0, 0, 0, 1, 0, 1, 2, 1, 3, 0, 1, 3, 4, 3, 5, 0, 2, 3, 5, 5, 5, 6, 0,
    ];
    let table: [([(i64, i64); 4], &[i64]); 2] = [
        ([(0, 5), (0, 5), (0, 5), (5, 6)], two_runs),
        ([(0, 6), (1, 3), (3, 5), (3, 5)], four_runs),
    ];
    for (bounds, numbers) in table {
        let found = built::<Brand>(rt.alloc(), &bounds, Blank::new(1))?;
        assert_eq!(rt; found.as_slice(), numbers);
    }
    Ok(())
}
