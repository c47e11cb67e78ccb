ghost use Rattle.std.specs.Prelude.{◌≡◌, ℕ, List, ◌<◌, ◌≤◌, ◌^◌, true, false, unsigned_abs, MatchOption};
ghost use Rattle.gx_num.specs.declared.extent.Extent.{Extent};
ghost use Rattle.gx_boxes.specs.Boxes.{IsNear};
ghost use Rattle.gx_voxel.specs.Cut.{coordinate};
ghost use Rattle.gx_voxel.specs.Proxy.{low_of, high_of};
ghost use Rattle.gx_along.specs.Line.{time, is_entered, part_of, IsStretch};
ghost use Rattle.gx_descend.specs.Descent.{StandsForSome, IsTree, IsDescended};
ghost use Rattle.gx_descend.specs.Crossed.{Descends, StandsWithinSome};

use gx_along::{Bounds, Line, Stretch, first_left, index_of, is_entered, left_of, part};
use gx_num::{Ray, V3};
use gx_offers::Offers;
use gx_steps::Steps;
use gx_voxel::{Proxy, Run};
use std::sync::ledger::Ledger;

fn coordinate(axis: u8, v: &V3) -> i64
    ensures { result ≡ coordinate axis v.now }
{
    if axis == 0 {
        v.x
    } else if axis == 1 {
        v.y
    } else {
        v.z
    }
}

fn line_on(axis: u8, ray: &Ray) -> Line
    ensures o { result.o ≡ coordinate axis ray.now.o }
    ensures d { result.d ≡ coordinate axis ray.now.d }
{
    Line {
        o: coordinate(axis, &ray.o),
        d: coordinate(axis, &ray.d),
    }
}

// The part of the stretch in a run, where the ray comes to it before the stretch ends.
fn part_in(run: &Run, line: Line, stretch: Stretch) -> Option<Stretch>
    requires o { unsigned_abs line.o ≤ 2 ^ 31 }
    requires low { unsigned_abs (low_of run.now) ≤ 2 ^ 31 }
    requires high { unsigned_abs (high_of run.now) ≤ 2 ^ 31 }
    requires to { 0 < stretch.to.den }
    ensures { MatchOption result (is_entered line.o line.d (low_of run.now) (high_of run.now) (time stretch.to) ≡ false) (λ one. (is_entered line.o line.d (low_of run.now) (high_of run.now) (time stretch.to) ≡ true) × (one ≡ part_of line.o line.d (low_of run.now) (high_of run.now) stretch)) }
{
    let bounds = Bounds {
        low: run.low(),
        high: run.high(),
    };
    if !is_entered(line, bounds, stretch.to) {
        return None;
    }
    Some(part(line, bounds, stretch))
}

/// Down a tree along a ray: what may have a point of the stretch is offered, each run that the ray comes to is read once.
pub fn descend<L: Ledger>(
    proxy: &Proxy,
    ray: &Ray,
    stretch: Stretch,
    offers: &mut Offers,
    reads: &mut Steps<L>,
)
    requires near { IsNear ray.now }
    requires stretch { IsStretch stretch }
    requires some { StandsForSome offers.old.room proxy.now }
    ensures { (at : ℕ → Extent) (ks : List ℕ) → IsTree at ks proxy.now → IsDescended at ks ray.now stretch offers.old offers.new reads.old reads.new }
{
    go(3, proxy, ray, stretch, offers, reads)
}

// Through at most n headers one in another.
fn go<L: Ledger>(
    n: u32,
    proxy: &Proxy,
    ray: &Ray,
    stretch: Stretch,
    offers: &mut Offers,
    reads: &mut Steps<L>,
)
    requires near { IsNear ray.now }
    requires stretch { IsStretch stretch }
    requires some { StandsWithinSome n offers.old.room proxy.now }
    ensures descends { Descends n ray.now stretch proxy.now offers.old offers.new reads.old reads.new }
    ensures room { offers.new.room ≡ offers.old.room }
{
    match proxy {
        Proxy::Node(members) => members.offer(ray, offers),
        Proxy::Refined(boxed) => {
            let header = &**boxed;
            if n == 0 {
                return;
            }
            let line = line_on(header.axis(), ray);
            let count = header.run_count();
            let start = first_left(header, line, stretch.from, reads);
            let left = left_of(line, count, start);
            for j in 0..left {
                let run = header.run_at(index_of(line, count, start, j), reads);
                let Some(part) = part_in(run, line, stretch) else {
                    return;
                };
                go(n - 1, run.proxy(), ray, part, offers, reads);
            }
        }
    }
}
