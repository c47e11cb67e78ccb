ghost use Rattle.std.specs.Prelude.{◌≡◌, ◌<◌, ◌≤◌, length, IfOk, OnOk};
ghost use Rattle.std.specs.List.{All};
ghost use Rattle.gx_voxel.specs.Cut.{grid_of, run_of, members_in, runs_on, longest_of, entries_of};
ghost use Rattle.gx_refine.specs.Grown.{ended_after, last_after};
ghost use Rattle.gx_refine.specs.Known.{AreKnown, AreParts, along};

use crate::grid::Slices;
use crate::near::Near;
use gx_num::{Extent, NoMemory};
use std::alloc::Global;
use std::marker::Model;
use std::mem;

/// Consecutive slices, from one coordinate up to, and without, another, with the same members.
#[derive(Drop)]
pub struct Part {
    pub first: u32,
    pub last: u32,
    pub low: i64,
    pub high: i64,
    pub members: Vec<u32>,
}

impl Model for Part {
    ghost use Rattle.gx_voxel.specs.Cut.{SliceRun};

    ghost Value = { SliceRun };

    ghost view = { λ p. record { first = p.first; last = p.last; low = p.low; high = p.high; members = p.members.items } };
}

// The part of one slice.
fn part_of_slice(slices: &Slices, i: u32, members: Vec<u32>) -> Part
    requires i { i < slices.now.count }
    ensures { result ≡ run_of slices.now i i members.items }
{
    Part {
        first: i,
        last: i,
        low: slices.bound(u64::from(i)),
        high: slices.bound(u64::from(i) + 1),
        members,
    }
}

// One slice more: the last run is longer, or it has ended and another begins.
fn add_slice(
    ended: &mut Vec<Part>,
    run: &mut Part,
    slices: &Slices,
    i: u32,
    next: Vec<u32>,
) -> Result<(), NoMemory>
    requires { i < slices.now.count }
    ensures ended { OnOk result (ended.new.items ≡ ended_after ended.old.items run.old next.items) }
    ensures run { OnOk result (run.new ≡ last_after slices.now run.old i next.items) }
{
    if run.members.as_slice() == next.as_slice() {
        run.last = i;
        run.high = slices.bound(u64::from(i) + 1);
        return Ok(());
    }
    ended.push(mem::replace(run, part_of_slice(slices, i, next)))?;
    Ok(())
}

/// The runs of members on an axis.
pub fn runs(
    alloc: Global,
    extents: &[Extent],
    axis: u8,
    members: &[u32],
) -> Result<Vec<Part>, NoMemory>
    requires known { AreKnown extents.now members.now }
    requires some { 0 < length members.now }
    ensures value { IfOk result (λ v. v.items ≡ runs_on (along extents.now axis) members.now) }
    ensures parts { IfOk result (λ v. AreParts extents.now v.items) }
{
    let slices = Slices::new(extents, axis, members);
    let mut near = Near::none(alloc);
    let mut runs = Vec::new(alloc);
    let first = near.slice(alloc, extents, axis, members, &slices, 0)?;
    let mut run = part_of_slice(&slices, 0, first);
    for i in 1..slices.count() as u32 {
        let next = near.slice(alloc, extents, axis, members, &slices, i)?;
        add_slice(&mut runs, &mut run, &slices, i, next)?;
    }
    runs.push(run)?;
    Ok(runs)
}

/// How many members the longest run has.
#[tactic(auto, using(std::proofs::lemmas::List::Sums::fold_more))]
pub fn longest(runs: &[Part]) -> u64
    ensures { result ≡ longest_of runs.now }
{
    let mut longest = 0;
    for run in runs {
        longest = longest.max(run.members.len() as u64);
    }
    longest
}

/// How many members all runs have together.
#[tactic(auto, using(std::proofs::lemmas::List::Sums::fold_more))]
pub fn entries(runs: &[Part]) -> u64
    requires few { length runs.now ≤ 1000 }
    requires each { All (λ run. length run.members ≤ 4096) runs.now }
    ensures { result ≡ entries_of runs.now }
{
    let mut entries = 0;
    for run in runs {
        entries += run.members.len() as u64;
    }
    entries
}
