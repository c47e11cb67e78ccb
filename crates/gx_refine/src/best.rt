ghost use Rattle.std.specs.Prelude.{◌≡◌, ◌<◌, ◌≤◌, length, IfOk};
ghost use Rattle.gx_voxel.specs.Members.{extent_at};
ghost use Rattle.gx_voxel.specs.Cut.{cut_along, cut_of, is_worth_it, is_as_good};
ghost use Rattle.gx_refine.specs.Known.{AreKnown};
ghost use Rattle.gx_refine.specs.Best.{better_of, best_with};

use crate::runs::{Part, entries, longest, runs};
use gx_num::{Extent, NoMemory};
use std::alloc::Global;
use std::marker::Model;

/// Members cut apart along an axis.
#[derive(Drop)]
pub struct Parts {
    pub axis: u8,
    pub runs: Vec<Part>,
    longest: u64,
    entries: u64,
}

impl Model for Parts {
    ghost use Rattle.std.specs.Prelude.{◌≡◌};
    ghost use Rattle.gx_voxel.specs.Cut.{Cut, longest_of, entries_of};

    ghost Value = { Cut };

    ghost view = { λ c. record { axis = c.axis; runs = c.runs.items } };

    ghost invariant = { λ c. (c.longest ≡ longest_of c.runs.items) × (c.entries ≡ entries_of c.runs.items) };
}

fn cut_along(
    alloc: Global,
    extents: &[Extent],
    members: &[u32],
    axis: u8,
) -> Result<Parts, NoMemory>
    requires known { AreKnown extents.now members.now }
    requires some { 0 < length members.now }
    ensures { IfOk result (λ c. c ≡ cut_along (extent_at extents.now) members.now axis) }
{
    let runs = runs(alloc, extents, axis, members)?;
    let longest = longest(&runs);
    let entries = entries(&runs);
    Ok(Parts {
        axis,
        runs,
        longest,
        entries,
    })
}

// On average a member is in at most 8 runs.
fn is_worth_it(members: u64, cut: &Parts) -> bool
    requires { members ≤ 4096 }
    ensures { result ≡ is_worth_it members cut.now }
{
    cut.entries <= 8 * members
}

fn is_as_good(a: &Parts, b: &Parts) -> bool
    ensures { result ≡ is_as_good a.now b.now }
{
    a.longest < b.longest || (a.longest == b.longest && a.entries <= b.entries)
}

fn better(best: Parts, cut: Parts) -> Parts
    ensures { result ≡ better_of (Some best) cut }
{
    if is_as_good(&best, &cut) { best } else { cut }
}

fn better_of(best: Option<Parts>, cut: Parts) -> Parts
    ensures { result ≡ better_of best cut }
{
    match best {
        None => cut,
        Some(best) => better(best, cut),
    }
}

fn best_with(members: u64, best: Option<Parts>, cut: Parts) -> Option<Parts>
    requires { members ≤ 4096 }
    ensures { result ≡ best_with members best cut }
{
    if is_worth_it(members, &cut) {
        Some(better_of(best, cut))
    } else {
        best
    }
}

/// The best cut of the members along an axis that is left and worth it, if there is one; fewer than 4 members aren't cut.
pub fn cut(
    alloc: Global,
    extents: &[Extent],
    members: &[u32],
    axes: &[u8],
) -> Result<Option<Parts>, NoMemory>
    requires known { AreKnown extents.now members.now }
    ensures { IfOk result (λ c. c ≡ cut_of (extent_at extents.now) members.now axes.now) }
{
    if members.len() < 4 {
        return Ok(None);
    }
    let mut best = None;
    for axis in axes {
        let cut = cut_along(alloc, extents, members, *axis)?;
        best = best_with(members.len() as u64, best, cut);
    }
    Ok(best)
}
