//! Running counts of instances.

ghost use Rattle.std.specs.Prelude.{◌≡◌, ◌<◌, ◌≤◌, ◌-◌, map, length, slice_get, slice_index, sum_by, List, Some, All, IfOk};
ghost use Rattle.gx_shapes.specs.Accepted.{IsSolid};
ghost use Rattle.gx_tree.specs.Volume.{copies_of, rotation_of, instances_in};
ghost use Rattle.gx_tree.specs.Hierarchy.{IsRotation};
ghost use Rattle.gx_tree.specs.Limits.{IsInRange, IsWithinLimits};
ghost use Rattle.gx_tree.specs.Ends as spec;
ghost use Rattle.gx_tree.specs.Ends.{IsEven, IsPlace};
ghost use Rattle.gx_tree.specs.declared.placement.Placement.{Placement};

use crate::{Instance, Placement, Volume};
use gx_num::NoMemory;
use std::alloc::Global;

/// For each volume the number of its instances up to each placement and with it.
pub fn ends_of(alloc: Global, volumes: &[Volume]) -> Result<Vec<Vec<u32>>, NoMemory>
    requires { IsWithinLimits volumes.now }
    ensures ends { IfOk result (λ ends. map (λ e. e.items) ends.items ≡ map (λ v. spec.ends_of v.placements) volumes.now) }
    ensures solids { IfOk result (λ _. All (λ v. IsSolid v.solid) volumes.now) }
    ensures turned { IfOk result (λ _. All (λ v. All (λ p. IsRotation (rotation_of p)) v.placements) volumes.now) }
{
    let mut ends = Vec::new(alloc);
    for volume in volumes {
        // What each solid keeps is known from here on.
        let _ = volume.solid();
        ends.push(ends_in(alloc, volume.placements())?)?;
    }
    Ok(ends)
}

fn ends_in(alloc: Global, placements: &[Placement]) -> Result<Vec<u32>, NoMemory>
    requires range { All IsInRange placements.now }
    requires few { sum_by copies_of placements.now ≤ 4096 }
    ensures ends { IfOk result (λ ends. ends.items ≡ spec.ends_of placements.now) }
    ensures turned { IfOk result (λ _. All (λ p. IsRotation (rotation_of p)) placements.now) }
{
    let mut ends = Vec::new(alloc);
    let mut end = 0;
    for placement in placements {
        // What each rotation keeps is known from here on.
        let _ = placement.rotation();
        end += placement.count();
        ends.push(end)?;
    }
    Ok(ends)
}

/// The number of instances.
pub fn count(ends: &[u32]) -> u32
    ensures { result ≡ slice_index ends.now (length ends.now - 1) }
{
    ends.last().copied().unwrap_or(0)
}

/// The instance with this ordinal.
pub fn instance_at(placements: &[Placement], ends: &[u32], k: u32) -> Instance
    requires ends { ends.now ≡ spec.ends_of placements.now }
    requires ordinal { k < sum_by copies_of placements.now }
    requires few { sum_by copies_of placements.now ≤ 4096 }
    requires range { All IsInRange placements.now }
    requires even { All IsEven placements.now }
    ensures { slice_get (instances_in placements.now) k ≡ Some result }
{
    let place = place_of(ends, k);
    let start = count(&ends[..place]);
    placements[place].instance(k - start)
}

// The place of the placement that has the k-th instance.
fn place_of(ends: &[u32], k: u32) -> usize
    ensures { (placements : List Placement) → ends.now ≡ spec.ends_of placements → k < sum_by copies_of placements → IsPlace placements k result }
{
    ends.partition_point(|end| *end <= k)
}
