ghost use Rattle.std.specs.Prelude.{◌≡◌, ◌<◌, ◌≤◌, length, unsigned_abs, All, IfSome};
ghost use Rattle.gx_num.specs.Vector.{IsWithin};
ghost use Rattle.gx_tree.specs.Limits.{IsWithinLimits, IsPlaceable};
ghost use Rattle.gx_tree.specs.Fault as spec;
ghost use Rattle.gx_tree.specs.Fault.{fault_of_placement, replica_fault_in, halves as halves_of};

use crate::{Placement, TreeFault, Volume};
use gx_hull::Solid;
use gx_num::{M, V3};
use gx_replica::replica_fits;
use gx_shapes::Figure;

/// The first fault of a replica.
#[tactic(auto, unfolding(crate::specs::Fault::replica_fault))]
pub fn replica_fault(volumes: &[Volume]) -> Option<TreeFault>
    requires { IsWithinLimits volumes.now }
    ensures { result ≡ spec.replica_fault volumes.now }
{
    for (v, mother) in volumes.iter().enumerate() {
        let fault = fault_in(volumes, v as u32, mother);
        if fault.is_some() {
            return fault;
        }
    }
    None
}

// The first in one mother.
fn fault_in(volumes: &[Volume], v: u32, mother: &Volume) -> Option<TreeFault>
    requires limits { IsWithinLimits volumes.now }
    requires placeable { All (IsPlaceable (length volumes.now)) mother.now.placements }
    requires few { length mother.now.placements ≤ 4096 }
    ensures { result ≡ replica_fault_in volumes.now v mother.now }
{
    for (k, placement) in mother.placements().iter().enumerate() {
        let fault = fault_of(volumes, v, mother, k as u32, placement);
        if fault.is_some() {
            return fault;
        }
    }
    None
}

fn fault_of(
    volumes: &[Volume],
    v: u32,
    mother: &Volume,
    k: u32,
    placement: &Placement,
) -> Option<TreeFault>
    requires placeable { IsPlaceable (length volumes.now) placement.now }
    ensures { result ≡ fault_of_placement volumes.now v mother.now k placement.now }
{
    match *placement {
        Placement::Replica {
            volume,
            axis,
            count,
            width,
        } => {
            if mother.placements().len() > 1 {
                return Some(TreeFault::ReplicaMixed(v, k));
            }
            let cell = volumes[volume as usize].solid();
            match (halves(mother.solid()), halves(cell)) {
                (Some(mother), Some(cell)) => {
                    if replica_fits(mother, cell, axis, count, width) {
                        None
                    } else {
                        Some(TreeFault::ReplicaFill(v, k))
                    }
                }
                _ => Some(TreeFault::ReplicaSolid(v, k)),
            }
        }
        _ => None,
    }
}

// The half-lengths of a box.
fn halves(solid: &Solid) -> Option<V3>
    ensures value { result ≡ halves_of solid.now }
    ensures within { IfSome result (IsWithin (unsigned_abs M)) }
{
    match solid.figure() {
        Figure::Cuboid(x, y, z) => Some(V3 {
            x: *x,
            y: *y,
            z: *z,
        }),
        _ => None,
    }
}
