ghost use Rattle.std.specs.Prelude.{◌≡◌, ◌<◌, ◌≤◌, length, map, slice_get, All, IfOk, IfErr, Ok};
ghost use Rattle.gx_gather.specs.Faults.{IsCause};
ghost use Rattle.gx_link.specs.Build.{IsLinked, IsTold};
ghost use Rattle.gx_link.specs.Crowd.{placed_in};
ghost use Rattle.gx_link.specs.Text as spec;

use crate::build::build;
use crate::crowd::first_crowded;
use crate::link::{LinkedPlacement, LinkedVolume, Links};
use gx_gather::{ReadError, text_fault};
use gx_num::NoMemory;
use gx_table::FaultName;
use gx_tree::{Hierarchy, TreeError, TreeFault};
use std::alloc::Global;

/// The hierarchy of resolved lines, or its first fault: the numbers of daughters, and then the hierarchy's own.
pub fn tree_from(alloc: Global, links: Links) -> Result<Hierarchy, ReadError>
    requires few { length links.volumes ≤ 4096 }
    requires linked { All (IsLinked (length links.volumes)) links.placements }
    ensures ok { IfOk result (λ tree. spec.tree_of links ≡ Ok tree) }
    ensures err { IfErr result (IsCause (spec.tree_of links)) }
{
    let Links {
        volumes,
        placements,
    } = links;
    if let Some(line) = first_crowded(alloc, volumes.len(), &placements)? {
        return Err(text_fault(line, 1, FaultName::TooMany));
    }
    let lines = lines_of(alloc, &volumes)?;
    let volumes = build(alloc, volumes, &placements)?;
    match Hierarchy::new(alloc, volumes) {
        Ok(tree) => Ok(tree),
        Err(TreeError::Fault(fault)) => Err(fault_of_tree(&lines, &placements, fault)),
        Err(TreeError::NoMemory) => Err(ReadError::NoMemory),
    }
}

// The lines of the volumes.
fn lines_of(alloc: Global, volumes: &[LinkedVolume]) -> Result<Vec<u32>, NoMemory>
    ensures { IfOk result (λ lines. lines.items ≡ spec.lines_of volumes.now) }
{
    Ok(volumes.iter().map(|volume| volume.line).collect(alloc)?)
}

// Where a fault of the hierarchy stands.
fn fault_of_tree(lines: &[u32], placements: &[LinkedPlacement], fault: TreeFault) -> ReadError
    requires { IsTold (length lines.now) placements.now fault }
    ensures { result ≡ ReadError.Text (spec.fault_of_tree lines.now placements.now fault) }
{
    match fault {
        TreeFault::Cycle(v) => at_volume(lines, v, FaultName::Cycle),
        TreeFault::NoWorld => text_fault(0, 0, FaultName::NoWorld),
        TreeFault::TwoWorlds(v) => at_volume(lines, v, FaultName::TwoWorlds),
        TreeFault::TooDeep(v) => at_volume(lines, v, FaultName::TooDeep),
        TreeFault::ReplicaMixed(v, k) => at_placement(placements, v, k, FaultName::ReplicaMixed),
        TreeFault::ReplicaSolid(v, k) => at_placement(placements, v, k, FaultName::ReplicaSolid),
        TreeFault::ReplicaFill(v, k) => at_placement(placements, v, k, FaultName::ReplicaFill),
    }
}

fn at_volume(lines: &[u32], v: u32, name: FaultName) -> ReadError
    requires { v < length lines.now }
    ensures { result ≡ ReadError.Text (spec.at_volume lines.now v name) }
{
    text_fault(lines[v as usize], 2, name)
}

// At the k-th placement in a mother.
fn at_placement(placements: &[LinkedPlacement], mother: u32, k: u32, name: FaultName) -> ReadError
    requires { k < length (placed_in mother placements.now) }
    ensures { result ≡ ReadError.Text (spec.at_placement placements.now mother k name) }
{
    let line = placement_line(placements, mother, k as usize).unwrap();
    text_fault(line, 1, name)
}

fn placement_line(placements: &[LinkedPlacement], mother: u32, k: usize) -> Option<u32>
    ensures { result ≡ slice_get (map (λ p. p.line) (placed_in mother placements.now)) k }
{
    placements
        .iter()
        .filter(move |placed| placed.mother == mother)
        .map(|placed| placed.line)
        .nth(k)
}
