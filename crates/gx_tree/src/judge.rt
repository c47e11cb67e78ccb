//! The faults of volumes, by their order.

ghost use Rattle.std.specs.Prelude.{◌≡◌, ◌<◌, ◌≤◌, length, find, IfOk, IfErr, Ok};
ghost use Rattle.std.specs.List.{range_with_len};
ghost use Rattle.gx_tree.specs.Hierarchy.{numbers};
ghost use Rattle.gx_tree.specs.Marks.{is_marked};
ghost use Rattle.gx_tree.specs.Limits.{IsWithinLimits};
ghost use Rattle.gx_tree.specs.Fault as spec;
ghost use Rattle.gx_tree.specs.Fault.{hierarchy_of, IsTreeCause};

use crate::chains::{after, daughters, mark, reached};
use crate::replicas::replica_fault;
use crate::{TreeError, TreeFault, Volume};
use gx_num::NoMemory;
use std::alloc::Global;

// The most placements in a chain from the world.
const MAX_DEPTH: u32 = 32;

/// The number of the world, where the volumes make a hierarchy.
#[tactic(auto, unfolding(crate::specs::Fault::hierarchy_of))]
pub fn world_of(alloc: Global, volumes: &[Volume]) -> Result<u32, TreeError>
    requires { IsWithinLimits volumes.now }
    ensures ok { IfOk result (λ world. hierarchy_of volumes.now ≡ Ok (record { volumes = volumes.now; world = world })) }
    ensures err { IfErr result (IsTreeCause (hierarchy_of volumes.now)) }
{
    if let Some(v) = first_in_itself(alloc, volumes)? {
        return Err(TreeError::Fault(TreeFault::Cycle(v)));
    }
    let world = only_world(alloc, volumes)?;
    if let Some(v) = first_too_deep(alloc, volumes, world)? {
        return Err(TreeError::Fault(TreeFault::TooDeep(v)));
    }
    if let Some(fault) = replica_fault(volumes) {
        return Err(TreeError::Fault(fault));
    }
    Ok(world)
}

// The first volume that is in itself.
fn first_in_itself(alloc: Global, volumes: &[Volume]) -> Result<Option<u32>, NoMemory>
    requires { IsWithinLimits volumes.now }
    ensures { IfOk result (λ v. v ≡ find (spec.is_in_itself volumes.now) (numbers volumes.now)) }
{
    // To a volume in itself chains of any length lead, and few volumes are deep.
    let all = vec![in alloc; true; volumes.len()]?;
    let deep = after(alloc, volumes, all, MAX_DEPTH + 1)?;
    for (v, &deep) in deep.iter().enumerate() {
        if deep && is_in_itself(alloc, volumes, v)? {
            return Ok(Some(v as u32));
        }
    }
    Ok(None)
}

// The volume is one of those that chains lead to from its daughters.
fn is_in_itself(alloc: Global, volumes: &[Volume], v: usize) -> Result<bool, NoMemory>
    requires limits { IsWithinLimits volumes.now }
    requires volume { v < length volumes.now }
    ensures { IfOk result (λ is. is ≡ spec.is_in_itself volumes.now v) }
{
    let mut marks = vec![in alloc; false; volumes.len()]?;
    mark(&mut marks, volumes[v].placements());
    let reached = reached(alloc, volumes, &marks)?;
    Ok(reached[v])
}

// The one volume that is placed nowhere.
fn only_world(alloc: Global, volumes: &[Volume]) -> Result<u32, TreeError>
    requires { IsWithinLimits volumes.now }
    ensures ok { IfOk result (λ world. spec.only_world volumes.now ≡ Ok world) }
    ensures err { IfErr result (IsTreeCause (spec.only_world volumes.now)) }
{
    let all = vec![in alloc; true; volumes.len()]?;
    let placed = daughters(alloc, volumes, &all)?;
    let mut world = None;
    for (v, &placed) in placed.iter().enumerate() {
        if !placed {
            if world.is_some() {
                return Err(TreeError::Fault(TreeFault::TwoWorlds(v as u32)));
            }
            world = Some(v as u32);
        }
    }
    world.ok_or(TreeError::Fault(TreeFault::NoWorld))
}

// The first volume to which a chain of too many placements leads from the world.
fn first_too_deep(alloc: Global, volumes: &[Volume], world: u32) -> Result<Option<u32>, NoMemory>
    requires limits { IsWithinLimits volumes.now }
    requires world { world < length volumes.now }
    ensures { IfOk result (λ v. v ≡ find (spec.is_too_deep volumes.now world) (numbers volumes.now)) }
{
    let mut marks = vec![in alloc; false; volumes.len()]?;
    marks[world as usize] = true;
    let deep = after(alloc, volumes, marks, MAX_DEPTH + 1)?;
    let reached = reached(alloc, volumes, &deep)?;
    Ok(first_marked(&reached))
}

fn first_marked(marks: &[bool]) -> Option<u32>
    requires { length marks.now ≤ 4096 }
    ensures { result ≡ find (is_marked marks.now) (range_with_len 0 (length marks.now)) }
{
    for (v, &marked) in marks.iter().enumerate() {
        if marked {
            return Some(v as u32);
        }
    }
    None
}
