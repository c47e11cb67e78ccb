ghost use Rattle.std.specs.Prelude.{◌≡◌, ◌<◌, ◌++◌, ◌∷◌, [], length, map, slice_set, slice_index_or, All, IfOk};
ghost use Rattle.std.specs.List.{zip};
ghost use Rattle.gx_link.specs.Build as spec;
ghost use Rattle.gx_link.specs.Build.{IsLinked};
ghost use Rattle.gx_link.specs.Text.{volumes_from};

use crate::link::{LinkedPlacement, LinkedVolume};
use gx_num::NoMemory;
use gx_tree::{Placement, Volume};
use std::alloc::Global;

/// The volumes in order, each with what is placed in it.
pub fn build(
    alloc: Global,
    volumes: Vec<LinkedVolume>,
    placements: &[LinkedPlacement],
) -> Result<Vec<Volume>, NoMemory>
    requires { All (IsLinked (length volumes.items)) placements.now }
    ensures { IfOk result (λ built. built.items ≡ volumes_from placements.now 0 volumes.items) }
{
    let lists = lists_of(alloc, volumes.len(), placements)?;
    with_lists(alloc, volumes, lists)
}

fn with_lists(
    alloc: Global,
    volumes: Vec<LinkedVolume>,
    lists: Vec<Vec<Placement>>,
) -> Result<Vec<Volume>, NoMemory>
    ensures { IfOk result (λ built. built.items ≡ map spec.with_list (zip volumes.items lists.items)) }
{
    let built = volumes
        .into_iter()
        .zip(lists)
        .map(|(volume, list)| with_list(volume, list))
        .collect(alloc)?;
    Ok(built)
}

fn with_list(volume: LinkedVolume, list: Vec<Placement>) -> Volume
    ensures { result ≡ spec.with_list (volume, list) }
{
    let LinkedVolume {
        name,
        solid,
        material,
        line: _,
    } = volume;
    Volume::new(name.into_bytes(), solid, material.into_bytes(), list)
}

// The placements in each of so many mothers.
fn lists_of(
    alloc: Global,
    volumes: usize,
    placements: &[LinkedPlacement],
) -> Result<Vec<Vec<Placement>>, NoMemory>
    requires { All (IsLinked volumes) placements.now }
    ensures { IfOk result (λ lists. map (λ list. list.items) lists.items ≡ spec.lists_of placements.now volumes) }
{
    let mut lists = Vec::new(alloc);
    for _ in 0..volumes {
        lists.push(Vec::new(alloc))?;
    }
    for placed in placements {
        push_at(&mut lists, placed.mother as usize, placed.placement)?;
    }
    Ok(lists)
}

fn push_at(
    lists: &mut [Vec<Placement>],
    mother: usize,
    placement: Placement,
) -> Result<(), NoMemory>
    requires { mother < length lists.old }
    ensures { IfOk result (λ _. map (λ list. list.items) lists.new ≡ slice_set (map (λ list. list.items) lists.old) mother (slice_index_or (map (λ list. list.items) lists.old) mother [] ++ placement ∷ [])) }
{
    lists[mother].push(placement)?;
    Ok(())
}
