//! Hierarchies: how long their volumes take to be judged, and their daughters to be found.

use gx_hull::Solid;
use gx_num::V3;
use gx_rotation::Rotation;
use gx_shapes::SolidKind;
use gx_solids::solid;
use gx_tree::{Hierarchy, Placement, Volume, are_within_limits};
use std::alloc::Global;

/// Judges the volumes of a scene so many times, and tells how many they are.
pub fn judged(alloc: Global, scene: &str, times: u32) -> Option<u32> {
    let mut tree = hierarchy(alloc, volumes(alloc, scene)?)?;
    for _ in 0..times {
        tree = hierarchy(alloc, tree.into_volumes())?;
    }
    Some(tree.count())
}

/// Finds each daughter of a scene by her ordinal so many times, and tells how many are found.
pub fn found(alloc: Global, scene: &str, times: u32) -> Option<u64> {
    let tree = hierarchy(alloc, volumes(alloc, scene)?)?;
    let mut found = 0u64;
    for _ in 0..times {
        for v in 0..tree.count() {
            found = found.saturating_add(daughters(&tree, v)?);
        }
    }
    Some(found)
}

fn daughters(tree: &Hierarchy, v: u32) -> Option<u64> {
    if v >= tree.count() {
        return None;
    }
    let mut found = 0u64;
    for k in 0..tree.instances(v) {
        if tree.instance(v, k).volume < tree.count() {
            found = found.saturating_add(1);
        }
    }
    Some(found)
}

fn hierarchy(alloc: Global, volumes: Vec<Volume>) -> Option<Hierarchy> {
    if !are_within_limits(&volumes) {
        return None;
    }
    Hierarchy::new(alloc, volumes).ok()
}

// `wide`: 16 mothers of 4095 daughters each, among 4096 volumes; `layers`: 31 layers of 132 volumes below the world, each
// with 16 of the next.
fn volumes(alloc: Global, scene: &str) -> Option<Vec<Volume>> {
    let solid = solid(alloc, SolidKind::Cuboid, &[1, 1, 1]).ok()?;
    let mut volumes = Vec::new(alloc);
    match scene {
        "wide" => {
            for v in 0..4096u32 {
                volumes.push(volume(alloc, &solid, wide(alloc, v)?)?).ok()?;
            }
        }
        "layers" => {
            for v in 0..4093u32 {
                volumes
                    .push(volume(alloc, &solid, layered(alloc, v)?)?)
                    .ok()?;
            }
        }
        _ => return None,
    }
    Some(volumes)
}

fn wide(alloc: Global, v: u32) -> Option<Vec<Placement>> {
    let mut placements = Vec::new(alloc);
    if v < 16 {
        for i in 0..4095u32 {
            let daughter = if v == 0 { i + 1 } else { 16 + i % 4080 };
            placements.push(single(daughter)).ok()?;
        }
    }
    Some(placements)
}

fn layered(alloc: Global, v: u32) -> Option<Vec<Placement>> {
    let mut placements = Vec::new(alloc);
    if v == 0 {
        for i in 0..132u32 {
            placements.push(single(i + 1)).ok()?;
        }
    } else if v <= 3960 {
        let next = (v - 1) / 132 * 132 + 133;
        for i in 0..16u32 {
            placements.push(single(next + (v - 1 + 7 * i) % 132)).ok()?;
        }
    }
    Some(placements)
}

fn volume(alloc: Global, solid: &Solid, placements: Vec<Placement>) -> Option<Volume> {
    Some(Volume::new(
        Vec::from_slice(alloc, b"v").ok()?,
        solid.copy(alloc).ok()?,
        Vec::from_slice(alloc, b"Air").ok()?,
        placements,
    ))
}

fn single(volume: u32) -> Placement {
    Placement::Single {
        volume,
        copy: 1,
        rotation: Rotation::new(0),
        offset: V3 { x: 0, y: 0, z: 0 },
    }
}
