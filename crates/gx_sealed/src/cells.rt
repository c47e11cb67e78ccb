ghost use Rattle.std.specs.Prelude.{◌≡◌, ◌<◌, false, map, length, slice_get, Some, IfOk, MatchOption};
ghost use Rattle.std.specs.Option.{ForSome};
ghost use Rattle.gx_tree.specs.declared.placement.Placement.{Placement};
ghost use Rattle.gx_tree.specs.declared.placement.Placement.TheVariants.{Replica};
ghost use Rattle.gx_voxel.specs.Cut.{coordinate};
ghost use Rattle.gx_sealed.specs.Placed.{daughters_of, all_daughters};
ghost use Rattle.gx_sealed.specs.Cells.{IsCells, AreCells, is_replica};

use crate::placed::Daughter;
use gx_num::{Extent, NoMemory, V3};
use gx_refine::build;
use gx_tree::{Hierarchy, Placement};
use gx_voxel::Proxy;
use std::alloc::Global;

/// What the space of a mother is cut into for rays.
#[derive(Drop)]
pub enum Cells {
    /// A tree of headers over the extents of her daughters.
    Tree(Proxy),
    /// The copies of a replica, which fill her along an axis, each from where the one before it ends; the first begins at `low`.
    Replicas {
        axis: u8,
        low: i64,
        width: i64,
        count: u32,
    },
}

/// The cells of each volume.
pub fn all_cells(
    alloc: Global,
    tree: &Hierarchy,
    daughters: &[Vec<Daughter>],
) -> Result<Vec<Cells>, NoMemory>
    requires { map (λ d. d.items) daughters.now ≡ all_daughters tree.now }
    ensures { IfOk result (λ all. AreCells tree.now all.items) }
{
    let mut all = Vec::with_capacity(alloc, tree.count() as usize)?;
    for v in 0..tree.count() {
        all.push(cells_of(alloc, tree, v, &daughters[v as usize])?)?;
    }
    Ok(all)
}

fn cells_of(
    alloc: Global,
    tree: &Hierarchy,
    v: u32,
    daughters: &[Daughter],
) -> Result<Cells, NoMemory>
    requires volume { v < length tree.now.volumes }
    requires daughters { daughters.now ≡ daughters_of tree.now v }
    ensures { IfOk result (IsCells tree.now v) }
{
    // How few daughters each volume has is known from here on.
    let _ = tree.instances(v);
    match replica(tree.placements(v)) {
        Some(
            Copies {
                axis,
                count,
                width,
                ..
            },
        ) => Ok(Cells::Replicas {
            axis,
            low: lowest(axis, daughters),
            width,
            count,
        }),
        None => Ok(Cells::Tree(build(alloc, &extents(alloc, daughters)?)?)),
    }
}

// A placement of copies that fill a mother.
#[derive(Clone, Copy)]
struct Copies {
    volume: u32,
    axis: u8,
    count: u32,
    width: i64,
}

// The first placement, where it is one.
fn replica(placements: &[Placement]) -> Option<Copies>
    ensures { MatchOption result ((p : Placement) → slice_get placements.now 0 ≡ Some p → is_replica p ≡ false) (λ r. slice_get placements.now 0 ≡ Some (Replica r.volume r.axis r.count r.width)) }
{
    match placements.first() {
        Some(
            &Placement::Replica {
                volume,
                axis,
                count,
                width,
            },
        ) => Some(Copies {
            volume,
            axis,
            count,
            width,
        }),
        _ => None,
    }
}

// Where the first of the daughters begins on an axis.
fn lowest(axis: u8, daughters: &[Daughter]) -> i64
    requires { 0 < length daughters.now }
    ensures { ForSome (slice_get daughters.now 0) (λ d. result ≡ coordinate axis d.extent.low) }
{
    on_axis(axis, daughters[0].extent.low)
}

fn extents(alloc: Global, daughters: &[Daughter]) -> Result<Vec<Extent>, NoMemory>
    ensures { IfOk result (λ extents. extents.items ≡ map (λ d. d.extent) daughters.now) }
{
    let mut extents = Vec::with_capacity(alloc, daughters.len())?;
    for daughter in daughters {
        extents.push(daughter.extent)?;
    }
    Ok(extents)
}

fn on_axis(axis: u8, v: V3) -> i64
    ensures { result ≡ coordinate axis v }
{
    match axis {
        0 => v.x,
        1 => v.y,
        _ => v.z,
    }
}
