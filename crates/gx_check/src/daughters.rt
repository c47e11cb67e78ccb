ghost use Rattle.std.specs.Prelude.{◌≡◌, ◌<◌, ◌≤◌, [], length, slice_index_or, IsTrue, IfOk};
ghost use Rattle.gx_convex.specs.Extent.{extent_of};
ghost use Rattle.gx_hull.specs.Hull.{IsVertices};
ghost use Rattle.gx_common.specs.Reached.{are_extents_apart};
ghost use Rattle.gx_tree.specs.Hierarchy.{instances};
ghost use Rattle.gx_check.specs.Kept.{AreParted};
ghost use Rattle.gx_check.specs.Verdicts.{placed_daughters};

use gx_common::are_apart;
use gx_hull::Hull;
use gx_num::{Extent, NoMemory};
use gx_tree::Hierarchy;
use std::alloc::Global;
use std::marker::Model;

/// The daughters of one mother in her frame, by their ordinals. Contracts see the vertices of each.
#[derive(Drop)]
pub struct Daughters {
    hulls: Vec<Hull>,
    // Beside the hulls, so that pairs are told apart in one pass over flat memory.
    extents: Vec<Extent>,
}

impl Model for Daughters {
    ghost use Rattle.std.specs.Prelude.{List};
    ghost use Rattle.gx_num.specs.declared.vector.V3.{V3 as Point};
    ghost use Rattle.gx_check.specs.Kept.{AreKept};

    ghost Value = { List (List Point) };

    ghost view = { λ d. d.hulls.items };

    ghost invariant = { λ d. AreKept d.hulls.items d.extents.items };
}

impl Daughters {
    /// Those of a volume, each placed once.
    pub fn placed(alloc: Global, tree: &Hierarchy, mother: u32) -> Result<Daughters, NoMemory>
        requires { mother < length tree.now.volumes }
        ensures value { IfOk result (λ daughters. daughters ≡ placed_daughters tree.now mother) }
        ensures few { IfOk result (λ daughters. length daughters ≤ 4096) }
    {
        let count = tree.instances(mother) as usize;
        let mut hulls = Vec::with_capacity(alloc, count)?;
        let mut extents = Vec::with_capacity(alloc, count)?;
        for ordinal in 0..tree.instances(mother) {
            let hull = placed(alloc, tree, mother, ordinal)?;
            extents.push(hull.extent())?;
            hulls.push(hull)?;
        }
        Ok(Daughters { hulls, extents })
    }

    pub fn count(&self) -> u32
        ensures value { result ≡ length self.now }
        ensures few { result ≤ 4096 }
    {
        self.hulls.len() as u32
    }

    /// The daughter with this ordinal.
    pub fn hull(&self, ordinal: u32) -> &Hull
        requires { ordinal < length self.now }
        ensures { result.now ≡ slice_index_or self.now ordinal [] }
    {
        &self.hulls[ordinal as usize]
    }

    /// The extents of the two are apart or touch, so a plane is between them.
    pub fn are_apart(&self, first: u32, second: u32) -> bool
        requires first { first < length self.now }
        requires second { second < length self.now }
        ensures value { result ≡ are_extents_apart (extent_of (slice_index_or self.now first [])) (extent_of (slice_index_or self.now second [])) }
        ensures parted { IsTrue result → AreParted self.now first second }
    {
        are_apart(self.extents[first as usize], self.extents[second as usize])
    }
}

// The daughter's hull in her mother's frame.
fn placed(alloc: Global, tree: &Hierarchy, mother: u32, ordinal: u32) -> Result<Hull, NoMemory>
    requires mother { mother < length tree.now.volumes }
    requires ordinal { ordinal < length (instances tree.now mother) }
    ensures value { IfOk result (λ hull. hull ≡ slice_index_or (placed_daughters tree.now mother) ordinal []) }
    ensures kept { IfOk result IsVertices }
{
    let instance = tree.instance(mother, ordinal);
    let hull = tree
        .solid(instance.volume)
        .hull()
        .placed(alloc, instance.rotation, instance.offset)?;
    // What each hull keeps is known from here on.
    let _ = hull.vertices();
    Ok(hull)
}
