ghost use Rattle.std.specs.Prelude.{◌≡◌, ◌<◌, length, map, slice_get, Some, IfOk};
ghost use Rattle.gx_tree.specs.Hierarchy.{instances};
ghost use Rattle.gx_sealed.specs.Placed as spec;

use gx_num::{Extent, NoMemory};
use gx_tree::{Hierarchy, Instance};
use std::alloc::Global;

/// A daughter, and her extent in her mother's frame.
#[derive(Clone, Copy)]
pub struct Daughter {
    pub instance: Instance,
    pub extent: Extent,
}

/// The daughters of each volume. A hull is placed for one after another.
pub fn all_daughters(alloc: Global, tree: &Hierarchy) -> Result<Vec<Vec<Daughter>>, NoMemory>
    ensures { IfOk result (λ all. map (λ d. d.items) all.items ≡ spec.all_daughters tree.now) }
{
    let mut all = Vec::with_capacity(alloc, tree.count() as usize)?;
    for v in 0..tree.count() {
        all.push(daughters(alloc, tree, v)?)?;
    }
    Ok(all)
}

fn daughters(alloc: Global, tree: &Hierarchy, v: u32) -> Result<Vec<Daughter>, NoMemory>
    requires { v < length tree.now.volumes }
    ensures { IfOk result (λ daughters. daughters.items ≡ spec.daughters_of tree.now v) }
{
    let count = tree.instances(v);
    let mut daughters = Vec::with_capacity(alloc, count as usize)?;
    for k in 0..count {
        daughters.push(placed(alloc, tree, v, k)?)?;
    }
    Ok(daughters)
}

fn placed(alloc: Global, tree: &Hierarchy, v: u32, k: u32) -> Result<Daughter, NoMemory>
    requires volume { v < length tree.now.volumes }
    requires ordinal { k < length (instances tree.now v) }
    ensures { IfOk result (λ daughter. slice_get (spec.daughters_of tree.now v) k ≡ Some daughter) }
{
    let instance = tree.instance(v, k);
    let hull = tree
        .solid(instance.volume)
        .hull()
        .placed(alloc, instance.rotation, instance.offset)?;
    Ok(Daughter {
        instance,
        extent: hull.extent(),
    })
}
