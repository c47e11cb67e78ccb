ghost use Rattle.std.specs.Prelude.{◌≡◌, [], ◌∷◌, ◌<◌, ◌≤◌, ◌<ℤ◌, length, IfOk};
ghost use Rattle.std.specs.List.{All, range_with_len};
ghost use Rattle.std.proofs.Common.{inr};
ghost use Rattle.gx_voxel.specs.Members.{extent_at};
ghost use Rattle.gx_boxes.specs.Boxes.{IsProper};
ghost use Rattle.gx_voxel.specs.Cells.{without};
ghost use Rattle.gx_voxel.specs.Proxy.{content_of, axis_of, list_of, AreRuns, IsNode, IsRun, StandsWithin, StandsFor};
ghost use Rattle.gx_refine.specs.Known.{AreKnown};

use crate::best::cut;
use crate::runs::Part;
use gx_num::{Extent, NoMemory};
use gx_voxel::{Header, Members, Proxy, Run};
use std::alloc::Global;

/// The tree of headers that stands for the cells of all extents, cut along the three axes: of extents that aren't empty on any axis, in steps.
pub fn build(alloc: Global, extents: &[Extent]) -> Result<Proxy, NoMemory>
    requires few { length extents.now ≤ 4096 }
    requires proper { All IsProper extents.now }
    ensures { IfOk result (λ p. StandsFor (extent_at extents.now) p (range_with_len 0 (length extents.now)) (0 ∷ 1 ∷ 2 ∷ [])) }
{
    let members = all_below(alloc, extents.len() as u32)?;
    refine(alloc, 3, extents, &members, &[0, 1, 2])
}

#[tactic(auto, using(crate::proofs::Ranges::range_from_zero))]
fn all_below(alloc: Global, count: u32) -> Result<Vec<u32>, NoMemory>
    ensures { IfOk result (λ v. v.items ≡ range_with_len 0 count) }
{
    let mut members = Vec::new(alloc);
    for k in 0..count {
        members.push(k)?;
    }
    Ok(members)
}

// The tree of headers for some members, cut along the axes left at most so many times.
fn refine(
    alloc: Global,
    cuts: u32,
    extents: &[Extent],
    members: &[u32],
    axes: &[u8],
) -> Result<Proxy, NoMemory>
    requires known { AreKnown extents.now members.now }
    requires axes { All (λ a. a < 3) axes.now }
    ensures { IfOk result (λ p. StandsWithin (extent_at extents.now) cuts p members.now axes.now) }
{
    if cuts == 0 {
        return node(alloc, extents, members);
    }
    let Some(cut) = cut(alloc, extents, members, axes)? else {
        return node(alloc, extents, members);
    };
    let left = without(alloc, cut.axis, axes)?;
    let mut runs = Vec::new(alloc);
    for part in &cut.runs {
        let proxy = refine(alloc, cuts - 1, extents, &part.members, &left)?;
        runs.push(run_with(part, proxy))?;
    }
    header(alloc, cut.axis, runs)
}

fn run_with(part: &Part, proxy: Proxy) -> Run
    requires slices { part.now.first ≤ part.now.last }
    requires bounds { part.now.low <ℤ part.now.high }
    ensures { IsRun (λ q _. q ≡ proxy) result part.now }
{
    Run::new(part.first, part.last, part.low, part.high, proxy)
}

fn node(alloc: Global, extents: &[Extent], members: &[u32]) -> Result<Proxy, NoMemory>
    requires { AreKnown extents.now members.now }
    ensures { IfOk result (λ p. IsNode (extent_at extents.now) p members.now) }
{
    Ok(Proxy::Node(Members::boxed(alloc, Vec::from_slice(alloc, members)?, extents)?))
}

fn header(alloc: Global, axis: u8, runs: Vec<Run>) -> Result<Proxy, NoMemory>
    requires axis { axis < 3 }
    requires runs { AreRuns runs.items }
    ensures { IfOk result (λ p. (h : Header) × (content_of p ≡ inr h) × (axis_of h ≡ axis) × (list_of h ≡ runs.items)) }
{
    Ok(Proxy::Refined(Box::new(alloc, Header::new(axis, runs))?))
}

fn without(alloc: Global, axis: u8, axes: &[u8]) -> Result<Vec<u8>, NoMemory>
    ensures { IfOk result (λ v. v.items ≡ without axis axes.now) }
{
    let mut left = Vec::new(alloc);
    for a in axes {
        if *a != axis {
            left.push(*a)?;
        }
    }
    Ok(left)
}
