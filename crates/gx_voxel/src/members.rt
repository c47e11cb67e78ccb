ghost use Rattle.std.specs.Prelude.{◌≡◌, ◌<◌, ℕ, [], length, map, slice_index, IfOk};
ghost use Rattle.std.specs.List.{All, AllByRecursion};
ghost use Rattle.std.specs.List.Sorted.{IsPermutation};
ghost use Rattle.gx_num.specs.declared.extent.Extent.{Extent};
ghost use Rattle.gx_offers.specs.Offers.{IsOffered};
ghost use Rattle.gx_boxes.specs.Boxes.{IsProper, IsNear, IsMet};
ghost use Rattle.gx_voxel.specs.Members.{AreMembers, AreKept, extent_at};

use gx_boxes::{BoxTree, Boxed};
use gx_num::{Extent, NoMemory, Ray};
use gx_offers::Offers;
use std::alloc::Global;
use std::marker::Model;

/// The numbers of some members, in increasing order, and their boxes, if these are kept.
#[derive(Drop)]
pub struct Members {
    list: Vec<u32>,
    tree: Option<BoxTree>,
}

impl Model for Members {
    ghost use Rattle.gx_voxel.specs.Members.{Held};
    ghost use Rattle.gx_voxel.specs.Kept.{AreHeld, kept_by};

    ghost Value = { Held };

    ghost view = { λ m. record { numbers = m.list.items; boxes = kept_by m.tree } };

    ghost invariant = { λ m. AreHeld m.list.items m.tree };
}

impl Members {
    /// At most 4096 numbers that increase, without their boxes.
    pub fn new(list: Vec<u32>) -> Members
        requires { AreMembers list.items }
        ensures { result ≡ record { numbers = list.items; boxes = [] } }
    {
        Members { list, tree: None }
    }

    /// The same with the boxes of the members, whose extents are given by their numbers; fewer than 4 have none.
    pub fn boxed(alloc: Global, list: Vec<u32>, extents: &[Extent]) -> Result<Members, NoMemory>
        requires members { AreMembers list.items }
        requires below { All (λ k. k < length extents.now) list.items }
        requires proper { All IsProper extents.now }
        ensures numbers { IfOk result (λ m. m.numbers ≡ list.items) }
        ensures kept { IfOk result (λ m. AreKept (extent_at extents.now) m) }
    {
        if list.len() < 4 {
            return Ok(Members { list, tree: None });
        }
        let tree = tree_of(alloc, &list, extents)?;
        Ok(Members {
            list,
            tree: Some(tree),
        })
    }

    /// How many there are.
    pub fn count(&self) -> u32
        ensures count { result ≡ length self.now.numbers }
        ensures members { AreMembers self.now.numbers }
    {
        self.list.len() as u32
    }

    /// The i-th number, from 0.
    pub fn at(&self, i: u32) -> u32
        requires { i < length self.now.numbers }
        ensures { result ≡ slice_index self.now.numbers i }
    {
        self.list[i as usize]
    }

    /// The numbers of the members whose boxes the ray meets come, and of others maybe; of all, where no boxes are kept.
    pub fn offer(&self, ray: &Ray, offers: &mut Offers)
        requires ray { IsNear ray.now }
        requires room { All (λ k. k < offers.old.room) self.now.numbers }
        ensures { (at : ℕ → Extent) → AreKept at self.now → IsOffered (λ k. IsMet (at k) ray.now) self.now.numbers offers.old offers.new }
    {
        if let Some(tree) = &self.tree {
            tree.offer(ray, offers);
        } else {
            offer_all(&self.list, offers);
        }
    }
}

fn offer_all(list: &[u32], offers: &mut Offers)
    requires { All (λ k. k < offers.old.room) list.now }
    ensures { IsOffered (λ k. Unit {0}) list.now offers.old offers.new }
{
    for k in list {
        offers.offer(*k);
    }
}

fn tree_of(alloc: Global, list: &[u32], extents: &[Extent]) -> Result<BoxTree, NoMemory>
    requires below { All (λ k. k < length extents.now) list.now }
    requires proper { All IsProper extents.now }
    ensures same { IfOk result (λ t. IsPermutation list.now (map (λ b. b.number) t)) }
    ensures kept { IfOk result (λ t. AllByRecursion (λ b. b.extent ≡ extent_at extents.now b.number) t) }
{
    let mut boxes = Vec::with_capacity(alloc, list.len())?;
    for k in list {
        boxes.push(Boxed {
            number: *k,
            extent: extents[*k as usize],
        })?;
    }
    BoxTree::new(alloc, boxes)
}
