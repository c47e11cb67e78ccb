ghost use Rattle.std.specs.Prelude.{◌≡◌, ◌<◌, ◌≤◌, ◌+◌, [], IfOk, OnOk};
ghost use Rattle.gx_voxel.specs.Cut.{members_in};
ghost use Rattle.gx_refine.specs.Known.{AreKnown, along};
ghost use Rattle.gx_refine.specs.Near.{members_of, IsNear};

use crate::grid::{Slices, members_between};
use gx_num::{Extent, NoMemory};
use std::alloc::Global;

// So many slices have their members from those that stand in any of them.
const BLOCK: u32 = 16;

/// The members that stand in slices up to, and without, one.
#[derive(Drop)]
pub struct Near {
    members: Vec<u32>,
    until: u32,
}

impl Near {
    /// Before the first slice.
    pub fn none(alloc: Global) -> Near
        ensures members { result.members.items ≡ [] }
        ensures until { result.until ≡ 0 }
    {
        Near {
            members: Vec::new(alloc),
            until: 0,
        }
    }

    /// The members in slice i, the next one.
    pub fn slice(
        &mut self,
        alloc: Global,
        extents: &[Extent],
        axis: u8,
        members: &[u32],
        slices: &Slices,
        i: u32,
    ) -> Result<Vec<u32>, NoMemory>
        requires known { AreKnown extents.now members.now }
        requires i { i < slices.now.count }
        requires near { IsNear extents.now axis members.now slices.now i self.old.members.items self.old.until }
        ensures value { IfOk result (λ v. v.items ≡ members_in (along extents.now axis) members.now slices.now i) }
        ensures near { OnOk result (IsNear extents.now axis members.now slices.now (i + 1) self.new.members.items self.new.until) }
    {
        if i == self.until {
            *self = Near::of_block(alloc, extents, axis, members, slices, i)?;
        }
        members_of(alloc, extents, axis, &self.members, slices, i, i + 1)
    }

    // Those of a block of slices.
    fn of_block(
        alloc: Global,
        extents: &[Extent],
        axis: u8,
        members: &[u32],
        slices: &Slices,
        i: u32,
    ) -> Result<Near, NoMemory>
        requires known { AreKnown extents.now members.now }
        requires i { i < slices.now.count }
        ensures near { IfOk result (λ near. IsNear extents.now axis members.now slices.now i near.members.items near.until) }
        ensures some { IfOk result (λ near. i < near.until) }
    {
        let count = slices.count() as u32;
        let until = (i + BLOCK).min(count);
        let members = members_of(alloc, extents, axis, members, slices, i, until)?;
        Ok(Near { members, until })
    }
}

// The members in the slices from one up to, and without, another.
fn members_of(
    alloc: Global,
    extents: &[Extent],
    axis: u8,
    members: &[u32],
    slices: &Slices,
    first: u32,
    until: u32,
) -> Result<Vec<u32>, NoMemory>
    requires known { AreKnown extents.now members.now }
    requires some { 0 < slices.now.count }
    requires first { first ≤ slices.now.count }
    requires until { until ≤ slices.now.count }
    ensures { IfOk result (λ v. v.items ≡ members_of (along extents.now axis) members.now slices.now first until) }
{
    let from = slices.bound(u64::from(first));
    let to = slices.bound(u64::from(until));
    members_between(alloc, extents, axis, members, from, to)
}
