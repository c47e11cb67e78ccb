ghost use Rattle.std.specs.Prelude.{◌≡◌, ◌<◌, ◌≤◌, filter, map, length, IfOk, unsigned_abs};
ghost use Rattle.std.specs.Int.{int_min, int_max};
ghost use Rattle.std.specs.List.{All};
ghost use Rattle.gx_boxes.specs.Boxes.{IsProper, reach};
ghost use Rattle.gx_voxel.specs.Members.{extent_at};
ghost use Rattle.gx_voxel.specs.Cut.{coordinate, interval_on, least, greatest, grid_of, bound_at, meets};
ghost use Rattle.gx_refine.specs.Known.{AreKnown, along};

use gx_num::{Extent, NoMemory, V3};
use std::alloc::Global;
use std::marker::Model;

/// The slices of an axis: where they begin, how far they go, and how many they are.
#[derive(Drop)]
pub struct Slices {
    low: i64,
    span: u64,
    count: u64,
}

impl Model for Slices {
    ghost use Rattle.gx_voxel.specs.Cut.{Grid};
    ghost use Rattle.gx_refine.specs.Known.{IsSmall};

    ghost Value = { Grid };

    ghost view = { λ s. record { low = s.low; span = s.span; count = s.count } };

    ghost invariant = { λ s. IsSmall (record { low = s.low; span = s.span; count = s.count }) };
}

impl Slices {
    /// Those of some members, of which there is one.
    pub fn new(extents: &[Extent], axis: u8, members: &[u32]) -> Slices
        requires known { AreKnown extents.now members.now }
        requires some { 0 < length members.now }
        ensures value { result ≡ grid_of (along extents.now axis) members.now }
        ensures some { 0 < result.count }
    {
        let low = least(extents, axis, members);
        let high = greatest(extents, axis, members);
        let span = (high - low).unsigned_abs();
        Slices {
            low,
            span,
            count: (2 * members.len() as u64).min(1000).min(span),
        }
    }

    pub fn count(&self) -> u64
        ensures value { result ≡ self.now.count }
        ensures few { result ≤ 1000 }
    {
        self.count
    }

    /// Where slice i begins, and the one before it ends.
    #[tactic(auto, unfolding(gx_voxel::specs::Cut::bound_at))]
    pub fn bound(&self, i: u64) -> i64
        requires some { 0 < self.now.count }
        requires i { i ≤ self.now.count }
        ensures { result ≡ bound_at self.now i }
    {
        self.low + ((self.span * i) / self.count) as i64
    }
}

fn coordinate(axis: u8, v: V3) -> i64
    ensures { result ≡ coordinate axis v }
{
    if axis == 0 {
        v.x
    } else if axis == 1 {
        v.y
    } else {
        v.z
    }
}

#[tactic(auto, unfolding(gx_voxel::specs::Cut::interval_on))]
fn low(extents: &[Extent], axis: u8, k: u32) -> i64
    requires known { k < length extents.now }
    requires proper { All IsProper extents.now }
    ensures value { result ≡ (along extents.now axis k).low }
    ensures bound { unsigned_abs result ≤ reach }
{
    coordinate(axis, extents[k as usize].low)
}

#[tactic(auto, unfolding(gx_voxel::specs::Cut::interval_on))]
fn high(extents: &[Extent], axis: u8, k: u32) -> i64
    requires known { k < length extents.now }
    requires proper { All IsProper extents.now }
    ensures value { result ≡ (along extents.now axis k).high }
    ensures bound { unsigned_abs result ≤ reach }
{
    coordinate(axis, extents[k as usize].high)
}

#[tactic(auto, using(std::proofs::lemmas::List::Sums::fold_more, crate::proofs::Least::least_is))]
fn least(extents: &[Extent], axis: u8, members: &[u32]) -> i64
    requires known { AreKnown extents.now members.now }
    requires some { 0 < length members.now }
    ensures value { result ≡ least (map (λ k. (along extents.now axis k).low) members.now) }
    ensures bound { unsigned_abs result ≤ reach }
{
    let mut least = low(extents, axis, members[0]);
    for k in members {
        least = lesser(least, low(extents, axis, *k));
    }
    least
}

#[tactic(auto, using(std::proofs::lemmas::List::Sums::fold_more, crate::proofs::Least::greatest_is))]
fn greatest(extents: &[Extent], axis: u8, members: &[u32]) -> i64
    requires known { AreKnown extents.now members.now }
    requires some { 0 < length members.now }
    ensures value { result ≡ greatest (map (λ k. (along extents.now axis k).high) members.now) }
    ensures bound { unsigned_abs result ≤ reach }
{
    let mut greatest = high(extents, axis, members[0]);
    for k in members {
        greatest = greater(greatest, high(extents, axis, *k));
    }
    greatest
}

fn lesser(a: i64, b: i64) -> i64
    requires a { unsigned_abs a ≤ reach }
    requires b { unsigned_abs b ≤ reach }
    ensures value { result ≡ int_min a b }
    ensures bound { unsigned_abs result ≤ reach }
{
    a.min(b)
}

fn greater(a: i64, b: i64) -> i64
    requires a { unsigned_abs a ≤ reach }
    requires b { unsigned_abs b ≤ reach }
    ensures value { result ≡ int_max a b }
    ensures bound { unsigned_abs result ≤ reach }
{
    a.max(b)
}

/// The members whose open intervals have a point from one coordinate up to, and without, another.
pub fn members_between(
    alloc: Global,
    extents: &[Extent],
    axis: u8,
    members: &[u32],
    from: i64,
    to: i64,
) -> Result<Vec<u32>, NoMemory>
    requires known { AreKnown extents.now members.now }
    ensures { IfOk result (λ v. v.items ≡ filter (λ k. meets (along extents.now axis k) from to) members.now) }
{
    let mut list = Vec::new(alloc);
    for k in members {
        if is_between(extents, axis, *k, from, to) {
            list.push(*k)?;
        }
    }
    Ok(list)
}

#[tactic(auto, unfolding(gx_voxel::specs::Cut::meets))]
fn is_between(extents: &[Extent], axis: u8, k: u32, from: i64, to: i64) -> bool
    requires known { k < length extents.now }
    requires proper { All IsProper extents.now }
    ensures { result ≡ meets (along extents.now axis k) from to }
{
    low(extents, axis, k) < to && from < high(extents, axis, k)
}
