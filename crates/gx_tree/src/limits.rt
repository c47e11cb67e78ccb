ghost use Rattle.std.specs.Prelude.{◌≡◌, ◌≤◌, ◌↔◌, sum_by, unsigned_abs, IsTrue, IfSome, IfNone};
ghost use Rattle.gx_tree.specs.Volume.{copies_of};
ghost use Rattle.gx_tree.specs.Limits.{AreCopies, IsRow, IsInRange, IsPlaceable, IsWithinLimits};
ghost use Rattle.gx_tree.specs.Ends.{IsMother, IsGiven};

use crate::{Placement, Volume};
use gx_num::M;
use gx_param::reaches;

/// Whether a hierarchy of these volumes can be judged: at most 4096 volumes, 4096 daughters of one mother and 65536 of all,
/// of volumes in the list, with offsets, rows and widths in their ranges.
pub fn are_within_limits(volumes: &[Volume]) -> bool
    ensures { IsTrue result ↔ IsWithinLimits volumes.now }
{
    if volumes.len() > 4096 {
        return false;
    }
    let mut all = 0;
    for volume in volumes {
        let Some(count) = instance_count(volume.placements(), volumes.len()) else {
            return false;
        };
        all += count;
    }
    all <= 65536
}

// How many instances the placements stand for, where each is in range and they are few.
fn instance_count(placements: &[Placement], volumes: usize) -> Option<u32>
    ensures mother { IfSome result (λ _. IsMother volumes placements.now) }
    ensures count { IfSome result (λ count. count ≡ sum_by copies_of placements.now) }
    ensures none { IfNone result (IsMother volumes placements.now → ⊥) }
{
    let mut count = 0;
    for placement in placements {
        if !is_placeable(placement, volumes) {
            return None;
        }
        count += placement.count();
        if count > 4096 {
            return None;
        }
    }
    Some(count)
}

fn is_placeable(placement: &Placement, count: usize) -> bool
    ensures { IsTrue result ↔ IsPlaceable count placement.now }
{
    (placement.volume() as usize) < count && is_in_range(placement)
}

fn is_in_range(placement: &Placement) -> bool
    ensures { IsTrue result ↔ IsInRange placement.now }
{
    match *placement {
        Placement::Single { offset, .. } => {
            is_near(offset.x, M) && is_near(offset.y, M) && is_near(offset.z, M)
        }
        Placement::Replica {
            axis,
            count,
            width,
            ..
        } => is_count(axis, count) && is_near(width, 2 * M),
        Placement::Linear {
            axis,
            count,
            step,
            offset,
            ..
        } => is_row(axis, count, step, offset),
        Placement::Square {
            plane,
            first_count,
            second_count,
            first_step,
            second_step,
            first_offset,
            second_offset,
            ..
        } => {
            is_row(plane, first_count, first_step, first_offset)
                && is_row(plane, second_count, second_step, second_offset)
        }
    }
}

fn is_row(axis: u8, count: u32, step: i64, offset: i64) -> bool
    ensures { IsTrue result ↔ IsRow axis count step offset }
{
    is_given(axis, count, step, offset) && reaches(count, step, offset)
}

fn is_given(axis: u8, count: u32, step: i64, offset: i64) -> bool
    ensures { IsTrue result ↔ IsGiven axis count step offset }
{
    is_count(axis, count) && is_near(step, M) && is_near(offset, M)
}

fn is_count(axis: u8, count: u32) -> bool
    ensures { IsTrue result ↔ AreCopies axis count }
{
    axis < 3 && 1 <= count && count <= 4096
}

fn is_near(value: i64, bound: i64) -> bool
    ensures { IsTrue result ↔ (unsigned_abs value ≤ unsigned_abs bound) }
{
    value.unsigned_abs() <= bound.unsigned_abs()
}
