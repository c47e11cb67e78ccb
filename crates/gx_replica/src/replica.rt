ghost use Rattle.std.specs.Prelude.{◌≡◌, ◌+◌, ◌-◌, ◌*◌, ◌*ℤ◌, ◌%◌, ◌<◌, ◌≤◌, pos, unsigned_abs};
ghost use Rattle.gx_num.specs.Vector.{IsWithin};
ghost use Rattle.gx_replica.specs.Replica as spec;
ghost use Rattle.gx_replica.specs.Replica.{coordinate, along, is_alike_across, fills_along, fills, centre_of};

use gx_num::{M, V3};

/// Whether so many cells of the width fill the mother along the axis; both vectors are half-lengths.
pub fn replica_fits(mother: V3, cell: V3, axis: u8, count: u32, width: i64) -> bool
    requires axis { axis < 3 }
    requires some { 1 ≤ count }
    requires count { count ≤ 4096 }
    requires mother { IsWithin (unsigned_abs M) mother }
    requires cell { IsWithin (unsigned_abs M) cell }
    requires width { unsigned_abs width ≤ 2 * unsigned_abs M }
    ensures { result ≡ fills mother cell axis count width }
{
    fit_along(mother, cell, axis, count, width) && are_alike_across(axis, cell, mother)
}

/// The centre of a copy in the mother.
pub fn replica_at(axis: u8, count: u32, width: i64, i: u32) -> V3
    requires axis { axis < 3 }
    requires copy { i < count }
    requires count { count ≤ 4096 }
    requires width { unsigned_abs width ≤ 2 * unsigned_abs M }
    requires even { unsigned_abs width % 2 ≡ 0 }
    ensures { result ≡ centre_of axis count width i }
{
    let first = -(times(count - 1, width) / 2);
    on_axis_at(axis, first + times(i, width))
}

fn times(n: u32, width: i64) -> i64
    requires n { n ≤ 4096 }
    requires width { unsigned_abs width ≤ 2 * unsigned_abs M }
    ensures value { result ≡ pos n *ℤ width }
    ensures bound { unsigned_abs result ≤ 4096 * (2 * unsigned_abs M) }
{
    i64::from(n) * width
}

// The cell has the width, which is above 0, and so many of them are the mother's length.
fn fit_along(mother: V3, cell: V3, axis: u8, count: u32, width: i64) -> bool
    requires count { count ≤ 4096 }
    requires mother { IsWithin (unsigned_abs M) mother }
    requires cell { IsWithin (unsigned_abs M) cell }
    requires width { unsigned_abs width ≤ 2 * unsigned_abs M }
    ensures { result ≡ fills_along mother cell axis count width }
{
    width > 0 && is_long(mother, axis, count, width) && is_long(cell, axis, 1, width)
}

// So many of the width are the length along the axis.
fn is_long(half: V3, axis: u8, count: u32, width: i64) -> bool
    requires count { count ≤ 4096 }
    requires half { IsWithin (unsigned_abs M) half }
    requires width { unsigned_abs width ≤ 2 * unsigned_abs M }
    ensures { result ≡ spec.is_long axis half count width }
{
    times(count, width) == 2 * on_axis(half, axis)
}

// The half-lengths across the axis are the same.
fn are_alike_across(axis: u8, a: V3, b: V3) -> bool
    ensures { result ≡ is_alike_across axis a b }
{
    (axis == 0 || a.x == b.x) && (axis == 1 || a.y == b.y) && (axis == 2 || a.z == b.z)
}

fn on_axis(v: V3, axis: u8) -> i64
    requires { IsWithin (unsigned_abs M) v }
    ensures value { result ≡ coordinate axis v }
    ensures bound { unsigned_abs result ≤ unsigned_abs M }
{
    match axis {
        0 => v.x,
        1 => v.y,
        _ => v.z,
    }
}

fn on_axis_at(axis: u8, value: i64) -> V3
    ensures { result ≡ along axis value }
{
    V3 {
        x: if axis == 0 { value } else { 0 },
        y: if axis == 1 { value } else { 0 },
        z: if axis == 2 { value } else { 0 },
    }
}
