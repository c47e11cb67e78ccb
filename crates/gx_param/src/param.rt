ghost use Rattle.std.specs.Prelude.{◌≡◌, ℕ, ◌/◌, ◌%◌, ◌<◌, ◌≤◌, ◌↔◌, unsigned_abs, IsTrue};
ghost use Rattle.gx_param.specs.Param.{place, linear, square, Reaches};

use gx_num::{M, V3};

/// Copy i of a row along an axis.
pub fn linear_at(axis: u8, step: i64, offset: i64, i: u32) -> V3
    requires axis { axis < 3 }
    requires step { unsigned_abs step ≤ unsigned_abs M }
    requires offset { unsigned_abs offset ≤ unsigned_abs M }
    requires copy { i < 4096 }
    ensures { result ≡ linear axis (place offset step i) }
{
    let at = place_of(offset, step, i);
    V3 {
        x: if axis == 0 { at } else { 0 },
        y: if axis == 1 { at } else { 0 },
        z: if axis == 2 { at } else { 0 },
    }
}

/// Copy i of rows of `n1` copies in the plane xy, xz or yz.
pub fn square_at(plane: u8, n1: u32, s1: i64, s2: i64, o1: i64, o2: i64, i: u32) -> V3
    requires plane { plane < 3 }
    requires some { 1 ≤ n1 }
    requires row { n1 ≤ 4096 }
    requires s1 { unsigned_abs s1 ≤ unsigned_abs M }
    requires s2 { unsigned_abs s2 ≤ unsigned_abs M }
    requires o1 { unsigned_abs o1 ≤ unsigned_abs M }
    requires o2 { unsigned_abs o2 ≤ unsigned_abs M }
    requires copy { i < 4096 }
    ensures { result ≡ square plane (place o1 s1 (i % n1)) (place o2 s2 (i / n1)) }
{
    let first = place_of(o1, s1, i % n1);
    let second = place_of(o2, s2, i / n1);
    match plane {
        0 => V3 {
            x: first,
            y: second,
            z: 0,
        },
        1 => V3 {
            x: first,
            y: 0,
            z: second,
        },
        _ => V3 {
            x: 0,
            y: first,
            z: second,
        },
    }
}

/// Whether the first and the last copy of a row are at most `M` away, as then all are.
pub fn reaches(count: u32, step: i64, offset: i64) -> bool
    requires some { 1 ≤ count }
    requires count { count ≤ 4096 }
    requires step { unsigned_abs step ≤ unsigned_abs M }
    requires offset { unsigned_abs offset ≤ unsigned_abs M }
    ensures ends { IsTrue result ↔ Reaches count step offset }
    ensures all { IsTrue result → (i : ℕ) → i < count → unsigned_abs (place offset step i) ≤ unsigned_abs M }
{
    let last = place_of(offset, step, count - 1);
    -M <= offset && offset <= M && -M <= last && last <= M
}

fn place_of(offset: i64, step: i64, i: u32) -> i64
    requires step { unsigned_abs step ≤ unsigned_abs M }
    requires offset { unsigned_abs offset ≤ unsigned_abs M }
    requires copy { i < 4096 }
    ensures { result ≡ place offset step i }
{
    offset + i64::from(i) * step
}
