ghost use Rattle.std.specs.Prelude.{◌≡◌, ◌+◌, ◌*◌, ◌≤◌, ◌^◌, ◌+ℤ◌, ◌*ℤ◌, pos, unsigned_abs, IsTrue};
ghost use Rattle.std.specs.Ordering.{int_cmp, nat_cmp};

use gx_num::cmp_products;
use std::cmp::Ordering;

/// How `k * r + l * s` compares with 0.
pub fn cmp_sum(k: u128, r: i128, l: u128, s: i128) -> Ordering
    ensures { result ≡ int_cmp (pos k *ℤ r +ℤ pos l *ℤ s) (pos 0) }
{
    if are_short(k, r) {
        if are_short(l, s) {
            return plus(times(k, r), times(l, s)).cmp(&0);
        }
    }
    cmp_long_sum(k, r, l, s)
}

// Their product can be formed, and added to another such.
fn are_short(k: u128, r: i128) -> bool
    ensures { IsTrue result → (k ≤ 2 ^ 62) × (unsigned_abs r ≤ 2 ^ 62) }
{
    k <= 1 << 62 && r.unsigned_abs() <= 1 << 62
}

fn times(k: u128, r: i128) -> i128
    requires k { k ≤ 2 ^ 62 }
    requires r { unsigned_abs r ≤ 2 ^ 62 }
    ensures value { result ≡ pos k *ℤ r }
    ensures bound { unsigned_abs result ≤ 2 ^ 124 }
{
    (k as i128) * r
}

fn plus(a: i128, b: i128) -> i128
    requires first { unsigned_abs a ≤ 2 ^ 124 }
    requires second { unsigned_abs b ≤ 2 ^ 124 }
    ensures { result ≡ a +ℤ b }
{
    a + b
}

// The same for all numbers: no product is formed.
fn cmp_long_sum(k: u128, r: i128, l: u128, s: i128) -> Ordering
    ensures { result ≡ int_cmp (pos k *ℤ r +ℤ pos l *ℤ s) (pos 0) }
{
    match (r < 0, s < 0) {
        (true, false) => cmp_products(l, s.unsigned_abs(), k, r.unsigned_abs()),
        (false, true) => cmp_products(k, r.unsigned_abs(), l, s.unsigned_abs()),
        (false, false) => cmp_both(k, r.unsigned_abs(), l, s.unsigned_abs()),
        (true, true) => cmp_both(k, r.unsigned_abs(), l, s.unsigned_abs()).reverse(),
    }
}

// How `k * r + l * s` compares with 0.
fn cmp_both(k: u128, r: u128, l: u128, s: u128) -> Ordering
    ensures { result ≡ nat_cmp (k * r + l * s) 0 }
{
    let first = cmp_products(k, r, 0, 0);
    if first.is_gt() {
        return Ordering::Greater;
    }
    cmp_products(l, s, 0, 0)
}
