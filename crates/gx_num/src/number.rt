ghost use Rattle.std.specs.Prelude.{◌≡◌, ◌*◌, ◌<◌, IfSome};
ghost use Rattle.std.specs.Int.{IsGcd};
ghost use Rattle.std.specs.Ordering.{nat_cmp};
ghost use Rattle.gx_num.specs.Number.{sign_of};

use std::cmp::Ordering;

/// The greatest common divisor; of 0 and 0 it is 0.
pub fn gcd(a: u128, b: u128) -> u128
    ensures { IsGcd a b result }
{
    let mut x = a;
    let mut y = b;
    while y > u128::from(u64::MAX) {
        let rest = x % y;
        x = y;
        y = rest;
    }
    if y == 0 {
        return x;
    }
    u128::from(short_gcd(y as u64, (x % y) as u64))
}

// The same in 64 bits.
fn short_gcd(a: u64, b: u64) -> u64
    ensures { IsGcd a b result }
{
    let mut x = a;
    let mut y = b;
    while y != 0 {
        let rest = x % y;
        x = y;
        y = rest;
    }
    x
}

/// -1, 0 or 1.
pub fn sign(a: i128) -> i8
    ensures { result ≡ sign_of a }
{
    if a > 0 {
        1
    } else if a < 0 {
        -1
    } else {
        0
    }
}

/// How `a * b` compares with `c * d`.
pub fn cmp_products(a: u128, b: u128, c: u128, d: u128) -> Ordering
    ensures { result ≡ nat_cmp (a * b) (c * d) }
{
    match cmp_short_products(a, b, c, d) {
        Some(order) => order,
        None => cmp_long_products(a, b, c, d),
    }
}

// The same where all four fit 64 bits, and so the products 128.
fn cmp_short_products(a: u128, b: u128, c: u128, d: u128) -> Option<Ordering>
    ensures { IfSome result (λ order. order ≡ nat_cmp (a * b) (c * d)) }
{
    let a = u64::try_from(a).ok()?;
    let b = u64::try_from(b).ok()?;
    let c = u64::try_from(c).ok()?;
    let d = u64::try_from(d).ok()?;
    Some(product(a, b).cmp(&product(c, d)))
}

fn product(a: u64, b: u64) -> u128
    ensures { result ≡ a * b }
{
    u128::from(a) * u128::from(b)
}

// The same for all numbers. No product is formed: where the whole parts of `a / c` and `d / b` are equal, the remainders
// decide in the same way.
fn cmp_long_products(a: u128, b: u128, c: u128, d: u128) -> Ordering
    ensures { result ≡ nat_cmp (a * b) (c * d) }
{
    let mut a = a;
    let mut b = b;
    let mut c = c;
    let mut d = d;
    while c != 0 {
        if b == 0 {
            return against_zero(c, d).reverse();
        }
        let left = a / c;
        let right = d / b;
        if left != right {
            return left.cmp(&right);
        }
        let first = a % c;
        let second = d % b;
        a = b;
        b = first;
        d = c;
        c = second;
    }
    against_zero(a, b)
}

// How `a * b` compares with 0.
fn against_zero(a: u128, b: u128) -> Ordering
    ensures { result ≡ nat_cmp (a * b) 0 }
{
    if a == 0 {
        return Ordering::Equal;
    }
    if b == 0 {
        return Ordering::Equal;
    }
    Ordering::Greater
}
