ghost use Rattle.std.specs.Prelude.{◌≡◌, ◌*ℤ◌, ◌≤◌, ◌^◌, unsigned_abs};

#[tactic(auto, using(crate::proofs::Casts::small, crate::proofs::Casts::product_small))]
pub fn times(a: i128, b: i128) -> i128
    requires first { unsigned_abs a ≤ 2 ^ 62 }
    requires second { unsigned_abs b ≤ 2 ^ 62 }
    ensures value { result ≡ a *ℤ b }
    ensures bound { unsigned_abs result ≤ 2 ^ 124 }
{
    a * b
}
