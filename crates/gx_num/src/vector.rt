ghost use Rattle.std.specs.Prelude.{◌≡◌, ◌^◌, ◌+◌, ◌≤◌, unsigned_abs};

/// The greatest magnitude of a coordinate in steps: of solids, offsets, and ray origins and directions.
pub const M: i64 = 16777216;

/// A vector of whole numbers, as a point or a direction of space.
#[derive(Clone, Copy, Debug, PartialEq, Eq)]
pub struct V3 {
    pub x: i64,
    pub y: i64,
    pub z: i64,
}

impl V3 {
    ghost use Rattle.gx_num.specs.Vector.{IsWithin, sum_of, difference_of, opposite_of, cross_of, dot_of};

    /// The sum.
    pub fn add(self, o: V3) -> V3
        requires first { IsWithin (2 ^ 61) self }
        requires second { IsWithin (2 ^ 61) o }
        ensures { result ≡ sum_of self o }
    {
        V3 {
            x: short_plus(self.x, o.x),
            y: short_plus(self.y, o.y),
            z: short_plus(self.z, o.z),
        }
    }

    /// The difference.
    pub fn sub(self, o: V3) -> V3
        requires first { IsWithin (2 ^ 61) self }
        requires second { IsWithin (2 ^ 61) o }
        ensures { result ≡ difference_of self o }
    {
        V3 {
            x: short_minus(self.x, o.x),
            y: short_minus(self.y, o.y),
            z: short_minus(self.z, o.z),
        }
    }

    /// The opposite.
    pub fn neg(self) -> V3
        requires { IsWithin (2 ^ 61) self }
        ensures { result ≡ opposite_of self }
    {
        V3 {
            x: short_minus(0, self.x),
            y: short_minus(0, self.y),
            z: short_minus(0, self.z),
        }
    }

    /// The scalar product.
    pub fn dot(self, o: V3) -> i128
        requires first { IsWithin (2 ^ 61) self }
        requires second { IsWithin (2 ^ 61) o }
        ensures value { result ≡ dot_of self o }
        ensures bound { unsigned_abs result ≤ 2 ^ 124 }
    {
        plus(
            plus(times(self.x, o.x), times(self.y, o.y)),
            times(self.z, o.z),
        )
    }

    /// The vector product.
    pub fn cross(self, o: V3) -> V3
        requires first { IsWithin (2 ^ 30) self }
        requires second { IsWithin (2 ^ 30) o }
        ensures { result ≡ cross_of self o }
    {
        V3 {
            x: minor(self.y, o.z, self.z, o.y),
            y: minor(self.z, o.x, self.x, o.z),
            z: minor(self.x, o.y, self.y, o.x),
        }
    }
}

ghost use Rattle.std.specs.Prelude.{◌*ℤ◌, ◌+ℤ◌, ◌-ℤ◌};

// One operation a function: so each proves by itself.
fn times(a: i64, b: i64) -> i128
    requires first { unsigned_abs a ≤ 2 ^ 61 }
    requires second { unsigned_abs b ≤ 2 ^ 61 }
    ensures value { result ≡ a *ℤ b }
    ensures bound { unsigned_abs result ≤ 2 ^ 122 }
{
    i128::from(a) * i128::from(b)
}

fn plus(a: i128, b: i128) -> i128
    requires first { unsigned_abs a ≤ 2 ^ 124 }
    requires second { unsigned_abs b ≤ 2 ^ 124 }
    ensures value { result ≡ a +ℤ b }
    ensures bound { unsigned_abs result ≤ unsigned_abs a + unsigned_abs b }
{
    a + b
}

fn short_times(a: i64, b: i64) -> i64
    requires first { unsigned_abs a ≤ 2 ^ 30 }
    requires second { unsigned_abs b ≤ 2 ^ 30 }
    ensures value { result ≡ a *ℤ b }
    ensures bound { unsigned_abs result ≤ 2 ^ 60 }
{
    a * b
}

fn short_plus(a: i64, b: i64) -> i64
    requires first { unsigned_abs a ≤ 2 ^ 61 }
    requires second { unsigned_abs b ≤ 2 ^ 61 }
    ensures { result ≡ a +ℤ b }
{
    a + b
}

fn short_minus(a: i64, b: i64) -> i64
    requires first { unsigned_abs a ≤ 2 ^ 61 }
    requires second { unsigned_abs b ≤ 2 ^ 61 }
    ensures { result ≡ a -ℤ b }
{
    a - b
}

// a * b - c * d
fn minor(a: i64, b: i64, c: i64, d: i64) -> i64
    requires a { unsigned_abs a ≤ 2 ^ 30 }
    requires b { unsigned_abs b ≤ 2 ^ 30 }
    requires c { unsigned_abs c ≤ 2 ^ 30 }
    requires d { unsigned_abs d ≤ 2 ^ 30 }
    ensures { result ≡ (a *ℤ b) -ℤ (c *ℤ d) }
{
    short_minus(short_times(a, b), short_times(c, d))
}
