ghost use Rattle.std.specs.Prelude.{◌≤◌, ◌*◌, ◌^◌, unsigned_abs};

/// What is between two sides of a box, which are so far from a ray's origin along an axis, and the ray's direction along it.
#[derive(Clone, Copy)]
pub struct Slab {
    pub low: i64,
    pub high: i64,
    pub speed: i64,
    pub ghost near_low: { unsigned_abs low ≤ 3 * 2 ^ 30 },
    pub ghost near_high: { unsigned_abs high ≤ 3 * 2 ^ 30 },
    pub ghost slow: { unsigned_abs speed ≤ 2 ^ 31 },
}

/// From one number to another.
#[derive(Clone, Copy)]
pub struct Reached {
    pub least: i64,
    pub greatest: i64,
}
