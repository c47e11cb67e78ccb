ghost use Rattle.std.specs.Prelude.{◌≤◌, ◌≤ℤ◌, pos, unsigned_abs};

/// Numbers by a shift register.
#[derive(Drop)]
pub struct Random {
    state: u64,
}

impl Random {
    pub fn new() -> Random {
        Random {
            state: 88172645463325252,
        }
    }

    /// A number from -300 to 300.
    pub fn number(&mut self) -> i64
        ensures { unsigned_abs result ≤ 300 }
    {
        let mut x = self.state;
        x ^= x.wrapping_shl(13);
        x ^= x.wrapping_shr(7);
        x ^= x.wrapping_shl(17);
        self.state = x;
        (x % 601) as i64 - 300
    }

    /// A number from 1 to 601.
    pub fn length(&mut self) -> i64
        ensures least { pos 1 ≤ℤ result }
        ensures most { unsigned_abs result ≤ 601 }
    {
        self.number() + 301
    }
}
