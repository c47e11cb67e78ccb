ghost use Rattle.std.specs.Prelude.{◌≡◌, ℕ, ◌+◌, ◌<◌, ◌≤◌, ◌^◌, ◌+ℤ◌, ◌*ℤ◌, pos, true, false, unsigned_abs};
ghost use Rattle.gx_along.specs.Line.{time};
ghost use Rattle.gx_slabs.specs.Row.{IsRow, start_of, copy_at, is_left_at, is_entered_at};

use gx_along::{Bounds, Line, Time, is_entered, is_left};

/// Copies side by side on an axis, the first from a coordinate on, and a ray on the axis.
#[derive(Clone, Copy)]
pub struct Row {
    pub line: Line,
    pub low: i64,
    pub width: i64,
    pub count: u32,
}

impl Row {
    // Where copy k begins, or the last one ends.
    fn start(self, k: u32) -> i64
        requires row { IsRow self }
        requires copy { k ≤ self.count }
        requires some { 0 < self.count }
        ensures value { result ≡ start_of self k }
        ensures small { unsigned_abs result ≤ 2 ^ 31 }
    {
        sum(self.low, times(k, self.width))
    }

    fn bounds(self, k: u32) -> Bounds
        requires row { IsRow self }
        requires copy { k < self.count }
        ensures low { result.low ≡ start_of self k }
        ensures high { result.high ≡ start_of self (k + 1) }
        ensures small { unsigned_abs result.low ≤ 2 ^ 31 }
        ensures small_high { unsigned_abs result.high ≤ 2 ^ 31 }
    {
        Bounds {
            low: self.start(k),
            high: self.start(k + 1),
        }
    }

    /// The j-th copy along the ray.
    pub fn copy(self, j: u32) -> u32
        requires { j < self.count }
        ensures value { result ≡ copy_at self j }
        ensures below { result < self.count }
    {
        if self.line.d < 0 {
            self.count - 1 - j
        } else {
            j
        }
    }

    fn is_left(self, at: Time, j: u32) -> bool
        requires row { IsRow self }
        requires copy { j < self.count }
        ensures { result ≡ is_left_at self (time at) j }
    {
        is_left(self.line, self.bounds(self.copy(j)), at)
    }

    /// Before the time the ray has come to the j-th copy along it.
    pub fn is_entered(self, at: Time, j: u32) -> bool
        requires row { IsRow self }
        requires copy { j < self.count }
        requires den { 0 < at.den }
        ensures { result ≡ is_entered_at self (time at) j }
    {
        is_entered(self.line, self.bounds(self.copy(j)), at)
    }

    /// The first copy along the ray in which it goes on after a time, by halving.
    pub fn first_left(self, at: Time) -> u32
        requires { IsRow self }
        ensures bound { result ≤ self.count }
        ensures before { (j : ℕ) → j < result → is_left_at self (time at) j ≡ true }
        ensures after { (j : ℕ) → result ≤ j → j < self.count → is_left_at self (time at) j ≡ false }
    {
        let mut low = 0;
        let mut high = self.count;
        while low < high {
            let middle = low + (high - low) / 2;
            if self.is_left(at, middle) {
                low = middle + 1;
            } else {
                high = middle;
            }
        }
        low
    }
}

fn times(k: u32, width: i64) -> i64
    requires few { k ≤ 4096 }
    requires width { unsigned_abs width ≤ 2 ^ 31 }
    ensures value { result ≡ pos k *ℤ width }
    ensures small { unsigned_abs result ≤ 2 ^ 45 }
{
    i64::from(k) * width
}

fn sum(a: i64, b: i64) -> i64
    requires first { unsigned_abs a ≤ 2 ^ 31 }
    requires second { unsigned_abs b ≤ 2 ^ 45 }
    ensures { result ≡ a +ℤ b }
{
    a + b
}
