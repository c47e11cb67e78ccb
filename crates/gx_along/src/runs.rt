ghost use Rattle.std.specs.Prelude.{◌≡◌, ◌<◌, ◌≤◌};
ghost use Rattle.gx_along.specs.Along.{index_of, left_of};

use crate::Line;

/// How many runs are left along the ray.
pub fn left_of(line: Line, count: u32, start: u32) -> u32
    requires { start ≤ count }
    ensures { result ≡ left_of line.d count start }
{
    if line.d < 0 { start } else { count - start }
}

/// The j-th run along the ray.
pub fn index_of(line: Line, count: u32, start: u32, j: u32) -> u32
    requires start { start ≤ count }
    requires j { j < left_of line.d count start }
    ensures value { result ≡ index_of line.d start j }
    ensures bound { result < count }
{
    if line.d < 0 { start - 1 - j } else { start + j }
}
