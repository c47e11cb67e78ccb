ghost use Rattle.std.specs.Prelude.{◌≤ℤ◌, pos};
ghost use Rattle.gx_num.specs.Ray.{IsBelow};
ghost use Rattle.gx_fraction.specs.Fraction.{parameter_of};

use gx_fraction::Frac;

/// The parameters of a ray strictly between two ends, which aren't negative.
#[derive(Clone, Copy, Debug, PartialEq, Eq)]
pub struct Span {
    pub from: Frac,
    pub to: Frac,
    pub ghost start: { pos 0 ≤ℤ from.num },
    pub ghost end: { pos 0 ≤ℤ to.num },
    pub ghost ordered: { IsBelow (parameter_of from) (parameter_of to) },
}
