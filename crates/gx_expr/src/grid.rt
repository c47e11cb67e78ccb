ghost use Rattle.std.specs.Prelude.{◌≡◌, ◌<ℤ◌, pos, None, Some, if◌then◌else◌};
ghost use Rattle.gx_expr.specs.Convert.{is_grid};
ghost use Rattle.gx_expr.specs.Quantity.{IsNarrow};

use crate::Value;
use gx_fraction::Frac;
use std::marker::Model;

/// The length of a step of the grid, in millimetres, above 0. Contracts see the fraction.
#[derive(Clone, Copy, Debug, PartialEq, Eq)]
pub struct Grid {
    size: Frac,
}

impl Model for Grid {
    ghost use Rattle.gx_fraction.specs.Fraction.{Fraction};
    ghost use Rattle.gx_expr.specs.Quantity.{IsGrid};

    ghost Value = { Fraction };

    ghost view = { λ g. g.size };

    ghost invariant = { λ g. IsGrid g.size };

    ghost inverse = { λ f. record { size = f } };
}

impl Grid {
    /// The grid whose step is this value. None where the value isn't above 0, or is an angle.
    #[tactic(auto, unfolding(crate::specs::Convert::is_grid))]
    pub fn new(value: &Value) -> Option<Grid>
        ensures { result ≡ (if is_grid value.now then Some value.now.number else None) }
    {
        if value.num() <= 0 {
            return None;
        }
        if value.angle() {
            return None;
        }
        Some(Grid {
            size: value.number(),
        })
    }

    /// A tenth of a millimetre.
    #[tactic(auto, unfolding(gx_num::specs::Number::common_divisor))]
    pub fn tenth() -> Grid
        ensures { result ≡ record { num = pos 1; den = 10 } }
    {
        Grid {
            size: Frac::new(1, 10),
        }
    }

    /// A millimetre.
    #[tactic(auto, unfolding(gx_num::specs::Number::common_divisor))]
    pub fn millimetre() -> Grid
        ensures { result ≡ record { num = pos 1; den = 1 } }
    {
        Grid {
            size: Frac::new(1, 1),
        }
    }

    /// The step, in millimetres.
    pub fn size(&self) -> Frac
        ensures value { result ≡ self.now }
        ensures kept { IsNarrow result }
        ensures positive { pos 0 <ℤ result.num }
    {
        self.size
    }
}
