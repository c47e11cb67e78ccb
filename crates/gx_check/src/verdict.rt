ghost use Rattle.std.specs.Prelude.{◌≡◌};

use gx_common::Points;
use gx_num::V3;
use gx_plane::Plane;

/// What is said of a daughter or of two daughters, by the numbers of the mother and their ordinals in her, in her frame.
#[derive(Drop)]
pub enum Verdict {
    /// The daughter is in her mother.
    Inner {
        mother: u32,
        ordinal: u32,
    },
    /// She isn't: her first vertex that isn't in the mother.
    Outer {
        mother: u32,
        ordinal: u32,
        point: V3,
    },
    /// The insides of the two don't meet: the first plane between them, with the first one on its low side.
    Apart {
        mother: u32,
        first: u32,
        second: u32,
        plane: Plane,
    },
    /// The insides meet: the points that show it.
    Overlap {
        mother: u32,
        first: u32,
        second: u32,
        points: Points,
    },
}

impl Verdict {
    ghost use Rattle.gx_check.specs.Verdicts.{refutes};

    /// It says that the hierarchy isn't clean.
    pub fn refutes(&self) -> bool
        ensures { result ≡ refutes self.now }
    {
        match self {
            Verdict::Inner { .. } | Verdict::Apart { .. } => false,
            Verdict::Outer { .. } | Verdict::Overlap { .. } => true,
        }
    }
}
