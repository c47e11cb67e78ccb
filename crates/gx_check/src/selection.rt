ghost use Rattle.std.specs.Prelude.{◌≡◌, [], ◌∷◌, IsTrue, if◌then◌else◌};
ghost use Rattle.gx_check.specs.Verdicts.{chosen};

use crate::Verdict;

/// Which verdicts are given.
#[derive(Clone, Copy, Debug, PartialEq, Eq)]
pub enum Selection {
    All,
    /// `Outer` and `Overlap`.
    Refuting,
}

impl Selection {
    // The verdict is given.
    pub(crate) fn has(self, verdict: &Verdict) -> bool
        ensures { chosen self (verdict.now ∷ []) ≡ (if result then verdict.now ∷ [] else []) }
    {
        match self {
            Selection::All => true,
            Selection::Refuting => verdict.refutes(),
        }
    }

    // Only verdicts that refute are given.
    pub(crate) fn is_refuting(self) -> bool
        ensures { IsTrue result → self ≡ Selection.Refuting }
    {
        match self {
            Selection::All => false,
            Selection::Refuting => true,
        }
    }
}
