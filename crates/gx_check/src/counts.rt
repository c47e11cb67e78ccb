ghost use Rattle.std.specs.Prelude.{◌≡◌, ◌+◌, [], ◌∷◌};
ghost use Rattle.gx_check.specs.Verdicts.{counts_of};
ghost use Rattle.gx_check.specs.Counting.{IsFew, plus as plus_of};

use crate::Verdict;

/// How many daughters and pairs of daughters were judged, and how many verdicts refute.
#[derive(Clone, Copy, Debug, PartialEq, Eq)]
pub struct Counts {
    pub daughters: u64,
    pub pairs: u64,
    pub refuted: u64,
}

impl Counts {
    pub(crate) fn none() -> Counts
        ensures { result ≡ counts_of [] }
    {
        Counts {
            daughters: 0,
            pairs: 0,
            refuted: 0,
        }
    }

    /// One pair, which isn't refuted.
    pub(crate) fn pair() -> Counts
        ensures { result ≡ record { daughters = 0; pairs = 1; refuted = 0 } }
    {
        Counts {
            daughters: 0,
            pairs: 1,
            refuted: 0,
        }
    }

    pub(crate) fn of(verdict: &Verdict) -> Counts
        ensures { result ≡ counts_of (verdict.now ∷ []) }
    {
        let refuted = u64::from(verdict.refutes());
        match verdict {
            Verdict::Inner { .. } | Verdict::Outer { .. } => Counts {
                daughters: 1,
                pairs: 0,
                refuted,
            },
            Verdict::Apart { .. } | Verdict::Overlap { .. } => Counts {
                daughters: 0,
                pairs: 1,
                refuted,
            },
        }
    }

    pub(crate) fn plus(self, other: Counts) -> Counts
        requires few { IsFew self }
        requires other_few { IsFew other }
        ensures { result ≡ plus_of self other }
    {
        Counts {
            daughters: self.daughters + other.daughters,
            pairs: self.pairs + other.pairs,
            refuted: self.refuted + other.refuted,
        }
    }
}
