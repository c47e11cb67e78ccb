use gx_check::Verdict;
use gx_num::NoMemory;
use gx_tree::Hierarchy;

/// Why a hierarchy isn't sealed.
#[derive(Drop)]
pub enum SealError {
    /// It isn't clean: the hierarchy, handed back, and the first verdict that refutes it.
    Refuted { tree: Hierarchy, verdict: Verdict },
    NoMemory,
}

impl From<NoMemory> for SealError {
    ghost use Rattle.std.specs.Prelude.{◌≡◌};
    ghost use Rattle.gx_sealed.specs.declared.error.SealError.TheVariants.{NoMemory as Wanting};

    ghost from_gives = { λ _ e. e ≡ Wanting };

    fn from(_: NoMemory) -> Self {
        SealError::NoMemory
    }
}
