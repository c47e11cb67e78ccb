use gx_num::NoMemory;
use std::alloc::AllocError;

/// Why volumes make no hierarchy. Volumes are named by their numbers, and a placement by its mother's number and its
/// place there.
#[derive(Clone, Copy, Debug, PartialEq, Eq)]
pub enum TreeFault {
    /// The first volume that is, through one or more placements, in itself.
    Cycle(u32),
    /// There is no volume.
    NoWorld,
    /// The second volume that is placed nowhere.
    TwoWorlds(u32),
    /// The first volume that some chain of more than 32 placements leads to from the world.
    TooDeep(u32),
    /// A replica's mother has another placement.
    ReplicaMixed(u32, u32),
    /// A replica's mother or cell is no box.
    ReplicaSolid(u32, u32),
    /// A replica's cells don't fill the mother.
    ReplicaFill(u32, u32),
}

/// Why there is no hierarchy.
#[derive(Clone, Copy, Debug, PartialEq, Eq)]
pub enum TreeError {
    Fault(TreeFault),
    NoMemory,
}

impl From<NoMemory> for TreeError {
    ghost use Rattle.std.specs.Prelude.{◌≡◌};
    ghost use Rattle.gx_tree.specs.declared.fault.TreeError.TheVariants.{NoMemory as Wanting};

    ghost from_gives = { λ _ e. e ≡ Wanting };

    fn from(_: NoMemory) -> Self {
        TreeError::NoMemory
    }
}

impl From<AllocError> for TreeError {
    ghost use Rattle.std.specs.Prelude.{◌≡◌};
    ghost use Rattle.gx_tree.specs.declared.fault.TreeError.TheVariants.{NoMemory as Wanting};

    ghost from_gives = { λ _ e. e ≡ Wanting };

    fn from(_: AllocError) -> Self {
        TreeError::NoMemory
    }
}
