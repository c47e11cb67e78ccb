//! Laws over the definitions, each the contract of a function that does nothing.
ghost use Rattle.gx_voxel.specs.Laws.{CellsCover, FlatOfTreeIsCells, AdjacentRunsDiffer, HeadersHaveRuns};

/// Each point in a member's open extent is in a box of the cells that has the member.
pub fn cells_cover()
    ensures { CellsCover }
{}

/// The boxes of a tree that stands for cells are these cells.
pub fn flat_of_tree_is_cells()
    ensures { FlatOfTreeIsCells }
{}

/// Two adjacent runs of a cut have different members.
pub fn adjacent_runs_differ()
    ensures { AdjacentRunsDiffer }
{}

/// The runs of a header that stands for members follow one another.
pub fn headers_have_runs()
    ensures { HeadersHaveRuns }
{}
