//! Laws over the definitions, each the contract of a function that does nothing.
ghost use Rattle.gx_nest.specs.Laws.{MetIsFound, PiecesArePartition, RowsAreReport, EachRayHasReport};

/// What a ray meets is found, however the finding is done.
pub fn met_is_found()
    ensures { MetIsFound }
{}

/// In a clean hierarchy the pieces that come of what a ray meets are its partition.
pub fn pieces_are_partition()
    ensures { PiecesArePartition }
{}

/// In a clean hierarchy their open rows are the ray's report.
pub fn rows_are_report()
    ensures { RowsAreReport }
{}

/// In a clean hierarchy each ray that has a direction has a report.
pub fn each_ray_has_report()
    ensures { EachRayHasReport }
{}
