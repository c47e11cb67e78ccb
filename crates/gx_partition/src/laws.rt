//! Laws over the definitions, each the contract of a function that does nothing.
ghost use Rattle.gx_partition.specs.Laws.{OnePartition, OpenRowsAreTheReport, NestIsPartition, CollectedIsSorted};

/// Two partitions of one ray are equal.
pub fn one_partition()
    ensures { OnePartition }
{}

/// The open rows of a partition are the report.
pub fn open_rows_are_the_report()
    ensures { OpenRowsAreTheReport }
{}

/// The pieces of a nest, of daughters of any kind, are a partition.
pub fn nest_is_partition<D>()
    ensures { NestIsPartition D }
{}

/// The daughters that are met, of any kind, are one list, however they are collected.
pub fn collected_is_sorted<D>()
    ensures { CollectedIsSorted D }
{}
