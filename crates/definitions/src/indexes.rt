//! Laws of keys and of the runs of indexes.

ghost use Rattle.definitions.specs.IndexLaws.{KeyRankIsTotalOrder, RunIsOne, EqualPartIsStretch, RangePartIsStretch, KeysAreCountedAlongRun};

/// The rank of keys of the same types is a total order.
pub fn key_rank_is_total_order()
    ensures { KeyRankIsTotalOrder }
{}

/// Keys have one run.
pub fn run_is_one()
    ensures { RunIsOne }
{}

/// The entries of a run whose keys begin with values stand together.
pub fn equal_part_is_stretch()
    ensures { EqualPartIsStretch }
{}

/// The entries of a run that lie in a range stand together.
pub fn range_part_is_stretch()
    ensures { RangePartIsStretch }
{}

/// The keys without a null, each counted once, are those that differ from the one before them in the run.
pub fn keys_are_counted_along_run()
    ensures { KeysAreCountedAlongRun }
{}
