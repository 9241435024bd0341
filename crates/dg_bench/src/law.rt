//! The laws of a legal history.
ghost use Rattle.dg_bench.specs.History.{HistoriesAreRuns, SumsAreFromScratch};

/// A legal history is a run of a core's events, in its order.
pub fn histories_are_runs()
    ensures { HistoriesAreRuns }
{}

/// In a legal history a report that answers a sum has the bytes and the status of judging every selected test from scratch,
/// on the world that the calls before it make of a new one.
pub fn sums_are_from_scratch()
    ensures { SumsAreFromScratch }
{}
