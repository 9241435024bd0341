//! The laws of a core: a change that no kept record read costs no evaluation, and reports after events are from scratch.
ghost use Rattle.dg_core.specs.Events.{ReportsAfterEventsAreFromScratch};
ghost use Rattle.dg_core.specs.Unread.{UnreadChangesLeaveThePending};

/// A change of the world that leaves the selected tests, and each answer that their kept records read, leaves the pending
/// tests: it alone evaluates nothing.
pub fn unread_changes_leave_the_pending()
    ensures { UnreadChangesLeaveThePending }
{}

/// After any list of edits, questions, kept records, live runs and reports, in any order and whatever was refused among
/// them: where no test is pending, the kept records give just the report of judging every selected test from scratch on the world as it
/// stands. So a report that answers a sum has its bytes and its status.
pub fn reports_after_events_are_from_scratch()
    ensures { ReportsAfterEventsAreFromScratch }
{}
