//! The laws on sessions, in a source that answers the entries of their records from lists.
ghost use Rattle.dg_laws.specs.Awaiting.{ChunksComeIntoTheBuffer, ExpectTakesTheFirstHit};
ghost use Rattle.dg_laws.specs.Replays.{ActionsAreReplayed};

/// What an action on a session comes to is the replay of the entries that are left of its record: the entry that answers it,
/// a timeout or a departure, with the entries, the wait and the buffer that are left then.
pub fn actions_are_replayed()
    ensures { ActionsAreReplayed }
{}

/// `expect` takes the hit of its patterns at the least number of chunks that has one, unless a timeout, the end of the output
/// or a departure comes first (expect(1)).
pub fn expect_takes_the_first_hit()
    ensures { ExpectTakesTheFirstHit }
{}

/// After some chunks the buffer is the last bytes of what it was and of those chunks without their nulls, as many as
/// `match_max` says.
pub fn chunks_come_into_the_buffer()
    ensures { ChunksComeIntoTheBuffer }
{}
