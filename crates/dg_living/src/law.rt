//! The law of live judging.
ghost use Rattle.std.specs.Prelude.{[]};
ghost use Rattle.dg_world.specs.declared.test_id.TestId.{TestId};
ghost use Rattle.dg_language.specs.Judge.{judge};
ghost use Rattle.dg_living.specs.Living.{LivesOn};
ghost use Rattle.dg_living.specs.Replayed.{LiveJudgingsAreReplayed};

/// Whatever gates and askers answer, as long as each entry is one that a gate may make of the action that asks for it, the
/// judging of a test asks each session for its next entry, and ends with a transcript and without a departure.
pub fn the_judging_lives()
    ensures { (t : TestId) → LivesOn t (judge t) [] }
{}

/// Where a judging that gates and askers answered has ended, its entries form a transcript, and in each source that has this and
/// gives the other answers the judging comes to the same end.
pub fn live_judgings_are_replayed()
    ensures { LiveJudgingsAreReplayed }
{}
