//! The laws on which every kept record rests.
ghost use Rattle.dg_records.specs.Truth.{AgreeingWorldsGiveTheVerdict, MoreAnswersKeepTheVerdict};

/// A source that gives each answer that another gives, gives each test the same end.
pub fn more_answers_keep_the_verdict()
    ensures { MoreAnswersKeepTheVerdict }
{}

/// A record whose reads have the answers that a world gives, has the verdict that judging its test in that world gives.
pub fn agreeing_worlds_give_the_verdict()
    ensures { AgreeingWorldsGiveTheVerdict }
{}
