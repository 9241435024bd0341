//! The law on which records of scripts rest.
ghost use Rattle.dg_language.specs.Law.{MoreAnswersKeepTheEnd};

/// A source that gives each answer that another gives, gives the evaluation of each text the same end.
pub fn more_answers_keep_the_end()
    ensures { MoreAnswersKeepTheEnd }
{}
