//! The trait of what answers the questions of an evaluation on its way.
use dg_world::{Answer, Question};
use std::alloc::{AllocError, Global};

/// Gives answers to some questions.
pub trait Answers {
    ghost use Rattle.std.specs.Prelude.{◌≡◌, true, IfOk, IfSome};
    ghost use Rattle.dg_world.specs.Question.{fits};
    ghost use Rattle.dg_world.specs.declared.question.Question.{Question};
    ghost use Rattle.dg_world.specs.declared.question.Answer.{Answer};
    ghost use Rattle.dg_language.specs.Play.{Source};

    // All answers that it gives.
    ghost source: { Self → Source };

    // What is true of each of them.
    ghost holds: { Question → Answer → Type 0 };

    /// The answer to a question, if it gives one, which is then of the question's kind.
    fn answer_to(&self, alloc: Global, question: &Question) -> Result<Option<Answer>, AllocError>
        ensures given { IfOk result (λ a. a ≡ source self.now question.now) }
        ensures fits { IfOk result (λ a. IfSome a (λ b. fits question.now b ≡ true)) }
        ensures holds { IfOk result (λ a. IfSome a (holds question.now)) };
}
