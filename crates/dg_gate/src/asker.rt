//! The trait of what answers the questions of a live run that are not about a child.
use crate::fault::AskFault;
use dg_world::{Answer, Question};

/// Answers questions about files, the selection and patterns. Children are a gate's.
pub trait Asker {
    ghost use Rattle.std.specs.Prelude.{IfOk};
    ghost use Rattle.dg_world.specs.declared.question.Question.{Question};
    ghost use Rattle.dg_world.specs.declared.question.Answer.{Answer};

    // One call: the asker before, the question, the answer, and the asker after.
    ghost step: { Self → Question → Answer → Self → Type 0 };

    /// The answer to a question.
    fn ask(&mut self, question: &Question) -> Result<Answer, AskFault>
        ensures { IfOk result (λ a. step self.old question.now a self.new) };
}
