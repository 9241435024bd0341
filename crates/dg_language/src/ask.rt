//! What an evaluation needs in order to go on.
ghost use Rattle.std.specs.Prelude.{◌≡◌, IfOk};
ghost use Rattle.dg_language.specs.Play.{plain};

use dg_bytes::TryCopy;
use dg_transcript::Action;
use dg_world::Question;
use std::alloc::{AllocError, Global};

/// A question whose answer an evaluation needs, and where it asks for the next entry of a session the action that this
/// entry is to answer.
#[derive(Drop)]
pub struct Ask {
    pub question: Question,
    pub action: Option<Action>,
}

impl Ask {
    /// A question without an action.
    pub fn plain(question: Question) -> Ask
        ensures { result ≡ plain question }
    {
        Ask {
            question,
            action: None,
        }
    }

    /// An equal ask, or want of memory.
    pub fn copy(&self, alloc: Global) -> Result<Ask, AllocError>
        ensures { IfOk result (λ a. a ≡ self.now) }
    {
        let action = match &self.action {
            Some(action) => Some(action.copy(alloc)?),
            None => None,
        };
        Ok(Ask {
            question: self.question.copy(alloc)?,
            action,
        })
    }
}
