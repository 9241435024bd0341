//! The files that are opened for a test: the board's, the tool's library, the script.
ghost use Rattle.std.specs.Prelude.{◌≡◌, ◌+◌, ◌<◌, IfOk};
ghost use Rattle.dg_language.specs.Evaluation.{outside};
ghost use Rattle.dg_language.specs.Judge.{after_file, first_file, leave_board, open_script, open_tool};
ghost use Rattle.dg_machine.specs.declared.frame.Control.{Control};
ghost use Rattle.dg_machine.specs.Meaning.{all_back, weight_of, Comes, Goes, RunsAs};
ghost use Rattle.dg_machine.specs.Opening.{open_next, opening_weight, Holds};

use crate::frame::{FileText, Frame, Opening, Pace, plain_ask};
use crate::machine::Machine;
use crate::step::outside;
use dg_bytes::{Bytes, TryCopy};
use dg_forms::{board_file, content_of, no_such_script, tool_library, tool_of};
use dg_language::Code;
use dg_world::{Name, Question, is_name};
use std::alloc::{AllocError, Global};

/// How many evaluations may lie inside each other.
const DEPTH: u32 = 100;

impl Machine {
    /// What is known of the file of this name.
    pub(crate) fn text_of(&self, alloc: Global, name: &Name) -> Result<FileText, AllocError>
        ensures { IfOk result (Holds name.now self.now.state) }
    {
        let question = Question::File(name.copy(alloc)?);
        let Some(answer) = self.state.answer_to(&question) else {
            return Ok(FileText::Unanswered(question));
        };
        Ok(FileText::Known(content_of(alloc, answer)?))
    }

    /// A file that need not be there is evaluated, before the next is opened.
    fn open_first(&mut self, alloc: Global, name: Bytes, next: Opening) -> Result<Pace, AllocError>
        requires { self.old.control ≡ Control.Go }
        ensures { IfOk result (RunsAs (first_file name (open_next next)) (opening_weight next + 6) self.old self.new) }
    {
        if !is_name(name.as_slice()) {
            self.stack.push(Frame::Opening { what: next })?;
            return Ok(Pace::Moved);
        }
        match self.text_of(alloc, &Name::from_valid(name))? {
            FileText::Unanswered(question) => {
                let ask = plain_ask(alloc, question)?;
                Ok(Pace::Stands(ask))
            }
            FileText::Known(None) => {
                self.stack.push(Frame::Opening { what: next })?;
                Ok(Pace::Moved)
            }
            FileText::Known(Some(text)) => {
                self.stack.push(Frame::Preceding { next })?;
                self.enter(alloc, text, DEPTH)
            }
        }
    }

    /// The board's file has been evaluated, or there is none.
    #[tactic(auto, unfolding(dg_language::specs::Judge::leave_board, dg_language::specs::State::with_board_made, crate::specs::Meaning::rest, crate::specs::Meaning::go, crate::specs::Meaning::weight, crate::specs::Meaning::stack_weight))]
    fn leave_board(&mut self, alloc: Global) -> Result<Pace, AllocError>
        requires { self.old.control ≡ Control.Go }
        ensures { IfOk result (RunsAs leave_board (opening_weight Opening.AfterBoard) self.old self.new) }
    {
        self.state.leave_board(alloc);
        self.stack.push(Frame::Opening {
            what: Opening::Tool,
        })?;
        Ok(Pace::Moved)
    }

    /// The tool's library comes next, and counts as loaded.
    fn open_tool(&mut self, alloc: Global) -> Result<Pace, AllocError>
        requires { self.old.control ≡ Control.Go }
        ensures { IfOk result (RunsAs open_tool (opening_weight Opening.Tool) self.old self.new) }
    {
        let Some(answer) = self.state.answer_to(&Question::Tool) else {
            let ask = plain_ask(alloc, Question::Tool)?;
            return Ok(Pace::Stands(ask));
        };
        let name = tool_library(alloc, tool_of(answer))?;
        self.state.mark(alloc, name.as_slice())?;
        self.stack.push(Frame::Opening {
            what: Opening::Library(name),
        })?;
        Ok(Pace::Moved)
    }

    /// The script is evaluated.
    fn open_script(&mut self, alloc: Global) -> Result<Pace, AllocError>
        requires { self.old.control ≡ Control.Go }
        ensures { IfOk result (RunsAs open_script (opening_weight Opening.Script) self.old self.new) }
    {
        match self.text_of(alloc, self.state.test().script())? {
            FileText::Unanswered(question) => {
                let ask = plain_ask(alloc, question)?;
                Ok(Pace::Stands(ask))
            }
            FileText::Known(None) => {
                let message = no_such_script(alloc, self.state.test().script().as_slice())?;
                self.fail(alloc, message)
            }
            FileText::Known(Some(text)) => self.enter(alloc, text, DEPTH),
        }
    }

    /// What is opened next, as far as its question is answered.
    fn open_next(&mut self, alloc: Global, what: &Opening) -> Result<Pace, AllocError>
        requires { self.old.control ≡ Control.Go }
        ensures { IfOk result (RunsAs (open_next what.now) (opening_weight what.now) self.old self.new) }
    {
        match what {
            Opening::Board => {
                let name = board_file(alloc, self.state.test().board().as_slice())?;
                self.open_first(alloc, name, Opening::AfterBoard)
            }
            Opening::AfterBoard => self.leave_board(alloc),
            Opening::Tool => self.open_tool(alloc),
            Opening::Library(name) => {
                let name = name.copy(alloc)?;
                self.open_first(alloc, name, Opening::Script)
            }
            Opening::Script => self.open_script(alloc),
        }
    }

    /// What is opened next, or waits for the answer to a question.
    #[tactic(auto, unfolding(crate::specs::Meaning::rest, crate::specs::Meaning::go))]
    pub(crate) fn open(&mut self, alloc: Global, what: Opening) -> Result<Pace, AllocError>
        requires { self.old.control ≡ Control.Go }
        ensures { IfOk result (λ p. Comes (open_next what self.old.state (all_back self.old.stack)) self.old.state.known
            (weight_of self.old + opening_weight what) self.new p) }
    {
        match self.open_next(alloc, &what)? {
            Pace::Stands(ask) => {
                self.stack.push(Frame::Opening { what })?;
                Ok(Pace::Stands(ask))
            }
            Pace::Moved => Ok(Pace::Moved),
            Pace::Over(closing) => Ok(Pace::Over(closing)),
            Pace::Lost => Ok(Pace::Lost),
        }
    }

    /// A file that comes before the script has ended.
    #[tactic(auto, unfolding(crate::specs::Meaning::rest, crate::specs::Meaning::go, crate::specs::Meaning::weight, crate::specs::Meaning::stack_weight))]
    pub(crate) fn after_file(
        &mut self,
        alloc: Global,
        next: Opening,
        code: Code,
        value: Bytes,
    ) -> Result<Pace, AllocError>
        requires { self.old.control ≡ Control.Go }
        ensures { IfOk result (λ p. Goes (after_file (open_next next) (all_back self.old.stack) code value self.old.state)
            self.old.state.known (weight_of self.old + opening_weight next + 2) self.new p) }
    {
        let (code, value) = outside(alloc, code, value)?;
        match code {
            Code::Done => {
                self.stack.push(Frame::Opening { what: next })?;
                Ok(Pace::Moved)
            }
            Code::Failed | Code::Returned | Code::Broken | Code::Continued | Code::ExpContinued => {
                Ok(self.go_up(code, value))
            }
        }
    }
}
