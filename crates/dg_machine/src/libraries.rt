//! The command on libraries.
ghost use Rattle.std.specs.Prelude.{◌≡◌, ◌+◌, ◌<◌, IfOk};
ghost use Rattle.dg_language.specs.Boards.{after_library, do_load_lib, library_file, load, no_library};
ghost use Rattle.dg_language.specs.Evaluation.{fail};
ghost use Rattle.dg_language.specs.Language.{evaluate};
ghost use Rattle.dg_machine.specs.declared.frame.Control.{Control};
ghost use Rattle.dg_machine.specs.Meaning.{all_back, weight_of, Goes, command_weight, RunsAs, GoesAs};

use crate::frame::{FileText, Frame, Pace, plain_ask};
use crate::machine::Machine;
use crate::step::outside;
use dg_bytes::Bytes;
use dg_forms::{library_file, no_library, only};
use dg_language::Code;
use dg_world::{Name, is_name};
use std::alloc::{AllocError, Global};

impl Machine {
    /// A library that is not there is an error.
    fn miss_library(&mut self, alloc: Global, library: &[u8]) -> Result<Pace, AllocError>
        requires { self.old.control ≡ Control.Go }
        ensures { IfOk result (GoesAs (fail (no_library library.now)) 2 self.old self.new) }
    {
        let message = no_library(alloc, library)?;
        self.fail(alloc, message)
    }

    /// A library is evaluated, if it has not begun before. One that is not there has begun too, by its error.
    fn load_library(
        &mut self,
        alloc: Global,
        library: &[u8],
        file: &Name,
        depth: u32,
    ) -> Result<Pace, AllocError>
        requires go { self.old.control ≡ Control.Go }
        requires file { file.now ≡ library_file library.now }
        ensures { IfOk result (RunsAs (load (evaluate depth) library.now) command_weight self.old self.new) }
    {
        if self.state.has_begun(file.as_slice()) {
            self.end(Code::Done, Bytes::new(alloc));
            return Ok(Pace::Moved);
        }
        match self.text_of(alloc, file)? {
            FileText::Unanswered(question) => {
                let ask = plain_ask(alloc, question)?;
                Ok(Pace::Stands(ask))
            }
            FileText::Known(None) => {
                self.state.mark(alloc, file.as_slice())?;
                self.miss_library(alloc, library)
            }
            FileText::Known(Some(text)) => {
                self.state.enter_library(alloc, file.as_slice())?;
                self.stack.push(Frame::Loading)?;
                self.enter(alloc, text, depth)
            }
        }
    }

    /// `load_lib file`.
    #[tactic(auto, unfolding(dg_language::specs::Boards::do_load_lib))]
    pub(crate) fn load_lib(
        &mut self,
        alloc: Global,
        args: &[Bytes],
        depth: u32,
    ) -> Result<Pace, AllocError>
        requires { self.old.control ≡ Control.Go }
        ensures { IfOk result (RunsAs (do_load_lib (evaluate depth) args.now) command_weight self.old self.new) }
    {
        let Some(library) = only(args) else {
            return self.wrong_count(alloc, b"load_lib");
        };
        let file = library_file(alloc, library.as_slice())?;
        if !is_name(file.as_slice()) {
            return self.miss_library(alloc, library.as_slice());
        }
        self.load_library(alloc, library.as_slice(), &Name::from_valid(file), depth)
    }

    /// A library has ended: the scope where it was loaded is back.
    #[tactic(auto, unfolding(dg_language::specs::Boards::after_library, dg_language::specs::State::departed, crate::specs::Meaning::rest, crate::specs::Meaning::weight))]
    pub(crate) fn after_library(
        &mut self,
        alloc: Global,
        code: Code,
        value: Bytes,
    ) -> Result<Pace, AllocError>
        requires { self.old.control ≡ Control.Go }
        ensures { IfOk result (λ p. Goes (after_library (all_back self.old.stack) code value self.old.state)
            self.old.state.known (weight_of self.old + 4) self.new p) }
    {
        let (code, value) = outside(alloc, code, value)?;
        self.state.leave();
        match code {
            Code::Done => self.end(Code::Done, Bytes::new(alloc)),
            Code::Failed | Code::Returned | Code::Broken | Code::Continued | Code::ExpContinued => {
                self.end(code, value);
            }
        }
        Ok(Pace::Moved)
    }
}
