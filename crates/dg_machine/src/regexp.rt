//! `regexp`.
ghost use Rattle.std.specs.Prelude.{◌≡◌, ◌+◌, ◌*◌, ◌<◌, ◌∷◌, [], Some, length, IfOk};
ghost use Rattle.dg_match.specs.Groups.{regex_match};
ghost use Rattle.dg_language.specs.State.{assigned};
ghost use Rattle.dg_language.specs.Evaluation.{within};
ghost use Rattle.dg_language.specs.Control.{behind_first, head_or_empty};
ghost use Rattle.dg_language.specs.Matching.{do_regexp, write_found};
ghost use Rattle.dg_machine.specs.declared.frame.Control.{Control};
ghost use Rattle.dg_machine.specs.Giving.{giving};
ghost use Rattle.dg_machine.specs.Meaning.{all_back, weight_of, Comes, Goes, command_weight, RunsAs};
ghost use Rattle.dg_machine.specs.Patterns.{AreRead};

use crate::frame::{Frame, Pace, plain_ask};
use crate::machine::Machine;
use crate::patterns::{Known, reading_of};
use crate::rounds::take_first;
use dg_bytes::Bytes;
use dg_forms::{parts_of, regexp_words};
use dg_language::{Code, Queue, Search};
use dg_match::{Pattern, PatternFault};
use dg_scope::LONGEST_VALUE;
use std::alloc::{AllocError, Global};

/// The message of a pattern that isn't read.
pub(crate) const CANNOT_COMPILE: &[u8] = b"couldn't compile regular expression pattern";

impl Machine {
    /// `regexp`.
    #[tactic(auto, unfolding(dg_language::specs::Matching::do_regexp))]
    pub(crate) fn regexp(&mut self, alloc: Global, args: &[Bytes]) -> Result<Pace, AllocError>
        requires { self.old.control ≡ Control.Go }
        ensures { IfOk result (RunsAs (do_regexp args.now) command_weight self.old self.new) }
    {
        let search = match regexp_words(alloc, args)? {
            Ok(search) => search,
            Err(message) => return self.fail(alloc, message),
        };
        match reading_of(alloc, &self.state, &search.pattern)? {
            Known::Unasked(question) => {
                let ask = plain_ask(alloc, question)?;
                Ok(Pace::Stands(ask))
            }
            Known::OneUnread => {
                let message = Bytes::from_slice(alloc, CANNOT_COMPILE)?;
                self.fail(alloc, message)
            }
            Known::AllRead => {
                // The call shows the proof that the length is a `usize`.
                let _count = search.names.len();
                self.find_text(alloc, search)
            }
        }
    }

    /// A pattern, which is read, is looked for in a text.
    #[tactic(auto, unfolding(crate::specs::Meaning::rest, crate::specs::Meaning::go, crate::specs::Meaning::weight, crate::specs::Meaning::stack_weight))]
    fn find_text(&mut self, alloc: Global, search: Search) -> Result<Pace, AllocError>
        requires go { self.old.control ≡ Control.Go }
        requires read { AreRead (search.pattern ∷ []) self.old.state.known }
        ensures { IfOk result (λ p. Goes
            (write_found search (regex_match search.pattern search.text) self.old.state (all_back self.old.stack))
            self.old.state.known (weight_of self.old + 6 + 4 * length search.names) self.new p) }
    {
        let built = match self.shelves.programs.build(alloc, &search.pattern) {
            Ok(Pattern::Regex(built)) => built,
            Ok(Pattern::Glob(_) | Pattern::Exact(_)) => unreachable!(),
            Err(PatternFault::Memory) => return Err(AllocError),
            Err(PatternFault::Syntax | PatternFault::TooLarge) => return Ok(Pace::Lost),
        };
        let Some(found) = built.find(alloc, search.text.as_slice())? else {
            self.end(Code::Done, Bytes::from_slice(alloc, b"0")?);
            return Ok(Pace::Moved);
        };
        let parts = parts_of(alloc, search.text.as_slice(), &found)?;
        self.stack.push(Frame::Giving {
            names: Queue::new(search.names.into_vec()),
            values: Queue::new(parts.into_vec()),
        })?;
        Ok(Pace::Moved)
    }

    /// A name, whose variable can be used, gets the first of the texts that were found.
    #[tactic(auto, unfolding(crate::specs::Meaning::rest, crate::specs::Meaning::go, crate::specs::Meaning::weight, crate::specs::Meaning::stack_weight))]
    fn give_part(
        &mut self,
        alloc: Global,
        name: &[u8],
        names: Queue<Bytes>,
        mut values: Queue<Bytes>,
    ) -> Result<Pace, AllocError>
        requires { self.old.control ≡ Control.Go }
        ensures { IfOk result (λ p. Goes (within (length (head_or_empty values)) self.old.state
            (giving names (behind_first values) (assigned name.now (head_or_empty values) self.old.state)
            (all_back self.old.stack))) self.old.state.known (weight_of self.old + 6 + 4 * length names)
            self.new p) }
    {
        let value = take_first(alloc, &mut values);
        if value.len() > LONGEST_VALUE {
            let closing = self.cut(alloc, b"value too long")?;
            return Ok(Pace::Over(closing));
        }
        self.state.assign(alloc, name, value)?;
        self.stack.push(Frame::Giving { names, values })?;
        Ok(Pace::Moved)
    }

    /// The next name gets the next text, or all have theirs.
    #[tactic(auto, unfolding(crate::specs::Meaning::rest, crate::specs::Meaning::go, crate::specs::Meaning::weight, dg_language::specs::Control::give_each))]
    pub(crate) fn give_parts(
        &mut self,
        alloc: Global,
        mut names: Queue<Bytes>,
        values: Queue<Bytes>,
    ) -> Result<Pace, AllocError>
        requires { self.old.control ≡ Control.Go }
        ensures { IfOk result (λ p. Comes (giving names values self.old.state (all_back self.old.stack))
            self.old.state.known (weight_of self.old + 5 + 4 * length names) self.new p) }
    {
        let Some(name) = names.next() else {
            self.end(Code::Done, Bytes::from_slice(alloc, b"1")?);
            return Ok(Pace::Moved);
        };
        match self.ready(alloc, name.as_slice())? {
            Some(Pace::Stands(ask)) => {
                names.push_front(name)?;
                self.stack.push(Frame::Giving { names, values })?;
                Ok(Pace::Stands(ask))
            }
            Some(Pace::Over(closing)) => Ok(Pace::Over(closing)),
            Some(Pace::Moved) => Ok(Pace::Moved),
            Some(Pace::Lost) => Ok(Pace::Lost),
            None => self.give_part(alloc, name.as_slice(), names, values),
        }
    }
}
