//! `expect`.
ghost use Rattle.std.specs.Prelude.{◌≡◌, ◌+◌, ◌*◌, ◌^◌, ◌<◌, IfOk};
ghost use Rattle.std.specs.Option.{option_copied};
ghost use Rattle.dg_language.specs.ExpectWords.{is_for_end};
ghost use Rattle.dg_language.specs.Expecting.{act, after_action, bytes_of, do_expect, expect_with, first_action, or_ten, tries, with_end, with_number};
ghost use Rattle.dg_expr.specs.Number.{number_of};
ghost use Rattle.dg_language.specs.Language.{evaluate};
ghost use Rattle.dg_machine.specs.declared.frame.Control.{Control};
ghost use Rattle.dg_machine.specs.declared.frame.Reach.{Reach};
ghost use Rattle.dg_language.specs.ExpectWords.{regexes_in};
ghost use Rattle.dg_machine.specs.Acting.{compiled_with, compiling_on, first_round};
ghost use Rattle.dg_machine.specs.Patterns.{AreRead};
ghost use Rattle.dg_machine.specs.Acting.{again, awaiting, limit_in, limiting, reach_weight, waiting_of};
ghost use Rattle.dg_machine.specs.Meaning.{all_back, weight_of, Comes, Goes, GoesAs};

use crate::frame::{Came, Compiling, Frame, Limiting, Pace, Reach, Wait, plain_ask};
use crate::gather::push_all;
use crate::machine::Machine;
use crate::matches::{find_match, keep_end, keep_match};
use crate::patterns::{Known, Prepared, readings_of};
use crate::regexp::CANNOT_COMPILE;
use dg_asking::{Attempt, Fit, has_session, seek_session, sought};
use dg_bytes::{Bytes, Seq, TryCopy};
use dg_forms::{
    action_at, end_action, expect_words, expected_integer, limit_of, listed, not_open, regexes_in,
    timeout_action,
};
use dg_language::{Code, Purpose};
use dg_lists::fault_text;
use dg_sessions::id_of;
use dg_transcript::Action;
use std::alloc::{AllocError, Global};

/// The most rounds of an `expect`: each `exp_continue` takes a step.
const ROUNDS: u32 = 100_001;

impl Machine {
    /// An action of `expect` begins; one that was left out does nothing.
    #[tactic(auto, unfolding(crate::specs::Meaning::rest, crate::specs::Meaning::back, crate::specs::Meaning::all_back, crate::specs::Meaning::weight, crate::specs::Meaning::stack_weight))]
    fn run_action(
        &mut self,
        alloc: Global,
        wait: Wait,
        action: Option<Bytes>,
    ) -> Result<Pace, AllocError>
        requires { self.old.control ≡ Control.Go }
        ensures { IfOk result (λ p. Goes (act (evaluate wait.depth) wait.session action
            (again wait (all_back self.old.stack)) self.old.state (all_back self.old.stack)) self.old.state.known
            (weight_of self.old + 256 * wait.left + 16) self.new p) }
    {
        let Some(action) = action else {
            self.end(Code::Done, Bytes::new(alloc));
            return Ok(Pace::Moved);
        };
        let depth = wait.depth;
        self.state.enter_action()?;
        self.stack.push(Frame::Awaiting {
            reach: Reach::InAction,
            wait,
        })?;
        self.enter(alloc, action, depth)
    }

    /// The first of the patterns that has a match in what was read is taken; or the session is read, for so many
    /// milliseconds at most.
    fn try_output(&mut self, alloc: Global, wait: Wait, limit: u32) -> Result<Pace, AllocError>
        requires { self.old.control ≡ Control.Go }
        ensures { IfOk result (λ p. Goes (tries (evaluate wait.depth) (waiting_of wait)
            (again wait (all_back self.old.stack)) self.old.state (all_back self.old.stack)
            (awaiting (Reach.Reading limit) wait self.old.state (all_back self.old.stack))) self.old.state.known
            (weight_of self.old + 256 * wait.left + 31) self.new p) }
    {
        let patterns = wait.pairs.patterns();
        let hit = find_match(alloc, &mut self.state, wait.session, patterns)?;
        let Some(hit) = hit else {
            self.stack.push(Frame::Awaiting {
                reach: Reach::Reading(limit),
                wait,
            })?;
            return Ok(Pace::Moved);
        };
        keep_match(alloc, &mut self.state, wait.session, &hit)?;
        let action = copied(alloc, action_at(wait.pairs.pairs(), hit.index))?;
        self.run_action(alloc, wait, action)
    }

    /// A round begins, if one is left.
    fn begin_round(&mut self, alloc: Global, mut wait: Wait) -> Result<Pace, AllocError>
        requires { self.old.control ≡ Control.Go }
        ensures { IfOk result (λ p. Goes (again wait (all_back self.old.stack) self.old.state) self.old.state.known
            (weight_of self.old + 256 * wait.left + 5) self.new p) }
    {
        if wait.left == 0 {
            let closing = self.out_of_steps(alloc)?;
            return Ok(Pace::Over(closing));
        }
        wait.left -= 1;
        let limit = wait.limit;
        self.try_output(alloc, wait, limit)
    }

    /// The output of a session has ended.
    fn after_end(&mut self, alloc: Global, wait: Wait) -> Result<Pace, AllocError>
        requires { self.old.control ≡ Control.Go }
        ensures { IfOk result (λ p. Goes (act (evaluate wait.depth) wait.session (first_action is_for_end wait.pairs)
            (again wait (all_back self.old.stack))
            (with_end wait.session (bytes_of wait.session self.old.state) self.old.state) (all_back self.old.stack))
            self.old.state.known (weight_of self.old + 256 * wait.left + 16) self.new p) }
    {
        keep_end(alloc, &mut self.state, wait.session)?;
        let action = copied(alloc, end_action(wait.pairs.pairs()))?;
        self.run_action(alloc, wait, action)
    }

    /// The session of an `expect` is read, for so many milliseconds at most.
    #[tactic(auto, unfolding(crate::specs::Meaning::rest, crate::specs::Meaning::go))]
    fn read_on(&mut self, alloc: Global, wait: Wait, limit: u32) -> Result<Pace, AllocError>
        requires { self.old.control ≡ Control.Go }
        ensures { IfOk result (λ p. Comes (awaiting (Reach.Reading limit) wait self.old.state (all_back self.old.stack))
            self.old.state.known (weight_of self.old + 256 * wait.left + 30) self.new p) }
    {
        let mut action = Action::Read(limit);
        match self.perform(alloc, wait.session, &mut action)? {
            Came::Stands(ask) => {
                self.stack.push(Frame::Awaiting {
                    reach: Reach::Reading(limit),
                    wait,
                })?;
                Ok(Pace::Stands(ask))
            }
            Came::Over(closing) => Ok(Pace::Over(closing)),
            Came::Passed => {
                self.stack.push(Frame::Awaiting {
                    reach: Reach::Reading(left_of(&action)),
                    wait,
                })?;
                Ok(Pace::Moved)
            }
            Came::Answered(entry) => match entry.output() {
                Some(_) => self.try_output(alloc, wait, left_of(&action)),
                None => self.after_end(alloc, wait),
            },
            Came::Late => {
                let action = copied(alloc, timeout_action(wait.pairs.pairs()))?;
                self.run_action(alloc, wait, action)
            }
        }
    }

    /// An `expect` goes on from where it stands.
    pub(crate) fn await_output(
        &mut self,
        alloc: Global,
        reach: Reach,
        wait: Wait,
    ) -> Result<Pace, AllocError>
        requires { self.old.control ≡ Control.Go }
        ensures { IfOk result (λ p. Comes (awaiting reach wait self.old.state (all_back self.old.stack))
            self.old.state.known (weight_of self.old + 256 * wait.left + reach_weight reach) self.new p) }
    {
        match reach {
            Reach::Trying => self.begin_round(alloc, wait),
            Reach::Reading(limit) => self.read_on(alloc, wait, limit),
            Reach::InAction => Ok(self.go_up(Code::Done, Bytes::new(alloc))),
        }
    }

    /// An action of `expect` has ended: `exp_continue` waits once more.
    #[tactic(auto, unfolding(crate::specs::Meaning::rest, crate::specs::Meaning::go, crate::specs::Meaning::weight, crate::specs::Meaning::stack_weight))]
    pub(crate) fn after_action(
        &mut self,
        alloc: Global,
        wait: Wait,
        code: Code,
        value: Bytes,
    ) -> Result<Pace, AllocError>
        requires { self.old.control ≡ Control.Go }
        ensures { IfOk result (λ p. Goes (after_action wait.session (again wait (all_back self.old.stack))
            (all_back self.old.stack) code value self.old.state) self.old.state.known
            (weight_of self.old + 256 * wait.left + 6) self.new p) }
    {
        self.state.leave_action();
        match code {
            Code::ExpContinued => {
                if !has_session(&self.state, Fit::Open, wait.session) {
                    let id = id_of(alloc, wait.session)?;
                    let message = not_open(alloc, id.as_slice())?;
                    return self.fail(alloc, message);
                }
                self.stack.push(Frame::Awaiting {
                    reach: Reach::Trying,
                    wait,
                })?;
                Ok(Pace::Moved)
            }
            Code::Done | Code::Failed | Code::Returned | Code::Broken | Code::Continued => {
                Ok(self.go_up(code, value))
            }
        }
    }

    /// The patterns of an `expect`, which are read, are built, and its first round comes next.
    #[tactic(auto, unfolding(crate::specs::Meaning::rest, crate::specs::Meaning::go, crate::specs::Meaning::weight, crate::specs::Meaning::stack_weight))]
    fn first_round(&mut self, alloc: Global, compiling: Compiling) -> Result<Pace, AllocError>
        requires go { self.old.control ≡ Control.Go }
        requires read { AreRead (regexes_in compiling.pairs) self.old.state.known }
        ensures { IfOk result (GoesAs (first_round compiling) (2 ^ 50) self.old self.new) }
    {
        let Compiling {
            session,
            pairs,
            limit,
            depth,
        } = compiling;
        let Some(pairs) = Prepared::new(alloc, &mut self.shelves.programs, pairs)? else {
            return Ok(Pace::Lost);
        };
        let wait = Wait {
            session,
            pairs,
            limit,
            left: ROUNDS,
            depth,
        };
        self.stack.push(Frame::Awaiting {
            reach: Reach::Trying,
            wait,
        })?;
        Ok(Pace::Moved)
    }

    /// The `-re` patterns of an `expect` are asked for.
    #[tactic(auto, unfolding(crate::specs::Meaning::rest, crate::specs::Meaning::go))]
    pub(crate) fn compile(
        &mut self,
        alloc: Global,
        compiling: Compiling,
    ) -> Result<Pace, AllocError>
        requires { self.old.control ≡ Control.Go }
        ensures { IfOk result (λ p. Comes (compiling_on compiling self.old.state (all_back self.old.stack))
            self.old.state.known (weight_of self.old + 2 ^ 55) self.new p) }
    {
        let texts = regexes_in(alloc, compiling.pairs.as_slice())?;
        match readings_of(alloc, &self.state, texts.as_slice())? {
            Known::Unasked(question) => {
                self.stack.push(Frame::Compiling { compiling })?;
                let ask = plain_ask(alloc, question)?;
                Ok(Pace::Stands(ask))
            }
            Known::OneUnread => {
                let message = Bytes::from_slice(alloc, CANNOT_COMPILE)?;
                self.fail(alloc, message)
            }
            Known::AllRead => self.first_round(alloc, compiling),
        }
    }

    /// The limit of an `expect` is a flag's, or that of `timeout`; its patterns come next.
    #[tactic(auto, unfolding(crate::specs::Meaning::rest, crate::specs::Meaning::go, crate::specs::Meaning::weight, crate::specs::Meaning::stack_weight))]
    fn begin_compiling(
        &mut self,
        alloc: Global,
        limiting: Limiting,
        text: &[u8],
    ) -> Result<Pace, AllocError>
        requires { self.old.control ≡ Control.Go }
        ensures { IfOk result (λ p. Goes (with_number text.now (number_of text.now) self.old.state (all_back self.old.stack)
            (λ limit. compiled_with limiting limit self.old.state (all_back self.old.stack))) self.old.state.known
            (weight_of self.old + 2 ^ 60) self.new p) }
    {
        let Some(limit) = limit_of(text) else {
            let message = expected_integer(alloc, text)?;
            return self.fail(alloc, message);
        };
        let Limiting {
            timeout: _,
            session,
            pairs,
            depth,
        } = limiting;
        let compiling = Compiling {
            session,
            pairs,
            limit,
            depth,
        };
        self.stack.push(Frame::Compiling { compiling })?;
        Ok(Pace::Moved)
    }

    /// The limit of an `expect` is sought.
    pub(crate) fn seek_limit(
        &mut self,
        alloc: Global,
        expecting: Limiting,
    ) -> Result<Pace, AllocError>
        requires { self.old.control ≡ Control.Go }
        ensures { IfOk result (λ p. Comes (limiting expecting self.old.state (all_back self.old.stack)) self.old.state.known
            (weight_of self.old + 2 ^ 100) self.new p) }
    {
        if let Some(timeout) = &expecting.timeout {
            let text = timeout.copy(alloc)?;
            return self.begin_compiling(alloc, expecting, text.as_slice());
        }
        let name = sought(alloc, &self.state, b"timeout")?;
        match self.ready(alloc, name.as_slice())? {
            Some(Pace::Stands(ask)) => {
                self.stack.push(Frame::Limiting {
                    limiting: expecting,
                })?;
                Ok(Pace::Stands(ask))
            }
            Some(Pace::Over(closing)) => Ok(Pace::Over(closing)),
            Some(Pace::Moved) => Ok(Pace::Moved),
            Some(Pace::Lost) => Ok(Pace::Lost),
            None => {
                let text = or_ten(alloc, self.state.value_of(name.as_slice()))?;
                self.begin_compiling(alloc, expecting, text.as_slice())
            }
        }
    }

    /// `expect` with these words, whose session is sought.
    pub(crate) fn expect_words(
        &mut self,
        alloc: Global,
        words: Seq<Bytes>,
        depth: u32,
    ) -> Result<Pace, AllocError>
        requires { self.old.control ≡ Control.Go }
        ensures { IfOk result (λ p. Comes (expect_with (evaluate depth) words self.old.state (all_back self.old.stack))
            self.old.state.known (weight_of self.old + 2 ^ 200) self.new p) }
    {
        let expectation = match expect_words(alloc, words.as_slice())? {
            Ok(expectation) => expectation,
            Err(message) => return self.fail(alloc, message),
        };
        let (timeout, id, pairs) = expectation.into_parts();
        match seek_session(alloc, &mut self.state, Fit::Open, id)? {
            Ok(session) => {
                let limiting = Limiting {
                    timeout,
                    session,
                    pairs,
                    depth,
                };
                self.stack.push(Frame::Limiting { limiting })?;
                Ok(Pace::Moved)
            }
            Err(Attempt::Ends(outcome)) => self.end_as(alloc, outcome),
            Err(Attempt::Asks(question)) => {
                self.stack.push(Frame::Expecting { words, depth })?;
                let ask = plain_ask(alloc, question)?;
                Ok(Pace::Stands(ask))
            }
        }
    }

    /// `expect`, whose words may be a list in one argument, which are substituted first.
    pub(crate) fn expect(
        &mut self,
        alloc: Global,
        args: &[Bytes],
        depth: u32,
    ) -> Result<Pace, AllocError>
        requires { self.old.control ≡ Control.Go }
        ensures { IfOk result (GoesAs (do_expect (evaluate depth) args.now) (2 ^ 249) self.old self.new) }
    {
        let Some(list) = listed(args) else {
            let mut words = Seq::new(alloc);
            push_all(alloc, &mut words, args)?;
            self.stack.push(Frame::Expecting { words, depth })?;
            return Ok(Pace::Moved);
        };
        let words = self.shelves.word_lists.reading(alloc, list)?;
        match words.begun(alloc, &self.state, Purpose::Expect)? {
            Ok(making) => {
                // The call shows the proof that the length is a `usize`.
                let _count = making.left.len();
                self.stack.push(Frame::Gathering { making, depth })?;
                Ok(Pace::Moved)
            }
            Err(fault) => {
                let message = Bytes::from_slice(alloc, fault_text(fault))?;
                self.fail(alloc, message)
            }
        }
    }
}

/// An equal text, if there is one.
fn copied(alloc: Global, text: Option<&Bytes>) -> Result<Option<Bytes>, AllocError>
    ensures { IfOk result (λ t. t ≡ option_copied text.entry) }
{
    match text {
        Some(text) => Ok(Some(text.copy(alloc)?)),
        None => Ok(None),
    }
}

/// A value, or the text `10` in the place of none.
fn or_ten(alloc: Global, value: Option<&Bytes>) -> Result<Bytes, AllocError>
    ensures { IfOk result (λ b. b ≡ or_ten (option_copied value.entry)) }
{
    match value {
        Some(value) => value.copy(alloc),
        None => Bytes::from_slice(alloc, b"10"),
    }
}

/// What is left of a read's limit.
fn left_of(action: &Action) -> u32
    ensures { result ≡ limit_in action.now }
{
    match action {
        Action::Read(left) => *left,
        Action::Spawn(_) | Action::Send(_) | Action::Close | Action::Wait => 0,
    }
}
