//! What an evaluation has made so far.
ghost use Rattle.std.specs.Prelude.{◌≡◌, ◌<◌, ◌≤◌, ◌++◌, ℕ, List, None, Some, Ok, Err, OnOk, IfOk, IfSome, MatchResult, length, nat_lt, true};
ghost use Rattle.std.specs.Option.{option_copied};
ghost use Rattle.std.specs.FinMap as map;
ghost use Rattle.dg_scope.specs.Scopes.{value_limit, value_of, with_value};
ghost use Rattle.dg_lists.specs.Canonical.{text_of_list};
ghost use Rattle.dg_lists.specs.Elements.{elements_of};
ghost use Rattle.dg_language.specs.declared.state.TheConstants.{STEPS};
ghost use Rattle.dg_language.specs.Growing.{Gets};
ghost use Rattle.dg_language.specs.Variables.{is_to_begin, first_value, all_linked, or_empty};
ghost use Rattle.dg_language.specs.Procedures.{longest};
ghost use Rattle.dg_language.specs.State.{bound};
ghost use Rattle.dg_language.specs.Touch.{Touches, value_in_use};
ghost use Rattle.dg_language.specs.Completing.{performed};
ghost use Rattle.dg_results.specs.Standing.{after_calls};

use crate::actions::Actions;
use crate::calls::Calls;
use crate::completion::Change;
use crate::procedure::{Binding, Procedure};
use crate::reads::Reads;
use dg_boards::BoardTable;
use dg_bytes::{Bytes, Seq, TryCopy};
use dg_lists::{ListFault, WordFault};
use dg_match::{Hit, Pattern};
use dg_results::{Judging, ResultCall};
use dg_scope::{LONGEST_VALUE, ScopeFault, Scopes, Table, global_name, has_index};
use dg_sessions::{Session, Sessions};
use dg_transcript::{Act, Action, Entry};
use dg_world::{Answer, Question, Read, TestId};
use std::alloc::{AllocError, Global};
use std::marker::Model;

/// The most steps of the board's file, and of the tool's library and the script together.
pub const STEPS: u32 = 100_000;

/// The state of an evaluation.
pub struct State {
    test: TestId,
    calls: Calls,
    on_board: bool,
    earlier: u32,
    steps: u32,
    sessions: Sessions,
    actions: Actions,
    known: Reads,
    variables: Scopes,
    begun: Table<()>,
    procedures: Table<Procedure>,
    libraries: Table<()>,
    board: BoardTable,
}

impl Drop for State {
    fn drop(self) {
        let State {
            test: _,
            calls: _,
            on_board: _,
            earlier: _,
            steps: _,
            sessions: _,
            actions: _,
            known: _,
            variables: _,
            begun: _,
            procedures: _,
            libraries: _,
            board: _,
        } = self;
    }
}

/// What comes before the use of a variable.
#[derive(Drop)]
pub enum Touch {
    /// The variable can be used.
    Ready,
    /// This question has no answer yet.
    Asking(Question),
    /// The value with which the variable would begin is too long.
    TooLong,
}

impl Model for State {
    ghost use Rattle.dg_language.specs.State.{State as Made};

    ghost Value = { Made };

    ghost use Rattle.std.specs.Coded.{codes, coded_list, coded_ℕ};
    ghost use base.Stored.{coded_unit};
    ghost use Rattle.std.specs.Ordering.{nat_cmp};
    ghost use Rattle.std.specs.Cmp.Lexicographic.{slice_cmp};
    ghost use Rattle.std.specs.FinMap as map;
    ghost use Rattle.dg_scope.specs.contracts.scopes.Scopes as scopes;
    ghost use Rattle.dg_sessions.specs.Views.{sessions_code};
    ghost use Rattle.dg_language.specs.contracts.procedure.Procedure as procedure;

    ghost coded = { Prim.hlevel (codes, scopes.the_row.coded, sessions_code, map.code {R = slice_cmp nat_cmp} (coded_list coded_ℕ) procedure.the_row.coded, map.code {R = slice_cmp nat_cmp} (coded_list coded_ℕ) coded_unit) };

    ghost view = { λ s. record { test = s.test; calls = s.calls; on_board = s.on_board; earlier = s.earlier; steps = s.steps; sessions = s.sessions; actions = s.actions; known = s.known; variables = s.variables; begun = s.begun; procedures = s.procedures; libraries = s.libraries; settings = s.board } };
}

#[tactic(auto, unfolding(crate::specs::State::fresh, crate::specs::State::with_call, crate::specs::State::board_steps, crate::specs::State::stepped, crate::specs::State::learn))]
impl State {
    ghost use Rattle.dg_language.specs.State.{fresh, with_call, stepped, taken, board_steps, learn};
    ghost use Rattle.dg_language.specs.Play.{lookup};

    /// Nothing was done yet.
    pub fn new(alloc: Global, test: TestId) -> State
        ensures { result ≡ fresh test }
    {
        State {
            test,
            calls: Calls::new(alloc),
            on_board: true,
            earlier: 0,
            steps: 0,
            sessions: Sessions::new(alloc),
            actions: Actions::new(alloc),
            known: Reads::new(alloc),
            variables: Scopes::new(alloc),
            begun: Table::new(alloc),
            procedures: Table::new(alloc),
            libraries: Table::new(alloc),
            board: BoardTable::new(alloc),
        }
    }

    /// The test that is judged.
    pub fn test(&self) -> &TestId
        ensures { result.now ≡ self.now.test }
    {
        &self.test
    }

    /// All steps that were taken.
    pub fn steps(&self) -> u64
        ensures { result ≡ taken self.now }
    {
        self.earlier as u64 + self.steps as u64
    }

    /// The steps that the board's file took.
    pub fn board_steps(&self) -> u32
        ensures { result ≡ board_steps self.now }
    {
        if self.on_board {
            self.steps
        } else {
            self.earlier
        }
    }

    /// Whether a step is left: of 100,000 for the board's file, and of as many for what comes after it.
    pub fn has_step(&self) -> bool
        ensures { result ≡ nat_lt self.now.steps STEPS }
    {
        self.steps < STEPS
    }

    /// Takes a step.
    pub fn take_step(&mut self)
        requires { self.old.steps < STEPS }
        ensures { self.new ≡ stepped self.old }
    {
        self.steps += 1;
    }

    /// Gives back a step that was taken for nothing.
    pub fn give_step_back(&mut self)
        requires { 0 < self.old.steps }
        ensures { stepped self.new ≡ self.old }
    {
        self.steps -= 1;
    }

    /// Adds a result call.
    pub fn add_call(&mut self, call: ResultCall) -> Result<(), AllocError>
        ensures { OnOk result (self.new ≡ with_call call self.old) }
    {
        self.calls.push(call)
    }

    /// The judging of the result calls.
    pub fn judged(&self, alloc: Global) -> Result<Judging, AllocError>
        ensures { IfOk result (λ j. j ≡ after_calls self.now.calls) }
    {
        self.calls.judged(alloc)
    }

    /// The answer to a question, if it is known.
    pub fn answer_to(&self, question: &Question) -> Option<&Answer>
        ensures { option_copied result ≡ lookup question.now self.now.known }
    {
        self.known.answer_to(question)
    }

    /// The entry at a place of a session of the test, where that was answered last.
    pub fn last_entry(&self, session: u32, place: u32) -> Option<&Entry>
        ensures { IfSome result (λ e. lookup
            (Question.Entry (record { test = self.now.test; session = session; place = place })) self.now.known ≡ Some
            (Answer.Entry e.now)) }
    {
        self.known.last_entry(&self.test, session, place)
    }

    /// Notes the answer to a question that had none.
    pub fn learn(&mut self, question: Question, answer: Answer) -> Result<(), AllocError>
        requires { lookup question self.old.known ≡ None }
        ensures { OnOk result (self.new ≡ learn question answer self.old) }
    {
        self.known.learn(question, answer)
    }

    /// The questions that were answered, in order. `AllocError` if there is no room for their list.
    pub fn into_reads(self) -> Result<Seq<Read>, AllocError>
        ensures { IfOk result (λ reads. reads ≡ self.known) }
    {
        let State {
            test: _,
            calls: _,
            on_board: _,
            earlier: _,
            steps: _,
            sessions: _,
            actions: _,
            known,
            variables: _,
            begun: _,
            procedures: _,
            libraries: _,
            board: _,
        } = self;
        known.into_reads()
    }
}

/// The one fault of a write whose value is no longer than a value may be: a growth was refused.
fn refused(fault: ScopeFault) -> AllocError
    requires { fault ≡ ScopeFault.Memory }
{
    match fault {
        ScopeFault::Memory => AllocError,
        ScopeFault::NoSuchVariable | ScopeFault::TooLong => unreachable!(),
    }
}

/// Gives a variable a value, which is no longer than a value may be.
fn write(variables: &mut Scopes, alloc: Global, name: &[u8], value: Bytes) -> Result<(), AllocError>
    requires { length value ≤ value_limit }
    ensures { OnOk result (variables.new ≡ with_value variables.old name.now value) }
{
    match variables.write(alloc, name, value) {
        Ok(()) => Ok(()),
        Err(fault) => Err(refused(fault)),
    }
}

/// Gives variables these values, none longer than a value may be. Of equal names the first counts.
fn write_all(
    variables: &mut Scopes,
    alloc: Global,
    bindings: Seq<Binding>,
) -> Result<(), AllocError>
    requires { longest bindings ≤ value_limit }
    ensures { OnOk result (variables.new ≡ bound bindings variables.old) }
{
    let mut left = bindings.into_vec();
    while let Some(Binding { name, value }) = left.pop() {
        write(variables, alloc, name.as_slice(), value)?;
    }
    Ok(())
}

/// The value with which a global begins: the line's, or the one that it has of itself.
fn first_value(alloc: Global, name: &[u8], answer: &Answer) -> Result<Option<Bytes>, AllocError>
    ensures { IfOk result (λ v. v ≡ first_value name.now answer.now) }
{
    if let Answer::Value(value) = answer {
        return Ok(Some(value.copy(alloc)?));
    }
    if name == b"timeout".as_slice() {
        return Ok(Some(Bytes::from_slice(alloc, b"10")?));
    }
    Ok(None)
}

#[tactic(auto, unfolding(crate::specs::State::began, crate::specs::State::began_with, crate::specs::State::assigned, crate::specs::State::unassigned, crate::specs::State::linked, crate::specs::State::defined, crate::specs::State::entered, crate::specs::State::departed))]
impl State {
    ghost use Rattle.dg_language.specs.State.{began, began_with, assigned, unassigned, linked, defined, entered, departed};
    ghost use Rattle.std.specs.Prelude.{IsTrue, IsFalse, is_some};

    /// Whether a name is that of a global that has not begun: before its first use what the line sets it to is asked for.
    pub fn is_to_begin(&self, name: &[u8]) -> bool
        ensures { result ≡ is_to_begin name.now self.now }
    {
        let global = global_name(name);
        self.variables.is_global(name) && !has_index(global) && !self.begun.has(global)
    }

    /// Makes a variable ready for its first use.
    pub fn touch(&mut self, alloc: Global, name: &[u8]) -> Result<Touch, AllocError>
        ensures { IfOk result (Touches name.now self.old self.new) }
    {
        if !self.is_to_begin(name) {
            return Ok(Touch::Ready);
        }
        self.touch_first(alloc, name)
    }

    /// Makes a global that has not begun ready for its first use.
    #[cold]
    #[inline(never)]
    fn touch_first(&mut self, alloc: Global, name: &[u8]) -> Result<Touch, AllocError>
        requires { is_to_begin name.now self.old ≡ true }
        ensures { IfOk result (Touches name.now self.old self.new) }
    {
        let global = global_name(name);
        let question = Question::Variable(Bytes::from_slice(alloc, global)?);
        let Some(answer) = self.answer_to(&question) else {
            return Ok(Touch::Asking(question));
        };
        let Some(value) = first_value(alloc, global, answer)? else {
            self.begin(alloc, global)?;
            return Ok(Touch::Ready);
        };
        if value.len() > LONGEST_VALUE {
            return Ok(Touch::TooLong);
        }
        self.begin_with(alloc, global, value)?;
        Ok(Touch::Ready)
    }

    /// A global begins without a value.
    fn begin(&mut self, alloc: Global, name: &[u8]) -> Result<(), AllocError>
        ensures { OnOk result (self.new ≡ began name.now self.old) }
    {
        self.begun.insert(alloc, name, ())?;
        Ok(())
    }

    /// A global begins with a value, which is no longer than a value may be.
    fn begin_with(&mut self, alloc: Global, name: &[u8], value: Bytes) -> Result<(), AllocError>
        requires { length value ≤ value_limit }
        ensures { OnOk result (self.new ≡ began_with name.now value self.old) }
    {
        self.begun.insert(alloc, name, ())?;
        match self.variables.write_global(alloc, name, value) {
            Ok(()) => Ok(()),
            Err(fault) => Err(refused(fault)),
        }
    }

    /// The value of a variable, if it is set.
    pub fn value_of(&self, name: &[u8]) -> Option<&Bytes>
        ensures { option_copied result ≡ value_of self.now.variables name.now }
    {
        self.variables.value(name).ok()
    }

    /// The value of a variable that can be used as it stands: none where it is not set, or is a global that has not begun.
    pub fn value_in_use(&self, name: &[u8]) -> Option<&Bytes>
        ensures { option_copied result ≡ value_in_use name.now self.now }
    {
        if let Some(value) = self.variables.own(name) {
            return Some(value);
        }
        if self.is_to_begin(name) {
            return None;
        }
        self.value_of(name)
    }

    /// Whether a variable is set.
    pub fn is_set(&self, name: &[u8]) -> bool
        ensures { result ≡ is_some (value_of self.now.variables name.now) }
    {
        self.variables.exists(name)
    }

    /// Gives a variable a value, which is no longer than a value may be.
    pub fn assign(&mut self, alloc: Global, name: &[u8], value: Bytes) -> Result<(), AllocError>
        requires { length value ≤ value_limit }
        ensures { OnOk result (self.new ≡ assigned name.now value self.old) }
    {
        write(&mut self.variables, alloc, name, value)?;
        Ok(())
    }

    /// Puts bytes behind the value of a variable, of which one that isn't set has none. Tells whether the
    /// value is no longer than a value may be then; if it would be longer nothing changes.
    pub fn append_text(
        &mut self,
        alloc: Global,
        name: &[u8],
        more: &[u8],
    ) -> Result<bool, AllocError>
        ensures { IfOk result (Gets name.now (or_empty (value_of self.old.variables name.now) ++ more.now) self.old self.new) }
    {
        match self.variables.append_text(alloc, name, more) {
            Ok(()) => Ok(true),
            Err(ScopeFault::TooLong) => Ok(false),
            Err(ScopeFault::NoSuchVariable | ScopeFault::Memory) => Err(AllocError),
        }
    }

    /// Puts elements behind those of the list that is the value of a variable, of which one that isn't set
    /// has none, or tells why that value is no list. Tells whether the value is no longer than a value may
    /// be then; if it would be longer nothing changes.
    pub fn append_elements(
        &mut self,
        alloc: Global,
        name: &[u8],
        more: &[Bytes],
    ) -> Result<Result<bool, WordFault>, AllocError>
        ensures { IfOk result (λ r. MatchResult r
            (λ fits. (xs : List (List ℕ)) × ((elements_of (or_empty (value_of self.old.variables name.now)) ≡ Ok xs) ×
            Gets name.now (text_of_list (xs ++ more.now)) self.old self.new fits))
            (λ fault. (elements_of (or_empty (value_of self.old.variables name.now)) ≡ Err fault) × (self.new ≡ self.old))) }
    {
        match self.variables.append_elements(alloc, name, more) {
            Ok(()) => Ok(Ok(true)),
            Err(ListFault::TooLong) => Ok(Ok(false)),
            Err(ListFault::NoList(fault)) => Ok(Err(fault)),
            Err(ListFault::Memory) => Err(AllocError),
        }
    }

    /// Unsets a variable, if it is set.
    pub fn unassign(&mut self, name: &[u8]) -> bool
        ensures was { result ≡ is_some (value_of self.old.variables name.now) }
        ensures set { IsTrue result → self.new ≡ unassigned name.now self.old }
        ensures unset { IsFalse result → self.new ≡ self.old }
    {
        self.variables.unset(name).is_ok()
    }

    /// Links a name to the global of that name.
    fn link(&mut self, alloc: Global, name: &[u8]) -> Result<(), AllocError>
        ensures { OnOk result (self.new ≡ linked name.now self.old) }
    {
        self.variables.link_global(alloc, name)?;
        Ok(())
    }

    /// Links names to the globals of these names.
    pub fn link_all(&mut self, alloc: Global, names: &[Bytes]) -> Result<(), AllocError>
        ensures { OnOk result (self.new ≡ all_linked names.now self.old) }
    {
        for name in names {
            self.link(alloc, name.as_slice())?;
        }
        Ok(())
    }

    /// The procedure of a name.
    pub fn procedure(&self, name: &[u8]) -> Option<&Procedure>
        ensures { option_copied result ≡ map.get self.now.procedures name.now }
    {
        self.procedures.get(name)
    }

    /// Gives a name a procedure.
    pub fn define(
        &mut self,
        alloc: Global,
        name: &[u8],
        procedure: Procedure,
    ) -> Result<(), AllocError>
        ensures { OnOk result (self.new ≡ defined name.now procedure self.old) }
    {
        self.procedures.insert(alloc, name, procedure)?;
        Ok(())
    }

    /// A procedure's own scope begins, in which its parameters have these values, none longer than a value may be. Of equal
    /// names the first counts.
    pub fn enter(&mut self, alloc: Global, bindings: Seq<Binding>) -> Result<(), AllocError>
        requires { longest bindings ≤ value_limit }
        ensures { OnOk result (self.new ≡ entered bindings self.old) }
    {
        self.actions.enter(false)?;
        self.variables.push(alloc)?;
        write_all(&mut self.variables, alloc, bindings)
    }

    /// The procedure's scope ends.
    pub fn leave(&mut self)
        ensures { self.new ≡ departed self.old }
    {
        self.actions.leave();
        if self.variables.can_pop() {
            self.variables.pop();
        }
    }
}

#[tactic(auto, unfolding(crate::specs::State::with_board_made, crate::specs::State::marked, crate::specs::State::in_library, crate::specs::State::setting_of, crate::specs::State::with_setting, crate::specs::State::without_setting))]
impl State {
    ghost use Rattle.dg_language.specs.State.{with_board_made, marked, in_library, setting_of, with_setting, without_setting};

    /// Whether the board's file is evaluated. Until it has ended, no command records a result.
    pub fn is_on_board(&self) -> bool
        ensures { result ≡ self.now.on_board }
    {
        self.on_board
    }

    /// The board's file has been evaluated, or there is none: its settings stay, all else begins anew.
    pub fn leave_board(&mut self, alloc: Global)
        ensures { self.new ≡ with_board_made self.old }
    {
        self.on_board = false;
        self.earlier = self.steps;
        self.steps = 0;
        self.variables = Scopes::new(alloc);
        self.begun = Table::new(alloc);
        self.procedures = Table::new(alloc);
        self.libraries = Table::new(alloc);
    }

    /// Whether a library has begun.
    pub fn has_begun(&self, library: &[u8]) -> bool
        ensures { result ≡ map.contains_key self.now.libraries library.now }
    {
        self.libraries.has(library)
    }

    /// A library counts as begun.
    pub fn mark(&mut self, alloc: Global, library: &[u8]) -> Result<(), AllocError>
        ensures { OnOk result (self.new ≡ marked library.now self.old) }
    {
        self.libraries.insert(alloc, library, ())?;
        Ok(())
    }

    /// A library begins, in the global scope, until `leave`.
    pub fn enter_library(&mut self, alloc: Global, library: &[u8]) -> Result<(), AllocError>
        ensures { OnOk result (self.new ≡ in_library library.now self.old) }
    {
        self.mark(alloc, library)?;
        self.actions.enter(false)?;
        self.variables.push_outermost()?;
        Ok(())
    }

    /// The board's setting of a key. `name` has the board's name.
    pub fn setting(&self, key: &Bytes) -> Option<&[u8]>
        ensures { option_copied result ≡ setting_of key.now self.now }
    {
        if key.is(b"name") {
            return Some(self.test.board().as_slice());
        }
        self.board.get(key).map(|value| value.as_slice())
    }

    /// Sets a key that has no setting, and leaves one that has.
    pub fn set_first(&mut self, key: Bytes, value: Bytes) -> Result<(), AllocError>
        ensures { OnOk result (self.new ≡ with_setting key value self.old) }
    {
        if self.setting(&key).is_none() {
            self.board.set_first(key, value)?;
        }
        Ok(())
    }

    /// Removes the setting of a key, if it has one. That of `name` stays.
    pub fn unset_setting(&mut self, key: &Bytes)
        ensures { self.new ≡ without_setting key.now self.old }
    {
        self.board.unset(key);
    }

    /// Makes the change of a command that has completed.
    pub fn perform(&mut self, alloc: Global, change: Change) -> Result<(), AllocError>
        ensures { OnOk result (self.new ≡ performed change self.old) }
    {
        match change {
            Change::Nothing => Ok(()),
            Change::Calls(call) => self.add_call(call),
            Change::Sets(key, value) => self.set_first(key, value),
            Change::Unsets(key) => {
                self.unset_setting(&key);
                Ok(())
            }
            Change::Defines(name, procedure) => self.define(alloc, name.as_slice(), procedure),
        }
    }
}

#[tactic(auto, unfolding(crate::specs::State::with_sessions, crate::specs::State::in_action, crate::specs::State::out_of_action))]
impl State {
    ghost use Rattle.std.specs.Prelude.{IsSome, IsSomeAnd, IfSome, ◌<◌, ◌+◌, nat_lt, take};
    ghost use Rattle.dg_sessions.specs.Views.{most_entries, most_kept, most_sessions, session_at};
    ghost use Rattle.dg_sessions.specs.Steps.{all_acted, changed, emptied, limited, step_of, taken, with_session};
    ghost use Rattle.dg_match.specs.Hits.{LiesIn, hit_of};
    ghost use Rattle.dg_language.specs.State.{with_sessions, in_action, out_of_action, stands_in_action};

    /// The sessions of the test.
    pub fn sessions(&self) -> &Sessions
        ensures { result.now ≡ self.now.sessions }
    {
        &self.sessions
    }

    /// The session of a number, from 1 on.
    pub fn session(&self, number: u32) -> Option<&Session>
        ensures { option_copied result ≡ session_at number self.now.sessions }
    {
        self.sessions.get(number)
    }

    /// The next session begins, which has not started, and its number is given.
    pub fn begin_session(&mut self, alloc: Global) -> Result<u32, AllocError>
        requires { length self.old.sessions.all < most_sessions }
        ensures number { IfOk result (λ n. n ≡ length self.old.sessions.all + 1) }
        ensures next { OnOk result (self.new ≡ with_sessions (with_session self.old.sessions) self.old) }
    {
        self.sessions.begin(alloc)
    }

    /// One step of an action of a session at its entry.
    pub fn act(
        &mut self,
        alloc: Global,
        number: u32,
        action: &mut Action,
        entry: &Entry,
    ) -> Result<Act, AllocError>
        requires there { IsSome (session_at number self.old.sessions) }
        requires room { self.old.sessions.used < most_entries }
        ensures gives { IfOk result
            (λ act. IfSome (session_at number self.old.sessions) (λ s. act ≡ (step_of s action.old entry.now).act)) }
        ensures next { OnOk result (self.new ≡ with_sessions (all_acted number action.old entry.now self.old.sessions) self.old) }
        ensures limit { IfSome (session_at number self.old.sessions) (λ s. action.new ≡ (step_of s action.old entry.now).action) }
    {
        self.sessions.act(alloc, number, action, entry)
    }

    /// The first of the patterns that has a match in what a session has read, with its match.
    pub fn try_patterns(
        &mut self,
        alloc: Global,
        number: u32,
        patterns: &[Pattern],
    ) -> Result<Option<Hit>, AllocError>
        requires { IsSome (session_at number self.old.sessions) }
        ensures hit { IfSome (session_at number self.old.sessions)
            (λ s. IfOk result (λ hit. hit ≡ hit_of patterns.now s.buffer)) }
        ensures within { IfSome (session_at number self.old.sessions) (λ s. IfOk result (λ hit. IfSome hit (LiesIn s.buffer))) }
        ensures same { self.new ≡ self.old }
    {
        self.sessions.try_patterns(alloc, number, patterns)
    }

    /// Takes what a session has read up to the end of a hit.
    pub fn take_match(&mut self, alloc: Global, number: u32, hit: &Hit) -> Result<Bytes, AllocError>
        requires { IsSomeAnd (session_at number self.old.sessions) (λ s. hit.now.end ≤ length s.buffer) }
        ensures taken { IfSome (session_at number self.old.sessions)
            (λ s. IfOk result (λ bytes. bytes ≡ take hit.now.end s.buffer)) }
        ensures left { OnOk result (self.new ≡ with_sessions (changed number (taken hit.now.end) self.old.sessions) self.old) }
    {
        self.sessions.take(alloc, number, hit)
    }

    /// Takes all that a session has read.
    pub fn take_all(&mut self, alloc: Global, number: u32) -> Bytes
        requires { IsSome (session_at number self.old.sessions) }
        ensures taken { IfSome (session_at number self.old.sessions) (λ s. result ≡ s.buffer) }
        ensures left { self.new ≡ with_sessions (changed number emptied self.old.sessions) self.old }
    {
        self.sessions.take_all(alloc, number)
    }

    /// A session keeps at most so many bytes.
    pub fn set_session_limit(&mut self, number: u32, max: usize)
        requires there { IsSome (session_at number self.old.sessions) }
        requires some { 1 ≤ max }
        requires most { max ≤ most_kept }
        ensures { self.new ≡ with_sessions (changed number (limited max) self.old.sessions) self.old }
    {
        self.sessions.set_max(number, max);
    }

    /// Later sessions keep at most so many bytes.
    pub fn set_later_limit(&mut self, max: usize)
        requires some { 1 ≤ max }
        requires most { max ≤ most_kept }
        ensures { self.new ≡ with_sessions (record self.old.sessions { max = max }) self.old }
    {
        self.sessions.set_later_max(max);
    }

    /// Whether evaluation stands in an action of `expect`, and in no procedure or file inside of it.
    pub fn is_in_action(&self) -> bool
        ensures { result ≡ stands_in_action self.now.actions }
    {
        self.actions.is_in_action()
    }

    /// An action of `expect` begins.
    pub fn enter_action(&mut self) -> Result<(), AllocError>
        ensures { OnOk result (self.new ≡ in_action self.old) }
    {
        self.actions.enter(true)
    }

    /// An action of `expect` has ended.
    pub fn leave_action(&mut self)
        ensures { self.new ≡ out_of_action self.old }
    {
        self.actions.leave();
    }
}
