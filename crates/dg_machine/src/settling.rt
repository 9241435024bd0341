//! Commands that run where they stand: `set` of a variable that has not to begin and `incr` of one in use, by words that are
//! texts or values of variables in use; `expr` of a text that comes to its value by itself; `set` of a variable to the value of
//! such an `expr` in brackets, and `return` of one. Nothing is asked for them, and no frame stands around them.
ghost use Rattle.std.specs.Prelude.{◌≡◌, ◌≤◌, ◌<◌, ℕ, List, codes, drop, length, IfNone, IfOk, IfSome, None, Ok, OnOk, Some};
ghost use Rattle.std.specs.Arc.{arc_value};
ghost use Rattle.std.specs.Bool.{OnFalse};
ghost use Rattle.std.specs.FinMap as procedures;
ghost use Rattle.dg_scope.specs.Scopes.{value_limit};
ghost use Rattle.dg_language.specs.declared.substitution.Substitution.{Substitution as Step};
ghost use Rattle.dg_language.specs.Variables.{increased};
ghost use Rattle.dg_compiled.specs.Ways.{HasCode, HasWay, HasWord};
ghost use Rattle.dg_compiled.specs.declared.ways.Way.{Way as TheWay};
ghost use Rattle.dg_machine.specs.Settling.{AsksNothing, ComesBy, GoesOnAs, HasText, IsAfter, Passes, Returns, Sets, Settles, Yields};

use crate::machine::Machine;
use dg_bytes::{Bytes, TryCopy};
use dg_compiled::{
    Calculation, Commands, Computed, Formula, KEPT, Script, Way, compute_on, ends_word,
    literal_word, short_text,
};
use dg_expr::decimal;
use dg_forms::{in_decimal, increased};
use dg_language::{State, Substitution};
use dg_scope::LONGEST_VALUE;
use std::alloc::{AllocError, Global};
use std::sync::Arc;

/// A value, unless it is longer than a value may be.
fn short(value: Bytes) -> Option<Bytes>
    ensures same { IfSome result (λ v. v ≡ value) }
    ensures short { IfSome result (λ v. length v ≤ value_limit) }
{
    if value.len() > LONGEST_VALUE {
        return None;
    }
    Some(value)
}

/// The word at a place, where its steps are one text, or the value of one variable that is in use.
fn text_word<'a>(state: &'a State, steps: &'a [Substitution], at: usize) -> Option<&'a Bytes>
    requires { at ≤ 4 }
    ensures word { IfSome result (λ v. HasText steps.now at state.now v.now) }
    ensures short { IfSome result (λ v. length v.now ≤ value_limit) }
{
    if at + 2 > steps.len() || !ends_word(&steps[at + 1]) {
        return None;
    }
    short_text(state, &steps[at])
}

/// Whether a procedure hides the command of this name.
fn is_hidden(state: &State, name: &[u8]) -> bool
    ensures { OnFalse result (procedures.get state.now.procedures name.now ≡ None) }
{
    state.procedure(name).is_some()
}

/// The value that `set name value` gives a variable that has not to begin, if it runs where it stands.
fn value_set(
    alloc: Global,
    state: &State,
    steps: &[Substitution],
    name: &Bytes,
) -> Result<Option<Bytes>, AllocError>
    requires command { HasWord steps.now 0 (Step.Literal (codes "set")) }
    requires name { HasWord steps.now 2 (Step.Literal name.now) }
    requires short { length name.now ≤ value_limit }
    ensures sets { IfOk result (λ o. IfSome o (λ v. Sets steps.now state.now name.now v)) }
    ensures short { IfOk result (λ o. IfSome o (λ v. length v ≤ value_limit)) }
{
    if steps.len() != 6 {
        return Ok(None);
    }
    let Some(value) = text_word(state, steps, 4) else {
        return Ok(None);
    };
    if is_hidden(state, b"set") {
        return Ok(None);
    }
    if state.is_to_begin(name.as_slice()) {
        return Ok(None);
    }
    Ok(Some(value.copy(alloc)?))
}

/// The sum of a value and a number, if it is one that 64 bits hold.
fn sum(alloc: Global, old: &Bytes, by: &[u8]) -> Result<Option<Bytes>, AllocError>
    ensures sum { IfOk result (λ o. IfSome o (λ v. increased old.now by.now ≡ Ok v)) }
    ensures short { IfOk result (λ o. IfSome o (λ v. length v ≤ value_limit)) }
{
    match increased(alloc, old.as_slice(), by)? {
        Ok(sum) => Ok(short(sum)),
        Err(_) => Ok(None),
    }
}

/// The value that `incr name` or `incr name number` gives a variable in use, if it runs where it stands.
fn value_counted(
    alloc: Global,
    state: &State,
    steps: &[Substitution],
    name: &Bytes,
) -> Result<Option<Bytes>, AllocError>
    requires command { HasWord steps.now 0 (Step.Literal (codes "incr")) }
    requires name { HasWord steps.now 2 (Step.Literal name.now) }
    requires short { length name.now ≤ value_limit }
    ensures sets { IfOk result (λ o. IfSome o (λ v. Sets steps.now state.now name.now v)) }
    ensures short { IfOk result (λ o. IfSome o (λ v. length v ≤ value_limit)) }
{
    if is_hidden(state, b"incr") {
        return Ok(None);
    }
    let Some(old) = state.value_in_use(name.as_slice()) else {
        return Ok(None);
    };
    if steps.len() == 4 {
        let value = sum(alloc, old, b"1")?;
        return Ok(value);
    }
    if steps.len() != 6 {
        return Ok(None);
    }
    let Some(by) = text_word(state, steps, 4) else {
        return Ok(None);
    };
    let value = sum(alloc, old, by.as_slice())?;
    Ok(value)
}

/// The value of an `expr` of this code, where it comes to one by itself.
fn value_computed(
    alloc: Global,
    state: &State,
    formula: &Arc<Formula>,
    depth: u32,
) -> Result<Option<Bytes>, AllocError>
    ensures value { IfOk result (λ o. IfSome o
        (λ v. (steps : List Step) → HasCode steps (arc_value formula.now) → Settles depth steps state.now v state.now)) }
    ensures short { IfOk result (λ o. IfSome o (λ v. length v ≤ value_limit)) }
{
    if is_hidden(state, b"expr") {
        return Ok(None);
    }
    let Some(mut calculation) = Calculation::of(alloc, Arc::try_clone(formula)?, depth) else {
        return Ok(None);
    };
    match compute_on(alloc, state, &mut calculation)? {
        Computed::Value(value) => {
            let value = in_decimal(alloc, value)?;
            Ok(short(value))
        }
        Computed::Whole(number) => {
            let value = decimal(alloc, number)?;
            Ok(short(value))
        }
        Computed::Failed(_) | Computed::Operand(_) => Ok(None),
    }
}

/// Whether a script begins as an `expr` does.
fn begins_expr(script: &Bytes) -> bool {
    matches!(script.as_slice(), [b'e', b'x', b'p', b'r', ..])
}

impl Machine {
    /// The value of a script that has one command, an `expr` of this code, where it comes to one by itself. Its step is taken
    /// then; else nothing has changed.
    fn value_of_only(
        &mut self,
        alloc: Global,
        formula: &Arc<Formula>,
        depth: u32,
    ) -> Result<Option<Bytes>, AllocError>
        ensures some { IfOk result (λ o. IfSome o (λ v. Yields depth (arc_value formula.now) self.old.state v)) }
        ensures short { IfOk result (λ o. IfSome o (λ v. length v ≤ value_limit)) }
        ensures after { IfOk result (λ o. IsAfter o self.old.state self.new.state) }
        ensures same { OnOk result (self.new ≡ record self.old { state = self.new.state }) }
    {
        if !self.state.has_step() {
            return Ok(None);
        }
        self.state.take_step();
        match value_computed(alloc, &self.state, formula, depth)? {
            Some(value) => Ok(Some(value)),
            None => {
                self.state.give_step_back();
                Ok(None)
            }
        }
    }

    /// The value of a script that is one expression and comes to its value by itself. Its step is taken then; else nothing has
    /// changed.
    pub(crate) fn value_of_script(
        &mut self,
        alloc: Global,
        script: &Bytes,
        depth: u32,
    ) -> Result<Option<Bytes>, AllocError>
        ensures some { IfOk result (λ o. IfSome o (λ v. ComesBy depth script.now self.old.state v)) }
        ensures after { IfOk result (λ o. IsAfter o self.old.state self.new.state) }
        ensures same { OnOk result (self.new ≡ record self.old { state = self.new.state }) }
    {
        if depth == 0 || script.len() > KEPT || !begins_expr(script) {
            return Ok(None);
        }
        let commands = self.shelves.scripts.reading(alloc, script)?;
        if commands.count() != 1 {
            return Ok(None);
        }
        let Some((_steps, Way::Computing(formula))) = commands.way_at(0) else {
            return Ok(None);
        };
        let value = self.value_of_only(alloc, formula, depth - 1)?;
        Ok(value)
    }

    /// Runs a `set` of these words.
    fn set_in_place(
        &mut self,
        alloc: Global,
        steps: &[Substitution],
    ) -> Result<Option<Bytes>, AllocError>
        requires { HasWord steps.now 0 (Step.Literal (codes "set")) }
        ensures some { IfOk result (λ o. IfSome o (λ v. (depth : ℕ) → Settles depth steps.now self.old.state v self.new.state)) }
        ensures none { IfOk result (λ o. IfNone o (self.new.state ≡ self.old.state)) }
        ensures asks { OnOk result (AsksNothing self.old.state self.new.state) }
        ensures same { OnOk result (self.new ≡ record self.old { state = self.new.state }) }
    {
        let Some(name) = literal_word(steps, 2) else {
            return Ok(None);
        };
        let Some(value) = value_set(alloc, &self.state, steps, name)? else {
            return Ok(None);
        };
        self.state
            .assign(alloc, name.as_slice(), value.copy(alloc)?)?;
        Ok(Some(value))
    }

    /// Runs an `incr` of these words.
    fn count_in_place(
        &mut self,
        alloc: Global,
        steps: &[Substitution],
    ) -> Result<Option<Bytes>, AllocError>
        requires { HasWord steps.now 0 (Step.Literal (codes "incr")) }
        ensures some { IfOk result (λ o. IfSome o (λ v. (depth : ℕ) → Settles depth steps.now self.old.state v self.new.state)) }
        ensures none { IfOk result (λ o. IfNone o (self.new.state ≡ self.old.state)) }
        ensures asks { OnOk result (AsksNothing self.old.state self.new.state) }
        ensures same { OnOk result (self.new ≡ record self.old { state = self.new.state }) }
    {
        let Some(name) = literal_word(steps, 2) else {
            return Ok(None);
        };
        let Some(value) = value_counted(alloc, &self.state, steps, name)? else {
            return Ok(None);
        };
        self.state
            .assign(alloc, name.as_slice(), value.copy(alloc)?)?;
        Ok(Some(value))
    }

    /// The value of the command at a place, if that is a `return` of an `expr` that comes to one by itself. Its steps are taken
    /// then; else nothing has changed.
    pub(crate) fn value_returned(
        &mut self,
        alloc: Global,
        commands: &Commands,
        at: usize,
        depth: u32,
    ) -> Result<Option<Bytes>, AllocError>
        ensures some { IfOk result (λ o. IfSome o (λ v. Returns depth (drop at commands.now) self.old.state v self.new.state)) }
        ensures none { IfOk result (λ o. IfNone o (self.new.state ≡ self.old.state)) }
        ensures asks { OnOk result (AsksNothing self.old.state self.new.state) }
        ensures same { OnOk result (self.new ≡ record self.old { state = self.new.state }) }
    {
        let Some((_steps, Way::Returning(formula))) = commands.way_at(at) else {
            return Ok(None);
        };
        if depth == 0 || is_hidden(&self.state, b"return") || !self.state.has_step() {
            return Ok(None);
        }
        self.state.take_step();
        match self.value_of_only(alloc, formula, depth - 1)? {
            Some(value) => Ok(Some(value)),
            None => {
                self.state.give_step_back();
                Ok(None)
            }
        }
    }

    /// Gives a variable that has not to begin the value of the script of these words, which is an `expr` of this code, if that
    /// comes to one by itself. The value, or else nothing has changed.
    fn set_computed(
        &mut self,
        alloc: Global,
        steps: &[Substitution],
        formula: &Arc<Formula>,
        depth: u32,
    ) -> Result<Option<Bytes>, AllocError>
        requires { HasWay steps.now (TheWay.SettingComputed formula.now) }
        ensures some { IfOk result (λ o. IfSome o (λ v. Settles depth steps.now self.old.state v self.new.state)) }
        ensures none { IfOk result (λ o. IfNone o (self.new.state ≡ self.old.state)) }
        ensures asks { OnOk result (AsksNothing self.old.state self.new.state) }
        ensures same { OnOk result (self.new ≡ record self.old { state = self.new.state }) }
    {
        let Some(name) = literal_word(steps, 2) else {
            return Ok(None);
        };
        if depth == 0 || is_hidden(&self.state, b"set") {
            return Ok(None);
        }
        if self.state.is_to_begin(name.as_slice()) {
            return Ok(None);
        }
        let Some(value) = self.value_of_only(alloc, formula, depth - 1)? else {
            return Ok(None);
        };
        self.state
            .assign(alloc, name.as_slice(), value.copy(alloc)?)?;
        Ok(Some(value))
    }

    /// Runs the command of these words, whose step is taken, in this way. Its value, or else nothing has changed.
    fn run_in_place(
        &mut self,
        alloc: Global,
        steps: &[Substitution],
        way: &Way,
        depth: u32,
    ) -> Result<Option<Bytes>, AllocError>
        requires { HasWay steps.now way.now }
        ensures some { IfOk result (λ o. IfSome o (λ v. Settles depth steps.now self.old.state v self.new.state)) }
        ensures none { IfOk result (λ o. IfNone o (self.new.state ≡ self.old.state)) }
        ensures asks { OnOk result (AsksNothing self.old.state self.new.state) }
        ensures same { OnOk result (self.new ≡ record self.old { state = self.new.state }) }
    {
        match way {
            Way::Setting => self.set_in_place(alloc, steps),
            Way::Counting => self.count_in_place(alloc, steps),
            Way::Computing(formula) => value_computed(alloc, &self.state, formula, depth),
            Way::SettingComputed(formula) => self.set_computed(alloc, steps, formula, depth),
            Way::Returning(_) | Way::Other => Ok(None),
        }
    }

    /// Runs the command at a place, if it runs where it stands and a step is left for it. Its value, or else nothing has changed.
    fn pass(
        &mut self,
        alloc: Global,
        commands: &Commands,
        at: usize,
        depth: u32,
    ) -> Result<Option<Bytes>, AllocError>
        ensures passes { IfOk result (Passes depth commands.now at self.old.state self.new.state) }
        ensures asks { OnOk result (AsksNothing self.old.state self.new.state) }
        ensures same { OnOk result (self.new ≡ record self.old { state = self.new.state }) }
    {
        let Some((steps, way)) = commands.way_at(at) else {
            return Ok(None);
        };
        if !self.state.has_step() {
            return Ok(None);
        }
        self.state.take_step();
        match self.run_in_place(alloc, steps, way, depth)? {
            Some(value) => Ok(Some(value)),
            None => {
                self.state.give_step_back();
                Ok(None)
            }
        }
    }

    /// Runs the commands from a place on that run where they stand, one after another, up to any other or to the last step. The
    /// place of the command that is next, and in `value` the value of the last.
    pub(crate) fn settle_from(
        &mut self,
        alloc: Global,
        commands: &Commands,
        first: usize,
        value: &mut Bytes,
        depth: u32,
    ) -> Result<usize, AllocError>
        ensures goes_on { IfOk result (λ at. GoesOnAs depth (drop first commands.now) value.old self.old.state
            (drop at commands.now) value.new self.new.state) }
        ensures asks { OnOk result (AsksNothing self.old.state self.new.state) }
        ensures same { OnOk result (self.new ≡ record self.old { state = self.new.state }) }
    {
        let count = commands.count();
        let mut at = first;
        'commands: while at < count {
            let Some(new) = self.pass(alloc, commands, at, depth)? else {
                break;
            };
            *value = new;
            at += 1;
        }
        Ok(at)
    }

    /// Runs the commands that are next as far as they are kept and run where they stand. What is left of them, and in `value` the
    /// value of the last.
    pub(crate) fn settle(
        &mut self,
        alloc: Global,
        commands: Script,
        value: &mut Bytes,
        depth: u32,
    ) -> Result<Script, AllocError>
        ensures goes_on { IfOk result (λ left. GoesOnAs depth commands value.old self.old.state left value.new self.new.state) }
        ensures asks { OnOk result (AsksNothing self.old.state self.new.state) }
        ensures same { OnOk result (self.new ≡ record self.old { state = self.new.state }) }
    {
        match commands.into_kept() {
            Ok((all, first)) => {
                let at = self.settle_from(alloc, &all, first, value, depth)?;
                Ok(Script::kept_from(all, at))
            }
            Err(script) => Ok(script),
        }
    }
}
