//! The commands on variables: set(n), append(n), lappend(n), incr(n), unset(n), info(n), global(n).
ghost use Rattle.std.specs.Prelude.{◌≡◌, ◌++◌, [], ◌≢◌, IfOk, MatchOption, OnOk, is_some};
ghost use Rattle.std.specs.List.{concat};
ghost use Rattle.std.specs.Option.{option_copied};
ghost use Rattle.dg_expr.specs.Truth.{truth_text};
ghost use Rattle.dg_scope.specs.Scopes.{value_of};
ghost use Rattle.dg_language.specs.declared.code.Code.{Code};
ghost use Rattle.dg_language.specs.declared.command.VariableCommand.{VariableCommand};
ghost use Rattle.dg_language.specs.Variables.{append_elements, do_append, do_global, do_incr, do_info, do_lappend, do_set, do_variable, increased, or_empty, or_zero, read_variable, store, touch, unset_names, with_sum};
ghost use Rattle.dg_asking.specs.Attempts.{Attempts, EndsAs, Precedes, unset_first};

use crate::attempt::{Attempt, AttemptEnd, before_use, miscounted, store};
use dg_bytes::{Bytes, TryCopy};
use dg_expr::truth_text;
use dg_forms::{addend, cannot_read, cannot_unset, elements_held, increased, only, split};
use dg_language::{State, VariableCommand};
use dg_lists::fault_text;
use std::alloc::{AllocError, Global};

/// A value, or the empty text in the place of none.
fn or_empty(alloc: Global, value: Option<&Bytes>) -> Result<Bytes, AllocError>
    ensures { IfOk result (λ b. b ≡ or_empty (option_copied value.entry)) }
{
    match value {
        Some(value) => value.copy(alloc),
        None => Ok(Bytes::new(alloc)),
    }
}

/// A value, or the text `0` in the place of none.
fn or_zero(alloc: Global, value: Option<&Bytes>) -> Result<Bytes, AllocError>
    ensures { IfOk result (λ b. b ≡ or_zero (option_copied value.entry)) }
{
    match value {
        Some(value) => value.copy(alloc),
        None => Bytes::from_slice(alloc, b"0"),
    }
}

/// Adds texts, one after another.
fn extend_all(text: &mut Bytes, values: &[Bytes]) -> Result<(), AllocError>
    ensures { OnOk result (text.new ≡ text.old ++ concat values.now) }
{
    for value in values {
        text.extend(value.as_slice())?;
    }
    Ok(())
}

/// `set name`.
#[tactic(auto, unfolding(dg_language::specs::Variables::read_variable))]
fn read(alloc: Global, state: &mut State, name: &[u8]) -> Result<Attempt, AllocError>
    ensures { IfOk result (Attempts (read_variable name.now) state.old state.new) }
{
    if let Some(attempt) = before_use(alloc, state, name)? {
        return Ok(attempt);
    }
    let Some(value) = state.value_of(name) else {
        let message = cannot_read(alloc, name)?;
        return Ok(Attempt::Ends(AttemptEnd::Fails(message)));
    };
    let value = value.copy(alloc)?;
    Ok(Attempt::Ends(AttemptEnd::Value(value)))
}

/// `set name value`.
fn write(
    alloc: Global,
    state: &mut State,
    name: &[u8],
    value: &Bytes,
) -> Result<Attempt, AllocError>
    ensures { IfOk result (Attempts (λ s k. touch name.now s (λ t. store name.now value.now t k)) state.old state.new) }
{
    if let Some(attempt) = before_use(alloc, state, name)? {
        return Ok(attempt);
    }
    let outcome = store(alloc, state, name, value.copy(alloc)?)?;
    Ok(Attempt::Ends(outcome))
}

/// `set name` and `set name value`.
#[tactic(auto, unfolding(dg_language::specs::Variables::do_set))]
fn set(alloc: Global, state: &mut State, args: &[Bytes]) -> Result<Attempt, AllocError>
    ensures { IfOk result (Attempts (do_set args.now) state.old state.new) }
{
    let Some((name, others)) = split(args) else {
        return miscounted(alloc, b"set");
    };
    if others.is_empty() {
        return read(alloc, state, name.as_slice());
    }
    let Some(value) = only(others) else {
        return miscounted(alloc, b"set");
    };
    write(alloc, state, name.as_slice(), value)
}

/// Bytes are put behind the value of a variable that can be used, in place.
#[tactic(auto, unfolding(dg_language::specs::Variables::store))]
fn append_text(
    alloc: Global,
    state: &mut State,
    name: &[u8],
    more: &[u8],
) -> Result<AttemptEnd, AllocError>
    ensures { IfOk result (EndsAs (λ s k. store name.now (or_empty (value_of s.variables name.now) ++ more.now) s k)
        state.old state.new) }
{
    if !state.append_text(alloc, name, more)? {
        return Ok(AttemptEnd::TooLong);
    }
    let value = or_empty(alloc, state.value_of(name))?;
    Ok(AttemptEnd::Value(value))
}

/// `append name value..`.
#[tactic(auto, unfolding(dg_language::specs::Variables::do_append))]
fn append(alloc: Global, state: &mut State, args: &[Bytes]) -> Result<Attempt, AllocError>
    ensures { IfOk result (Attempts (do_append args.now) state.old state.new) }
{
    let Some((name, values)) = split(args) else {
        return miscounted(alloc, b"append");
    };
    if let Some(attempt) = before_use(alloc, state, name.as_slice())? {
        return Ok(attempt);
    }
    let mut more = Bytes::new(alloc);
    extend_all(&mut more, values)?;
    let outcome = append_text(alloc, state, name.as_slice(), more.as_slice())?;
    Ok(Attempt::Ends(outcome))
}

/// Elements are put behind those of the list that is the value of a variable that can be used, in place.
#[tactic(auto, unfolding(dg_language::specs::Variables::append_elements, dg_language::specs::Variables::store, dg_language::specs::Evaluation::list_in, dg_language::specs::Evaluation::within))]
fn append_elements(
    alloc: Global,
    state: &mut State,
    name: &[u8],
    values: &[Bytes],
) -> Result<AttemptEnd, AllocError>
    requires { values.now ≢ [] }
    ensures { IfOk result (EndsAs
        (λ s k. append_elements name.now (or_empty (value_of s.variables name.now)) values.now s k) state.old state.new) }
{
    match state.append_elements(alloc, name, values)? {
        Ok(true) => {
            let value = or_empty(alloc, state.value_of(name))?;
            Ok(AttemptEnd::Value(value))
        }
        Ok(false) => Ok(AttemptEnd::TooLong),
        Err(fault) => {
            let message = Bytes::from_slice(alloc, fault_text(fault))?;
            Ok(AttemptEnd::Fails(message))
        }
    }
}

/// The text of a list stays as it is, as the value of a variable that can be used.
#[tactic(auto, unfolding(dg_language::specs::Variables::append_elements))]
fn append_nothing(alloc: Global, state: &mut State, name: &[u8]) -> Result<AttemptEnd, AllocError>
    ensures { IfOk result (EndsAs
        (λ s k. append_elements name.now (or_empty (value_of s.variables name.now)) [] s k) state.old state.new) }
{
    let old = or_empty(alloc, state.value_of(name))?;
    if let Err(message) = elements_held(alloc, &old)? {
        return Ok(AttemptEnd::Fails(message));
    }
    store(alloc, state, name, old)
}

/// `lappend name value..`.
#[tactic(auto, unfolding(dg_language::specs::Variables::do_lappend))]
fn lappend(alloc: Global, state: &mut State, args: &[Bytes]) -> Result<Attempt, AllocError>
    ensures { IfOk result (Attempts (do_lappend args.now) state.old state.new) }
{
    let Some((name, values)) = split(args) else {
        return miscounted(alloc, b"lappend");
    };
    if let Some(attempt) = before_use(alloc, state, name.as_slice())? {
        return Ok(attempt);
    }
    if values.is_empty() {
        let outcome = append_nothing(alloc, state, name.as_slice())?;
        return Ok(Attempt::Ends(outcome));
    }
    let outcome = append_elements(alloc, state, name.as_slice(), values)?;
    Ok(Attempt::Ends(outcome))
}

/// A number more than this text, as the value of a variable that can be used.
fn add_to(
    alloc: Global,
    state: &mut State,
    name: &[u8],
    old: Bytes,
    by: &[u8],
) -> Result<AttemptEnd, AllocError>
    ensures { IfOk result (EndsAs (with_sum name.now (increased old by.now)) state.old state.new) }
{
    match increased(alloc, old.as_slice(), by)? {
        Ok(sum) => store(alloc, state, name, sum),
        Err(message) => Ok(AttemptEnd::Fails(message)),
    }
}

/// `incr name` and `incr name number`.
#[tactic(auto, unfolding(dg_language::specs::Variables::do_incr))]
fn incr(alloc: Global, state: &mut State, args: &[Bytes]) -> Result<Attempt, AllocError>
    ensures { IfOk result (Attempts (do_incr args.now) state.old state.new) }
{
    let Some((name, others)) = split(args) else {
        return miscounted(alloc, b"incr");
    };
    let Some(by) = addend(others) else {
        return miscounted(alloc, b"incr");
    };
    if let Some(attempt) = before_use(alloc, state, name.as_slice())? {
        return Ok(attempt);
    }
    let old = or_zero(alloc, state.value_of(name.as_slice()))?;
    let outcome = add_to(alloc, state, name.as_slice(), old, by)?;
    Ok(Attempt::Ends(outcome))
}

/// Whether a variable is set.
fn exists(alloc: Global, state: &mut State, name: &[u8]) -> Result<Attempt, AllocError>
    ensures { IfOk result (Attempts
        (λ s k. touch name.now s (λ t. k Code.Done (truth_text (is_some (value_of t.variables name.now))) t)) state.old
        state.new) }
{
    if let Some(attempt) = before_use(alloc, state, name)? {
        return Ok(attempt);
    }
    let value = Bytes::from_slice(alloc, truth_text(state.is_set(name)))?;
    Ok(Attempt::Ends(AttemptEnd::Value(value)))
}

/// `info exists name`.
#[tactic(auto, unfolding(dg_language::specs::Variables::do_info))]
fn info(alloc: Global, state: &mut State, args: &[Bytes]) -> Result<Attempt, AllocError>
    ensures { IfOk result (Attempts (do_info args.now) state.old state.new) }
{
    let Some((subcommand, others)) = split(args) else {
        return miscounted(alloc, b"info");
    };
    if subcommand.as_slice() != b"exists".as_slice() {
        let message = Bytes::from_slice(alloc, b"unknown subcommand")?;
        return Ok(Attempt::Ends(AttemptEnd::Fails(message)));
    }
    let Some(name) = only(others) else {
        return miscounted(alloc, b"info");
    };
    exists(alloc, state, name.as_slice())
}

/// `global name..`.
#[tactic(auto, unfolding(dg_language::specs::Variables::do_global))]
fn global(alloc: Global, state: &mut State, args: &[Bytes]) -> Result<Attempt, AllocError>
    ensures { IfOk result (Attempts (do_global args.now) state.old state.new) }
{
    state.link_all(alloc, args)?;
    Ok(Attempt::Ends(AttemptEnd::Value(Bytes::new(alloc))))
}

/// What comes of a command on variables. None of `unset`, which may ask behind each name that it has unset: see `unset_name`.
pub fn run_variable(
    alloc: Global,
    state: &mut State,
    which: VariableCommand,
    args: &[Bytes],
) -> Result<Option<Attempt>, AllocError>
    ensures { IfOk result (λ attempt. MatchOption attempt ((which ≡ VariableCommand.Unset) × (state.new ≡ state.old))
        (Attempts (do_variable which args.now) state.old state.new)) }
{
    let attempt = match which {
        VariableCommand::Set => set(alloc, state, args)?,
        VariableCommand::Append => append(alloc, state, args)?,
        VariableCommand::ListAppend => lappend(alloc, state, args)?,
        VariableCommand::Increase => incr(alloc, state, args)?,
        VariableCommand::Unset => return Ok(None),
        VariableCommand::Info => info(alloc, state, args)?,
        VariableCommand::Global => global(alloc, state, args)?,
    };
    Ok(Some(attempt))
}

/// Whether a name that isn't set is an error for `unset`, and the names that it is given.
pub fn unset_names(args: &[Bytes]) -> (bool, &[Bytes])
    ensures { (result.0, result.1.now) ≡ unset_names args.now }
{
    match args {
        [first, names @ ..] if first.as_slice() == b"-nocomplain".as_slice() => (false, names),
        _ => (true, args),
    }
}

/// Unsets the first of the names of `unset`. None, if those behind it follow.
pub fn unset_name(
    alloc: Global,
    state: &mut State,
    complains: bool,
    name: &[u8],
) -> Result<Option<Attempt>, AllocError>
    ensures { IfOk result (Precedes (unset_first complains name.now) state.old state.new) }
{
    if let Some(attempt) = before_use(alloc, state, name)? {
        return Ok(Some(attempt));
    }
    let was_set = state.unassign(name);
    if complains && !was_set {
        let message = cannot_unset(alloc, name)?;
        return Ok(Some(Attempt::Ends(AttemptEnd::Fails(message))));
    }
    Ok(None)
}
