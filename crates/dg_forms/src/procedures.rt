//! Procedures: their parameters, and the values that a call binds them to.
ghost use Rattle.std.specs.Prelude.{◌≡◌, ◌<◌, [], IfOk, MatchOption, Some, None, nat_lt};
ghost use Rattle.dg_scope.specs.Scopes.{value_limit};
ghost use Rattle.dg_lists.specs.Canonical.{text_of_list};
ghost use Rattle.dg_language.specs.declared.completion.Change.{Change as Change};
ghost use Rattle.dg_language.specs.Procedures.{has_colons, name_fault, named, parameter_of, parameters, parameters_of, do_proc, binding, bindings, collects, value_for, longest};

use crate::arguments::{split, three};
use crate::completing::{does, miscounted};
use crate::lists::{elements_in, text_of};
use crate::messages::about_quoted;
use crate::switch::is;
use dg_bytes::{Bytes, Seq, TryCopy};
use dg_language::{Binding, Change, Completion, Parameter, Procedure};
use dg_scope::{LONGEST_VALUE, base_of, has_index};
use std::alloc::{AllocError, Global};

/// Whether a name has `::` in it.
fn has_colons(name: &[u8]) -> bool
    ensures { result ≡ has_colons name.now }
{
    let mut left = name;
    'bytes: while let [first, others @ ..] = left {
        if *first == b':' && matches!(others, [b':', ..]) {
            return true;
        }
        left = others;
    }
    false
}

/// Why a name can't be a parameter's.
fn name_fault(alloc: Global, name: &[u8]) -> Result<Option<Bytes>, AllocError>
    ensures { IfOk result (λ f. f ≡ name_fault name.now) }
{
    if name.is_empty() {
        return Ok(Some(Bytes::from_slice(alloc, b"argument with no name")?));
    }
    if has_colons(base_of(name)) {
        let message = about_quoted(alloc, b"formal parameter ", name, b" is not a simple name")?;
        return Ok(Some(message));
    }
    if has_index(name) {
        let message = about_quoted(alloc, b"formal parameter ", name, b" is an array element")?;
        return Ok(Some(message));
    }
    Ok(None)
}

/// A parameter of this name, or why there is none.
fn named(
    alloc: Global,
    name: &Bytes,
    default: Option<Bytes>,
) -> Result<Result<Parameter, Bytes>, AllocError>
    ensures { IfOk result (λ r. r ≡ named name.now default (name_fault name.now)) }
{
    if let Some(message) = name_fault(alloc, name.as_slice())? {
        return Ok(Err(message));
    }
    Ok(Ok(Parameter {
        name: name.copy(alloc)?,
        default,
    }))
}

/// A parameter of these fields, or why there is none.
fn parameter_of(
    alloc: Global,
    text: &[u8],
    fields: &[Bytes],
) -> Result<Result<Parameter, Bytes>, AllocError>
    ensures { IfOk result (λ r. r ≡ parameter_of text.now fields.now) }
{
    match fields {
        [] => Ok(Err(Bytes::from_slice(alloc, b"argument with no name")?)),
        [name] => named(alloc, name, None),
        [name, default] => named(alloc, name, Some(default.copy(alloc)?)),
        _ => {
            let message = about_quoted(
                alloc,
                b"too many fields in argument specifier ",
                text,
                b"",
            )?;
            Ok(Err(message))
        }
    }
}

/// The parameters of these texts, or why the first bad one is none.
fn parameters(alloc: Global, texts: &[Bytes]) -> Result<Result<Seq<Parameter>, Bytes>, AllocError>
    ensures { IfOk result (λ r. r ≡ parameters texts.now) }
{
    let mut made = Seq::new(alloc);
    for text in texts {
        let fields = match elements_in(alloc, text.as_slice())? {
            Ok(fields) => fields,
            Err(message) => return Ok(Err(message)),
        };
        match parameter_of(alloc, text.as_slice(), fields.as_slice())? {
            Ok(parameter) => made.push(parameter)?,
            Err(message) => return Ok(Err(message)),
        }
    }
    Ok(Ok(made))
}

/// The parameters that a list names, or why one is none.
#[tactic(auto, unfolding(dg_language::specs::Procedures::parameters_of))]
fn parameters_of(alloc: Global, text: &[u8]) -> Result<Result<Seq<Parameter>, Bytes>, AllocError>
    ensures { IfOk result (λ r. r ≡ parameters_of text.now) }
{
    match elements_in(alloc, text)? {
        Ok(texts) => parameters(alloc, texts.as_slice()),
        Err(message) => Ok(Err(message)),
    }
}

/// A name gets a procedure of these parameters and this body.
fn definition(
    alloc: Global,
    name: &Bytes,
    parameters: Seq<Parameter>,
    body: &Bytes,
) -> Result<Change, AllocError>
    ensures { IfOk result (λ e. e ≡ Change.Defines name.now (record { parameters = parameters; body = body.now })) }
{
    let body = body.copy(alloc)?;
    let procedure = Procedure { parameters, body };
    Ok(Change::Defines(name.copy(alloc)?, procedure))
}

/// `proc name parameters body`.
#[tactic(auto, unfolding(dg_language::specs::Procedures::do_proc))]
pub(crate) fn procedure(
    alloc: Global,
    args: &[Bytes],
) -> Result<Result<Completion, Bytes>, AllocError>
    ensures { IfOk result (λ r. r ≡ do_proc args.now) }
{
    let Some((name, parameters, body)) = three(args) else {
        return miscounted(alloc, b"proc");
    };
    match parameters_of(alloc, parameters.as_slice())? {
        Ok(parameters) => {
            let definition = definition(alloc, name, parameters, body)?;
            Ok(does(alloc, definition))
        }
        Err(message) => Ok(Err(message)),
    }
}

/// The values of the parameters in a call; none if the count of arguments is wrong.
pub fn bindings(
    alloc: Global,
    parameters: &[Parameter],
    args: &[Bytes],
) -> Result<Option<Seq<Binding>>, AllocError>
    ensures { IfOk result (λ b. b ≡ bindings parameters.now args.now) }
{
    let mut made = Seq::new(alloc);
    let mut left = parameters;
    let mut args = args;
    'parameters: while let Some((parameter, others)) = split(left) {
        if collects(parameter, others) {
            made.push(bind_all(alloc, &parameter.name, args)?)?;
            return Ok(Some(made));
        }
        let Some((value, more)) = value_for(parameter, args) else {
            return Ok(None);
        };
        made.push(bind(alloc, &parameter.name, value)?)?;
        left = others;
        args = more;
    }
    if !args.is_empty() {
        return Ok(None);
    }
    Ok(Some(made))
}

/// Whether a parameter, the last one, takes all arguments that are left.
fn collects(parameter: &Parameter, others: &[Parameter]) -> bool
    ensures { result ≡ collects parameter.now others.now }
{
    others.is_empty() && is(&parameter.name, b"args")
}

/// The value of a parameter, by the next argument or else by default, and the arguments behind it.
fn value_for<'a>(parameter: &'a Parameter, args: &'a [Bytes]) -> Option<(&'a Bytes, &'a [Bytes])>
    ensures { MatchOption result (value_for parameter.now args.now ≡ None)
        (λ p. value_for parameter.now args.now ≡ Some (p.0.now, p.1.now)) }
{
    match args {
        [value, more @ ..] => Some((value, more)),
        [] => match &parameter.default {
            Some(value) => Some((value, args)),
            None => None,
        },
    }
}

/// A name and its value.
fn bind(alloc: Global, name: &Bytes, value: &Bytes) -> Result<Binding, AllocError>
    ensures { IfOk result (λ b. b ≡ binding name.now value.now) }
{
    Ok(Binding {
        name: name.copy(alloc)?,
        value: value.copy(alloc)?,
    })
}

/// A name, whose value is the list of these.
fn bind_all(alloc: Global, name: &Bytes, values: &[Bytes]) -> Result<Binding, AllocError>
    ensures { IfOk result (λ b. b ≡ binding name.now (text_of_list values.now)) }
{
    Ok(Binding {
        name: name.copy(alloc)?,
        value: text_of(alloc, values)?,
    })
}

/// Whether a value is longer than a value may be.
pub fn is_too_long(bindings: &[Binding]) -> bool
    ensures { result ≡ nat_lt value_limit (longest bindings.now) }
{
    bindings
        .iter()
        .any(|binding| binding.value.len() > LONGEST_VALUE)
}
