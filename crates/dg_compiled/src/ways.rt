//! The parser decides whether a command may take a fast path (`Way`): it may where its words say all that is needed.
ghost use Rattle.std.specs.Prelude.{◌≡◌, ◌≤◌, [], ◌∷◌, codes, length, IfOk, IfSome};
ghost use Rattle.std.specs.Arc.{arc_value};
ghost use Rattle.dg_expr.specs.Reading.{tree_in};
ghost use Rattle.dg_words.specs.declared.word.Word.{Word};
ghost use Rattle.dg_scope.specs.Scopes.{value_limit};
ghost use Rattle.dg_language.specs.Expressions.{code_in};
ghost use Rattle.dg_language.specs.Language.{commands_at};
ghost use Rattle.dg_language.specs.declared.command.Command.{Command as TheCommand};
ghost use Rattle.dg_language.specs.declared.substitution.Substitution.{Substitution as Step};
ghost use Rattle.dg_compiled.specs.Ways.{HasWay, HasWord, IsCoded, IsExpr};

use crate::instructions::Formula;
use crate::script::{Next, read_command};
use crate::steps::kept_steps;
use crate::texts::ends_word;
use dg_bytes::{Bytes, Seq};
use dg_forms::substitutions_of;
use dg_language::Substitution;
use dg_scope::LONGEST_VALUE;
use dg_shelf::Reading;
use dg_words::Word;
use std::alloc::{AllocError, Global};
use std::sync::Arc;

/// The fast path of a command: if nothing hinders it, it runs in place, and no frame is made for it.
#[derive(Drop)]
pub enum Way {
    /// `set` of a name to a text or the value of a variable.
    Setting,
    /// `incr`.
    Counting,
    /// `expr` of one text, which has this code.
    Computing(Arc<Formula>),
    /// `set` of a name to the value of such an `expr` in brackets.
    SettingComputed(Arc<Formula>),
    /// `return` of such a value.
    Returning(Arc<Formula>),
    /// None: the words of the command are made as those of any other.
    Other,
}

/// The text of the word at a place, where its steps are one text.
pub fn literal_word(steps: &[Substitution], at: usize) -> Option<&Bytes>
    requires { at ≤ 4 }
    ensures word { IfSome result (λ t. HasWord steps.now at (Step.Literal t.now)) }
    ensures short { IfSome result (λ t. length t.now ≤ value_limit) }
{
    if at + 2 > steps.len() || !ends_word(&steps[at + 1]) {
        return None;
    }
    match &steps[at] {
        Substitution::Literal(text) => {
            if text.len() > LONGEST_VALUE {
                return None;
            }
            Some(text)
        }
        _ => None,
    }
}

/// The script of the word at a place, where its steps are one script in brackets.
fn script_word(steps: &[Substitution], at: usize) -> Option<&Bytes>
    requires { at ≤ 4 }
    ensures { IfSome result (λ t. HasWord steps.now at (Step.Script t.now)) }
{
    if at + 2 > steps.len() || !ends_word(&steps[at + 1]) {
        return None;
    }
    match &steps[at] {
        Substitution::Script(script) => Some(script),
        _ => None,
    }
}

/// The text of an `expr` that has one only.
fn expr_text(steps: &[Substitution]) -> Option<&Bytes>
    ensures { IfSome result (λ t. IsExpr steps.now t.now) }
{
    if steps.len() != 4 {
        return None;
    }
    let Some(command) = literal_word(steps, 0) else {
        return None;
    };
    if !command.is(b"expr") {
        return None;
    }
    literal_word(steps, 2)
}

/// The code of a text.
fn formula_of(alloc: Global, text: &Bytes) -> Result<Arc<Formula>, AllocError>
    ensures { IfOk result (λ f. arc_value f ≡ code_in (tree_in text.now)) }
{
    let formula = Formula::read(alloc, text.as_slice())?;
    Ok(Arc::new(alloc, formula)?)
}

/// The words of the command that is all that a script has.
fn only_words(alloc: Global, script: &[u8]) -> Result<Option<Seq<Word>>, AllocError>
    ensures { IfOk result (λ o. IfSome o (λ ws. commands_at script.now 0 ≡ TheCommand.Words ws ∷ [])) }
{
    let Next::Words(words, next) = read_command(alloc, script, 0)? else {
        return Ok(None);
    };
    match read_command(alloc, script, next)? {
        Next::Nothing => Ok(Some(words)),
        Next::Words(_, _) | Next::Unreadable(_) => Ok(None),
    }
}

/// The code of the `expr` of one text that is all that a script has.
fn only_formula(alloc: Global, script: &Bytes) -> Result<Option<Arc<Formula>>, AllocError>
    ensures { IfOk result (λ o. IfSome o (λ f. IsCoded script.now (arc_value f))) }
{
    if !script.as_slice().starts_with(b"expr") {
        return Ok(None);
    }
    let Some(words) = only_words(alloc, script.as_slice())? else {
        return Ok(None);
    };
    let steps = kept_steps(alloc, substitutions_of(alloc, words.as_slice())?)?;
    let Some(text) = expr_text(steps.as_slice()) else {
        return Ok(None);
    };
    let formula = formula_of(alloc, text)?;
    Ok(Some(formula))
}

/// The fast path of a `set` with these words.
fn way_of_set(alloc: Global, steps: &[Substitution]) -> Result<Way, AllocError>
    requires { HasWord steps.now 0 (Step.Literal (codes "set")) }
    ensures { IfOk result (HasWay steps.now) }
{
    if steps.len() != 6 {
        return Ok(Way::Other);
    }
    let Some(script) = script_word(steps, 4) else {
        return Ok(Way::Setting);
    };
    match only_formula(alloc, script)? {
        Some(formula) => Ok(Way::SettingComputed(formula)),
        None => Ok(Way::Other),
    }
}

/// The fast path of a `return` with these words.
fn way_of_return(alloc: Global, steps: &[Substitution]) -> Result<Way, AllocError>
    requires { HasWord steps.now 0 (Step.Literal (codes "return")) }
    ensures { IfOk result (HasWay steps.now) }
{
    if steps.len() != 4 {
        return Ok(Way::Other);
    }
    let Some(script) = script_word(steps, 2) else {
        return Ok(Way::Other);
    };
    match only_formula(alloc, script)? {
        Some(formula) => Ok(Way::Returning(formula)),
        None => Ok(Way::Other),
    }
}

/// The fast path of the command with these words.
pub(crate) fn way_of(alloc: Global, steps: &[Substitution]) -> Result<Way, AllocError>
    ensures { IfOk result (HasWay steps.now) }
{
    if let Some(text) = expr_text(steps) {
        return Ok(Way::Computing(formula_of(alloc, text)?));
    }
    let Some(command) = literal_word(steps, 0) else {
        return Ok(Way::Other);
    };
    if command.is(b"incr") {
        return Ok(Way::Counting);
    }
    if command.is(b"set") {
        return way_of_set(alloc, steps);
    }
    if command.is(b"return") {
        return way_of_return(alloc, steps);
    }
    Ok(Way::Other)
}
