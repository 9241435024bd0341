//! Words that are made of texts and of the values of variables in use, with nothing asked or evaluated.
ghost use Rattle.std.specs.Prelude.{◌≡◌, ◌+◌, ◌≤◌, ◌<◌, ◌∷◌, ◌++◌, [], ℕ, List, IfOk, OnOk, IfSome, Some, drop, length};
ghost use Rattle.std.specs.Bool.{OnTrue, OnFalse};
ghost use Rattle.dg_language.specs.Evaluation.{Then};
ghost use Rattle.dg_scope.specs.Scopes.{value_limit};
ghost use Rattle.dg_language.specs.Touch.{value_in_use};
ghost use Rattle.dg_language.specs.declared.substitution.Substitution.{Substitution as Step};
ghost use Rattle.dg_compiled.specs.Making.{making_on};
ghost use Rattle.dg_compiled.specs.Texts.{IsText, Makes, going_on};

use crate::making::Making;
use crate::steps::queued;
use dg_bytes::{Bytes, TryCopy};
use dg_language::{Purpose, Queue, State, Substitution};
use dg_scope::LONGEST_VALUE;
use std::alloc::{AllocError, Global};
use std::mem;

/// Adds a value at the end of a text; where that is empty it is the text from then on.
pub fn add_text(text: &mut Bytes, value: Bytes) -> Result<(), AllocError>
    ensures { OnOk result (text.new ≡ text.old ++ value) }
{
    if text.is_empty() {
        *text = value;
        return Ok(());
    }
    text.extend(value.as_slice())
}

/// Whether a text is no longer than a value may be, once this is added.
pub fn has_room(text: &Bytes, added: &Bytes) -> bool
    ensures short { OnTrue result (length text.now + length added.now ≤ value_limit) }
    ensures long { OnFalse result (value_limit < length text.now + length added.now) }
{
    let length = added.len();
    length <= LONGEST_VALUE && text.len() <= LONGEST_VALUE - length
}

/// The value of a variable that is in use, if a text has room for it.
fn value_with_room(
    alloc: Global,
    state: &State,
    name: &Bytes,
    text: &Bytes,
) -> Result<Option<Bytes>, AllocError>
    ensures value { IfOk result (λ o. IfSome o (λ v. value_in_use name.now state.now ≡ Some v)) }
    ensures room { IfOk result (λ o. IfSome o (λ v. length text.now + length v ≤ value_limit)) }
{
    let Some(value) = state.value_in_use(name.as_slice()) else {
        return Ok(None);
    };
    if !has_room(text, value) {
        return Ok(None);
    }
    Ok(Some(value.copy(alloc)?))
}

/// Takes the steps that only add a text or the value of a variable in use, or end a word. It stops at any other step, and at a
/// text that would make the word too long.
pub fn make_texts(alloc: Global, state: &State, making: &mut Making) -> Result<(), AllocError>
    ensures same { OnOk result
        ((depth : ℕ) (k : Then) → making_on making.new depth state.now k ≡ making_on making.old depth state.now k) }
    ensures fewer { OnOk result (length making.new.left ≤ length making.old.left) }
    ensures purpose { OnOk result (making.new.purpose ≡ making.old.purpose) }
{
    'steps: while let Some(step) = making.left.next() {
        match step {
            Substitution::Literal(text) => {
                if !has_room(&making.text, &text) {
                    making.left.push_front(Substitution::Literal(text))?;
                    return Ok(());
                }
                add_text(&mut making.text, text)?;
            }
            Substitution::Variable(name) => {
                let Some(value) = value_with_room(alloc, state, &name, &making.text)? else {
                    making.left.push_front(Substitution::Variable(name))?;
                    return Ok(());
                };
                add_text(&mut making.text, value)?;
            }
            Substitution::WordEnds => {
                let word = mem::replace(&mut making.text, Bytes::new(alloc));
                making.made.push(word)?;
            }
            step => {
                making.left.push_front(step)?;
                return Ok(());
            }
        }
    }
    Ok(())
}

/// Takes a step that only adds a text or the value of a variable in use, or ends a word, and says whether it was taken. Any
/// other step is not, and no text that would make the word too long.
fn take_text(
    alloc: Global,
    state: &State,
    making: &mut Making,
    step: &Substitution,
) -> Result<bool, AllocError>
    ensures taken { IfOk result (λ b. OnTrue b ((left : List Step) (depth : ℕ) (k : Then) → going_on making.new left depth
        state.now k ≡ going_on making.old (step.now ∷ left) depth state.now k)) }
    ensures same { IfOk result (λ b. OnFalse b (making.new ≡ making.old)) }
    ensures purpose { OnOk result (making.new.purpose ≡ making.old.purpose) }
{
    match step {
        Substitution::Literal(text) => {
            if !has_room(&making.text, text) {
                return Ok(false);
            }
            add_text(&mut making.text, text.copy(alloc)?)?;
        }
        Substitution::Variable(name) => {
            let Some(value) = value_with_room(alloc, state, name, &making.text)? else {
                return Ok(false);
            };
            add_text(&mut making.text, value)?;
        }
        Substitution::WordEnds => {
            let word = mem::replace(&mut making.text, Bytes::new(alloc));
            making.made.push(word)?;
        }
        _ => return Ok(false),
    }
    Ok(true)
}

/// The words that these steps make, as far as they are only texts and values of variables that are in use. The rest of
/// the steps is copied.
pub(crate) fn begun_with(
    alloc: Global,
    state: &State,
    purpose: Purpose,
    steps: &[Substitution],
) -> Result<Making, AllocError>
    ensures same { IfOk result (λ m. (depth : ℕ) (k : Then) → making_on m depth state.now k ≡ going_on
        (record { purpose = purpose; made = []; outer = []; text = []; left = [] }) steps.now depth state.now k) }
    ensures purpose { IfOk result (λ m. m.purpose ≡ purpose) }
{
    let mut making = Making::begun(alloc, purpose, Queue::new(Vec::new(alloc)));
    let mut at = take_words(alloc, state, &mut making, steps)?;
    'steps: while at < steps.len() {
        if !take_text(alloc, state, &mut making, &steps[at])? {
            break;
        }
        at += 1;
    }
    making.left = queued(alloc, &steps[at..])?;
    Ok(making)
}

/// Whether a word ends by this step.
pub fn ends_word(step: &Substitution) -> bool
    ensures { OnTrue result (step.now ≡ Step.WordEnds) }
{
    matches!(step, Substitution::WordEnds)
}

/// The value of one step, where that is a text, or a variable that is in use.
fn one_text<'a>(state: &'a State, step: &'a Substitution) -> Option<&'a Bytes>
    ensures { IfSome result (λ v. IsText state.now step.now v.now) }
{
    match step {
        Substitution::Literal(text) => Some(text),
        Substitution::Variable(name) => state.value_in_use(name.as_slice()),
        _ => None,
    }
}

/// The same, unless it is longer than a value may be.
pub fn short_text<'a>(state: &'a State, step: &'a Substitution) -> Option<&'a Bytes>
    ensures text { IfSome result (λ v. IsText state.now step.now v.now) }
    ensures short { IfSome result (λ v. length v.now ≤ value_limit) }
{
    let Some(value) = one_text(state, step) else {
        return None;
    };
    if value.len() > LONGEST_VALUE {
        return None;
    }
    Some(value)
}

/// Takes words that are one text each, or the value of one variable in use, and gives how many steps were taken.
fn take_words(
    alloc: Global,
    state: &State,
    making: &mut Making,
    steps: &[Substitution],
) -> Result<usize, AllocError>
    requires { making.old.text ≡ [] }
    ensures same { IfOk result (λ at. (depth : ℕ) (k : Then) → going_on making.new (drop at steps.now) depth state.now k ≡
        going_on making.old steps.now depth state.now k) }
    ensures within { IfOk result (λ at. at ≤ length steps.now) }
    ensures purpose { OnOk result (making.new.purpose ≡ making.old.purpose) }
{
    let mut at = 0;
    'words: while steps.len() - at >= 2 {
        if !ends_word(&steps[at + 1]) {
            break;
        }
        let Some(value) = short_text(state, &steps[at]) else {
            break;
        };
        making.made.push(value.copy(alloc)?)?;
        at += 2;
    }
    Ok(at)
}

/// The one word that these steps make, where it is one text, or the value of one variable that is in use.
pub(crate) fn one_value<'a>(state: &'a State, steps: &'a [Substitution]) -> Option<&'a Bytes>
    ensures { IfSome result (λ v. Makes state.now steps.now v.now) }
{
    if steps.len() != 2 || !ends_word(&steps[1]) {
        return None;
    }
    short_text(state, &steps[0])
}
