//! The steps in which the words of a command are made.
ghost use Rattle.std.specs.Prelude.{◌≡◌, ◌++◌, ◌∷◌, [], IfOk, OnOk};
ghost use Rattle.dg_language.specs.Words.{nested_in};
ghost use Rattle.dg_language.specs.WordSteps.{AddsSteps, ending_of, operand_steps, part_steps, substitutions};
ghost use Rattle.dg_words.specs.Parts.{pieces_of_part};

use dg_bytes::{Seq, TryCopy};
use dg_language::{Queue, Substitution};
use dg_words::{Part, Parts, Word};
use std::alloc::{AllocError, Global};

/// Adds the steps of one part.
#[cycle(parts)]
fn push_part(alloc: Global, steps: &mut Seq<Substitution>, part: &Part) -> Result<(), AllocError>
    ensures { OnOk result (AddsSteps steps.old steps.new (pieces_of_part part.now)) }
{
    match part {
        Part::Text(text) => steps.push(Substitution::Literal(text.copy(alloc)?))?,
        Part::Variable(name) => steps.push(Substitution::Variable(name.copy(alloc)?))?,
        Part::Element(name, index) => {
            steps.push(Substitution::IndexBegins(name.copy(alloc)?))?;
            push_parts(alloc, steps, index)?;
            steps.push(Substitution::IndexEnds)?;
        }
        Part::Command(script) => steps.push(Substitution::Script(script.copy(alloc)?))?,
    }
    Ok(())
}

/// Adds the steps of parts, one after another.
#[cycle(parts)]
fn push_parts(alloc: Global, steps: &mut Seq<Substitution>, parts: &Parts) -> Result<(), AllocError>
    ensures { OnOk result (AddsSteps steps.old steps.new parts.now) }
{
    for part in parts.as_slice() {
        push_part(alloc, steps, part)?;
    }
    Ok(())
}

/// The step in which a word ends.
fn ending_of(expand: bool) -> Substitution
    ensures { result ≡ ending_of expand }
{
    if expand {
        Substitution::ListEnds
    } else {
        Substitution::WordEnds
    }
}

/// Adds the steps of a word of these parts, and its end.
fn push_word(
    alloc: Global,
    steps: &mut Seq<Substitution>,
    parts: &Parts,
    end: Substitution,
) -> Result<(), AllocError>
    ensures { OnOk result (steps.new ≡ steps.old ++ part_steps (nested_in parts.now) ++ end ∷ []) }
{
    push_parts(alloc, steps, parts)?;
    steps.push(end)?;
    Ok(())
}

/// The steps in which these words are made.
pub fn substitutions_of(alloc: Global, words: &[Word]) -> Result<Queue<Substitution>, AllocError>
    ensures { IfOk result (λ q. q ≡ substitutions words.now) }
{
    let mut steps = Seq::new(alloc);
    for word in words {
        push_word(alloc, &mut steps, &word.parts, ending_of(word.expand))?;
    }
    Ok(Queue::new(steps.into_vec()))
}

/// The steps in which an operand of these parts is made.
pub fn operand_of(alloc: Global, parts: &Parts) -> Result<Queue<Substitution>, AllocError>
    ensures { IfOk result (λ q. q ≡ operand_steps parts.now) }
{
    let mut steps = Seq::new(alloc);
    push_word(alloc, &mut steps, parts, Substitution::WordEnds)?;
    Ok(Queue::new(steps.into_vec()))
}
