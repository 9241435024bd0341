//! The steps in which words are made, kept and copied.
ghost use Rattle.std.specs.Prelude.{◌≡◌, IfOk};

use dg_bytes::{Seq, TryCopy};
use dg_language::{Queue, Substitution};
use std::alloc::{AllocError, Global};

/// The same step once more.
fn copy_of(alloc: Global, step: &Substitution) -> Result<Substitution, AllocError>
    ensures { IfOk result (λ copy. copy ≡ step.now) }
{
    Ok(match step {
        Substitution::Literal(text) => Substitution::Literal(text.copy(alloc)?),
        Substitution::Variable(name) => Substitution::Variable(name.copy(alloc)?),
        Substitution::IndexBegins(name) => Substitution::IndexBegins(name.copy(alloc)?),
        Substitution::IndexEnds => Substitution::IndexEnds,
        Substitution::Script(text) => Substitution::Script(text.copy(alloc)?),
        Substitution::WordEnds => Substitution::WordEnds,
        Substitution::ListEnds => Substitution::ListEnds,
    })
}

/// These steps, to be taken one after another.
pub(crate) fn queued(
    alloc: Global,
    steps: &[Substitution],
) -> Result<Queue<Substitution>, AllocError>
    ensures { IfOk result (λ queue. queue ≡ steps.now) }
{
    let mut copies = Vec::with_capacity(alloc, steps.len())?;
    for step in steps {
        copies.push(copy_of(alloc, step)?)?;
    }
    Ok(Queue::new(copies))
}

/// The same step, whose text is shared by its copies.
fn kept(alloc: Global, step: Substitution) -> Result<Substitution, AllocError>
    ensures { IfOk result (λ kept. kept ≡ step) }
{
    Ok(match step {
        Substitution::Literal(mut text) => {
            text.keep(alloc)?;
            Substitution::Literal(text)
        }
        Substitution::Variable(mut name) => {
            name.keep(alloc)?;
            Substitution::Variable(name)
        }
        Substitution::Script(mut text) => {
            text.keep(alloc)?;
            Substitution::Script(text)
        }
        other => other,
    })
}

/// The same steps, whose texts are shared by their copies.
pub(crate) fn kept_steps(
    alloc: Global,
    mut steps: Queue<Substitution>,
) -> Result<Seq<Substitution>, AllocError>
    ensures { IfOk result (λ all. all ≡ steps) }
{
    let mut all = Seq::new(alloc);
    'steps: while let Some(step) = steps.next() {
        all.push(kept(alloc, step)?)?;
    }
    Ok(all)
}
