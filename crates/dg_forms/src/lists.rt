//! Lists and their texts, as commands take and give them.
ghost use Rattle.std.specs.Prelude.{◌≡◌, IfOk};
ghost use Rattle.dg_cmds.specs.Lists.{concat_of};
ghost use Rattle.dg_language.specs.Evaluation.{list_in};
ghost use Rattle.dg_language.specs.Switching.{text_in};
ghost use Rattle.dg_lists.specs.Canonical.{text_of_list};

use dg_bytes::{Bytes, Seq};
use dg_cmds::{CmdFault, concat};
use dg_lists::{WordFault, fault_text, list_elements, list_text, split_list};
use std::alloc::{AllocError, Global};

/// The elements of a list, or the message of its fault.
#[tactic(auto, unfolding(dg_language::specs::Evaluation::list_in))]
pub fn elements_in(alloc: Global, text: &[u8]) -> Result<Result<Seq<Bytes>, Bytes>, AllocError>
    ensures { IfOk result (λ r. r ≡ list_in text.now) }
{
    match split_list(alloc, text) {
        Ok(elements) => Ok(Ok(elements)),
        Err(WordFault::Memory) => Err(AllocError),
        Err(fault) => Ok(Err(Bytes::from_slice(alloc, fault_text(fault))?)),
    }
}

/// The elements of a value as a list, or the message of its fault. Those that are kept beside it are
/// shared.
#[tactic(auto, unfolding(dg_language::specs::Evaluation::list_in))]
pub fn elements_held(alloc: Global, value: &Bytes) -> Result<Result<Seq<Bytes>, Bytes>, AllocError>
    ensures { IfOk result (λ r. r ≡ list_in value.now) }
{
    match list_elements(alloc, value) {
        Ok(elements) => Ok(Ok(elements)),
        Err(WordFault::Memory) => Err(AllocError),
        Err(fault) => Ok(Err(Bytes::from_slice(alloc, fault_text(fault))?)),
    }
}

/// The canonical text of a list.
pub fn text_of(alloc: Global, elements: &[Bytes]) -> Result<Bytes, AllocError>
    ensures { IfOk result (λ b. b ≡ text_of_list elements.now) }
{
    match list_text(alloc, elements) {
        Ok(text) => Ok(text),
        Err(_) => Err(AllocError),
    }
}

/// Words as `concat` joins them, by concat(n), unless the text is too long.
pub fn concatenated(alloc: Global, words: &[Bytes]) -> Result<Option<Bytes>, AllocError>
    ensures { IfOk result (λ t. t ≡ text_in (concat_of words.now)) }
{
    match concat(alloc, words) {
        Ok(text) => Ok(Some(text)),
        Err(CmdFault::Memory) => Err(AllocError),
        Err(CmdFault::Tcl(_) | CmdFault::TooLong) => Ok(None),
    }
}
