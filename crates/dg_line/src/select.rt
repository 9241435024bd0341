//! What the words of a line select, for a session.
ghost use Rattle.std.specs.Prelude.{◌≡◌, IfOk, MatchOption, map, true, false};
ghost use Rattle.std.specs.List.{list_all};
ghost use Rattle.std.specs.Str.{is_utf8};
ghost use Rattle.dg_line.specs.Select.{selection_by};

use crate::plan::plan_of;
use dg_bytes::Bytes;
use dg_world::Selection;
use std::alloc::{AllocError, Global};
use std::str;

/// The words as texts, or nothing where one is none.
fn texts_of<'a>(alloc: Global, words: &'a [Bytes]) -> Result<Option<Vec<&'a str>>, AllocError>
    ensures { IfOk result (λ texts. MatchOption texts (list_all is_utf8 words.entry.now ≡ false)
        (λ v. (list_all is_utf8 words.entry.now ≡ true) × (map (λ w. w.now) v.items ≡ words.entry.now))) }
{
    let mut texts = Vec::new(alloc);
    for word in words {
        let Ok(text) = str::from_utf8(word.as_slice()) else {
            return Ok(None);
        };
        texts.push(text)?;
    }
    Ok(Some(texts))
}

/// What the words of a line select: what its plan does, whatever its mode and its folders. Nothing where a word is not UTF-8 or
/// the line has no plan.
#[tactic(auto, unfolding(crate::specs::Select::selection_by))]
pub fn selection_of(alloc: Global, words: &[Bytes]) -> Result<Option<Selection>, AllocError>
    ensures { IfOk result (λ s. s ≡ selection_by words.now) }
{
    let Some(texts) = texts_of(alloc, words)? else {
        return Ok(None);
    };
    match plan_of(alloc, texts.as_slice()) {
        Ok(plan) => Ok(Some(plan.into_selection())),
        Err(fault) => {
            if fault.is_memory() {
                return Err(AllocError);
            }
            Ok(None)
        }
    }
}
