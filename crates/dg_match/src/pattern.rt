//! The patterns that an `expect` waits for.
ghost use Rattle.std.specs.Prelude.{◌≡◌, IfOk, OnOk, IsErrOf};
ghost use Rattle.dg_match.specs.Regexes.{IsPatternText, IsNoPatternText};

use crate::built::Built;
use crate::fault::PatternFault;
use dg_bytes::{Bytes, TryCopy};
use std::alloc::{AllocError, Global};

/// A pattern, by its kind (expect(1)). A contract sees the kind and the pattern's text.
#[derive(Drop)]
pub enum Pattern {
    /// `-gl`: a glob, as `dg_glob::find_glob` takes it.
    Glob(Bytes),
    /// `-ex`: a literal.
    Exact(Bytes),
    /// `-re`: a regular expression, which [`build`] makes.
    Regex(Built),
}

impl TryCopy for Pattern {
    fn copy(&self, alloc: Global) -> Result<Pattern, AllocError> {
        match self {
            Pattern::Glob(glob) => Ok(Pattern::Glob(glob.copy(alloc)?)),
            Pattern::Exact(text) => Ok(Pattern::Exact(text.copy(alloc)?)),
            Pattern::Regex(built) => Ok(Pattern::Regex(built.share()?)),
        }
    }
}

/// Builds the `-re` pattern that a text spells, in the syntax of Rust's regex crate over bytes.
///
/// `Syntax` is given for a text that isn't UTF-8, that the grammar doesn't read, or that nests too
/// deep, `TooLarge` for one that takes too much room when built.
pub fn build(alloc: Global, text: &[u8]) -> Result<Pattern, PatternFault>
    ensures built { IfOk result (λ p. p ≡ Pattern.Regex text.now) }
    ensures read { OnOk result (IsPatternText text.now) }
    ensures syntax { IsErrOf result PatternFault.Syntax → IsNoPatternText text.now }
    ensures too_large { IsErrOf result PatternFault.TooLarge → IsPatternText text.now }
{
    Ok(Pattern::Regex(Built::new(alloc, text)?))
}
