//! The `-re` patterns that a job has built, each once.
ghost use Rattle.std.specs.Prelude.{◌≡◌, ◌++◌, ◌∷◌, [], false, is_some, IfOk, IfErr, IfSome, IsTrue, IsErrOf, OnErr, OnOk};
ghost use Rattle.dg_match.specs.Programs.{is_among};
ghost use Rattle.dg_match.specs.Regexes.{IsPatternText, IsNoPatternText};

use crate::built::Built;
use crate::fault::PatternFault;
use crate::pattern::Pattern;
use dg_bytes::{Bytes, TryCopy};
use indexmap::IndexMap;
use std::alloc::{AllocError, Global};
use std::marker::Model;

/// Built `-re` patterns by their texts. A contract sees the texts, in the order in which they were
/// built.
#[derive(Drop)]
pub struct Programs {
    map: IndexMap<Bytes, Built>,
}

impl Model for Programs {
    ghost use Rattle.std.specs.Prelude.{◌≡◌, ℕ, List, All};
    ghost use Rattle.std.specs.Map.{keys_of};

    ghost Value = { List (List ℕ) };

    ghost view = { λ p. keys_of p.map.entries };

    ghost invariant = { λ p. All (λ e. e.1 ≡ e.0) p.map.entries };
}

impl Programs {
    /// Nothing is built.
    pub fn new(alloc: Global) -> Programs
        ensures { result ≡ [] }
    {
        Programs {
            map: IndexMap::new(alloc),
        }
    }

    /// The pattern of a text that was built.
    fn known(&self, text: &Bytes) -> Result<Option<Built>, AllocError>
        ensures known { IfOk result (λ o. is_some o ≡ is_among self.now text.now) }
        ensures same { IfOk result (λ o. IfSome o (λ b. b ≡ text.now)) }
        ensures read { IfOk result (λ o. IfSome o (λ _. IsPatternText text.now)) }
    {
        match self.map.get(text) {
            Some(built) => Ok(Some(built.share()?)),
            None => Ok(None),
        }
    }

    /// Keeps the built pattern of a text, or changes nothing.
    fn keep(&mut self, alloc: Global, text: &Bytes, built: &Built) -> Result<(), AllocError>
        requires same { built.now ≡ text.now }
        requires unknown { is_among self.old text.now ≡ false }
        ensures ok { OnOk result (self.new ≡ self.old ++ text.now ∷ []) }
        ensures err { OnErr result (self.new ≡ self.old) }
    {
        let key = text.copy(alloc)?;
        let kept = built.share()?;
        self.map.insert(key, kept)?;
        Ok(())
    }

    /// The `-re` pattern that a text spells, as [`crate::build`] makes it. A text that was built once is
    /// given again and not built. Where there is an error nothing is changed, and a text that was built
    /// once has none but want of memory.
    pub fn build(&mut self, alloc: Global, text: &Bytes) -> Result<Pattern, PatternFault>
        ensures built { IfOk result (λ p. p ≡ Pattern.Regex text.now) }
        ensures read { OnOk result (IsPatternText text.now) }
        ensures syntax { IsErrOf result PatternFault.Syntax → IsNoPatternText text.now }
        ensures too_large { IsErrOf result PatternFault.TooLarge → IsPatternText text.now }
        ensures known { IsTrue (is_among self.old text.now) → self.new ≡ self.old }
        ensures again { IsTrue (is_among self.old text.now) → IfErr result (λ e. e ≡ PatternFault.Memory) }
        ensures first { is_among self.old text.now ≡ false →
            OnOk result (self.new ≡ self.old ++ text.now ∷ []) }
        ensures err { OnErr result (self.new ≡ self.old) }
    {
        match self.known(text) {
            Ok(Some(built)) => return Ok(Pattern::Regex(built)),
            Ok(None) => {}
            Err(AllocError) => return Err(PatternFault::Memory),
        }
        let built = Built::new(alloc, text.as_slice())?;
        match self.keep(alloc, text, &built) {
            Ok(()) => Ok(Pattern::Regex(built)),
            Err(AllocError) => Err(PatternFault::Memory),
        }
    }
}
