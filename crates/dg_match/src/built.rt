//! A pattern that `regex` has built.
ghost use Rattle.std.specs.Prelude.{◌≡◌, All, IfOk, IsErrOf, OnOk};
ghost use Rattle.regex.specs.Bytes.{regex_source};
ghost use Rattle.regex_extract.specs.Needles.{needles_of};
ghost use Rattle.dg_match.specs.Needs.{NeedsOneOf};
ghost use Rattle.dg_match.specs.Regexes.{IsPatternText, IsNoPatternText, IsBuilt};

use crate::fault::PatternFault;
use crate::needs::Needs;
use regex::bytes::Regex;
use std::alloc::{AllocError, Global};
use std::marker::Model;
use std::str;
use std::sync::Arc;

/// A built `-re` pattern, which may be shared. A contract sees the text that it was built from.
pub struct Built {
    regex: Arc<Regex>,
    needs: Arc<Needs>,
}

impl Drop for Built {
    fn drop(self) {
        let Built { regex: _, needs: _ } = self;
    }
}

impl Model for Built {
    ghost use Rattle.std.specs.Prelude.{ℕ, List, All};

    ghost Value = { List ℕ };

    ghost use Rattle.std.specs.Arc.{arc_value};
    ghost use Rattle.regex.specs.Bytes.{regex_source};
    ghost use Rattle.regex_extract.specs.Needles.{needles_of};
    ghost use Rattle.dg_match.specs.Needs.{NeedsOneOf};
    ghost use Rattle.dg_match.specs.Regexes.{IsBuilt};

    ghost view = { λ b. regex_source (arc_value b.regex) };

    ghost invariant = { λ b. IsBuilt (arc_value b.regex)
        × All (λ s. NeedsOneOf (regex_source (arc_value b.regex)) (needles_of s)) (arc_value b.needs).sets.items };
}

impl Built {
    /// Builds the pattern that the text spells.
    pub fn new(alloc: Global, text: &[u8]) -> Result<Built, PatternFault>
        ensures text { IfOk result (λ b. b ≡ text.now) }
        ensures read { OnOk result (IsPatternText text.now) }
        ensures syntax { IsErrOf result PatternFault.Syntax → IsNoPatternText text.now }
        ensures too_large { IsErrOf result PatternFault.TooLarge → IsPatternText text.now }
    {
        let Ok(source) = str::from_utf8(text) else {
            return Err(PatternFault::Syntax);
        };
        match Regex::new(alloc, source) {
            Ok(regex) => match Built::of(alloc, source, regex) {
                Ok(built) => Ok(built),
                Err(AllocError) => Err(PatternFault::Memory),
            },
            Err(regex::Error::Syntax(_)) => Err(PatternFault::Syntax),
            Err(regex::Error::OutOfMemory) => Err(PatternFault::Memory),
            Err(regex::Error::CompiledTooBig) => Err(PatternFault::TooLarge),
            Err(regex::Error::Internal) => unreachable!(),
        }
    }

    /// The pattern that `regex` has built of a text.
    fn of(alloc: Global, source: &str, regex: Regex) -> Result<Built, AllocError>
        requires text { regex_source regex ≡ source.now }
        requires built { IsBuilt regex }
        ensures { IfOk result (λ b. b ≡ source.now) }
    {
        let needs = Arc::new(alloc, Needs::of(alloc, source)?)?;
        let regex = Arc::new(alloc, regex)?;
        Ok(Built { regex, needs })
    }

    /// The same pattern once more. Nothing is built anew.
    pub fn share(&self) -> Result<Built, AllocError>
        ensures same { IfOk result (λ b. b ≡ self.now) }
        ensures read { OnOk result (IsPatternText self.now) }
    {
        Ok(Built {
            regex: Arc::try_clone(&self.regex)?,
            needs: Arc::try_clone(&self.needs)?,
        })
    }

    /// The pattern that `regex` made of the text.
    pub(crate) fn regex(&self) -> &Regex
        ensures text { regex_source result.now ≡ self.now }
        ensures built { IsBuilt result.now }
    {
        self.regex.as_ref()
    }

    /// The text.
    pub(crate) fn text(&self) -> &[u8]
        ensures { result.now ≡ self.now }
    {
        self.regex().as_str().as_bytes()
    }

    /// The texts that its matches need.
    pub(crate) fn needs(&self) -> &Needs
        ensures { All (λ s. NeedsOneOf self.now (needles_of s)) result.now.sets.items }
    {
        self.needs.as_ref()
    }
}
