//! The texts that a `-re` pattern needs.
ghost use Rattle.std.specs.Prelude.{List, ℕ, All, IfOk, IfSome, OnOk};
ghost use Rattle.regex_extract.specs.Needles.{needles_of};
ghost use Rattle.regex_syntax.specs.Grammar.{Names};
ghost use Rattle.regex_syntax.specs.Verdict.{Reads};
ghost use Rattle.dg_match.specs.Regexes.{bytes_config};
ghost use Rattle.dg_match.specs.Needs.{NeedsOneOf};

use regex_extract::{Needles, prefixes, required, suffixes};
use regex_hir::Hir;
use regex_syntax::{Config, parse};
use std::alloc::{AllocError, Global};

/// How many texts are looked for at most in place of a match.
const MOST: usize = 8;

/// Sets of texts. Each match of a `-re` pattern holds a text of each set.
#[derive(Drop)]
pub(crate) struct Needs {
    pub(crate) sets: Vec<Needles>,
}

impl Needs {
    /// The needs of the pattern that a text spells, if they can be found.
    pub(crate) fn of(alloc: Global, source: &str) -> Result<Needs, AllocError>
        ensures { IfOk result (λ n. All (λ s. NeedsOneOf source.now (needles_of s)) n.sets.items) }
    {
        let config = Config {
            utf8: false,
            ..Config::default()
        };
        match parse(alloc, source, &config) {
            Ok(parsed) => Needs::of_tree(alloc, &parsed.hir),
            Err(_) => Ok(Needs {
                sets: Vec::new(alloc),
            }),
        }
    }

    /// The needs of a pattern, by its tree.
    fn of_tree(alloc: Global, hir: &Hir) -> Result<Needs, AllocError>
        ensures { IfOk result (λ n. (text : List ℕ) (names : Names) → Reads bytes_config text hir.now names →
            All (λ s. NeedsOneOf text (needles_of s)) n.sets.items) }
    {
        let mut needs = Needs {
            sets: Vec::new(alloc),
        };
        needs.add_all(alloc, hir)?;
        Ok(needs)
    }

    /// Adds the sets of the pattern's tree.
    fn add_all(&mut self, alloc: Global, hir: &Hir) -> Result<(), AllocError>
        ensures { (text : List ℕ) (names : Names) → Reads bytes_config text hir.now names →
            All (λ s. NeedsOneOf text (needles_of s)) self.old.sets.items →
            OnOk result (All (λ s. NeedsOneOf text (needles_of s)) self.new.sets.items) }
    {
        self.add(suffixes(alloc, hir)?)?;
        self.add(prefixes(alloc, hir)?)?;
        self.add(required(alloc, hir)?)
    }

    /// Adds a set, if there is one and it isn't large.
    fn add(&mut self, found: Option<Needles>) -> Result<(), AllocError>
        ensures { (text : List ℕ) → IfSome found (λ s. NeedsOneOf text (needles_of s)) →
            All (λ s. NeedsOneOf text (needles_of s)) self.old.sets.items →
            OnOk result (All (λ s. NeedsOneOf text (needles_of s)) self.new.sets.items) }
    {
        match found {
            Some(texts) if texts.len() <= MOST => {
                self.sets.push(texts)?;
                Ok(())
            }
            _ => Ok(()),
        }
    }
}
