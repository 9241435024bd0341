//! Automata of `-re` patterns that were searched for in vain. They keep the states that they have met, and tell that bytes
//! have no match without a new matcher.
ghost use Rattle.std.specs.Prelude.{◌≡◌, ◌↔◌, List, ℕ, IfSome, IsTrue, None};
ghost use Rattle.regex_compile.specs.Implements.{Implements, HasPaths};
ghost use Rattle.regex_hir.specs.Meaning.{meaning};
ghost use Rattle.regex_syntax.specs.Grammar.{Names};
ghost use Rattle.regex_syntax.specs.Verdict.{Reads};
ghost use Rattle.dg_match.specs.Automata.{IsWalkOf};
ghost use Rattle.dg_match.specs.Groups.{regex_match};
ghost use Rattle.dg_match.specs.Regexes.{bytes_config};

use dg_bytes::Bytes;
use regex_compile::compile;
use regex_dfa::{Dfa, End, Forward, Reverse, Start};
use regex_extract::is_anchored_end;
use regex_hir::Hir;
use regex_syntax::{Config, parse};
use std::alloc::{AllocError, Global};
use std::marker::Model;
use std::str;

/// How many searches end in vain before one more automaton is made: to make one takes longer than a search does.
const PATIENCE: u8 = 4;

/// The same once there is no room for one more, or one could not be made: so what is made in vain costs little.
const LONG_PATIENCE: u8 = 255;

/// How many automata a buffer keeps at most.
const MOST: usize = 4;

/// How many bytes the states of an automaton take at most.
const ROOM: usize = 0x4_0000;

/// How many bytes the tables of an automaton take at most: larger patterns have none.
const LARGEST: usize = 0x4_0000;

/// How many bytes an automaton reads forwards at most: of more than these a matcher is faster, which skips where it can.
const NEAR: usize = 4096;

/// The way that an automaton reads, with the states that it has met.
#[derive(Drop)]
enum Walk {
    /// From the first byte on.
    Forwards(Forward),
    /// From the last byte back: each match of the pattern ends there.
    Backwards(Reverse),
}

/// The automaton of a `-re` pattern, with the states that its searches have met. A contract sees the pattern's text.
struct Automaton {
    pattern: Bytes,
    dfa: Dfa,
    walk: Walk,
}

impl Drop for Automaton {
    fn drop(self) {
        let Automaton {
            pattern: _,
            dfa: _,
            walk: _,
        } = self;
    }
}

impl Model for Automaton {
    ghost use Rattle.std.specs.Prelude.{ℕ, List};
    ghost use Rattle.dg_match.specs.Automata.{IsWalkOf};

    ghost Value = { List ℕ };

    ghost view = { λ a. a.pattern };

    ghost invariant = { λ a. IsWalkOf a.pattern a.dfa a.walk };
}

/// The automaton of a pattern's tree, if there is room for it.
fn dfa_of(alloc: Global, hir: &Hir, groups: usize) -> Option<Dfa>
    ensures implements { IfSome result (λ d. Implements d.nfa (meaning hir.now)) }
    ensures paths { IfSome result (λ d. HasPaths d.nfa (meaning hir.now)) }
{
    let Ok(groups) = u32::try_from(groups) else {
        return None;
    };
    let Ok(nfa) = compile(alloc, hir, groups, LARGEST) else {
        return None;
    };
    match Dfa::new(alloc, nfa) {
        Ok(dfa) => Some(dfa),
        Err(_) => None,
    }
}

/// The way that the automaton of a tree reads, if there is room for its states.
fn walk_of(alloc: Global, hir: &Hir, dfa: &Dfa) -> Option<Walk>
    requires implements { Implements dfa.now.nfa (meaning hir.now) }
    requires paths { HasPaths dfa.now.nfa (meaning hir.now) }
    ensures { IfSome result (λ s. (text : List ℕ) (names : Names) → Reads bytes_config text hir.now names → IsWalkOf text dfa.now s) }
{
    if is_anchored_end(hir) {
        return match Reverse::with_budget(alloc, dfa, ROOM) {
            Ok(reverse) => Some(Walk::Backwards(reverse)),
            Err(_) => None,
        };
    }
    match Forward::with_budget(alloc, dfa, false, ROOM) {
        Ok(forward) => Some(Walk::Forwards(forward)),
        Err(_) => None,
    }
}

/// The automaton of a pattern's tree and the way that it reads, if there is room for them.
fn walker_of(alloc: Global, hir: &Hir, groups: usize) -> Option<(Dfa, Walk)>
    ensures { IfSome result (λ s. (text : List ℕ) (names : Names) → Reads bytes_config text hir.now names → IsWalkOf text s.0 s.1) }
{
    let dfa = dfa_of(alloc, hir, groups)?;
    let walk = walk_of(alloc, hir, &dfa)?;
    Some((dfa, walk))
}

/// The same of the pattern that a text spells, if it spells one.
fn walker_of_text(alloc: Global, pattern: &[u8]) -> Option<(Dfa, Walk)>
    ensures { IfSome result (λ s. IsWalkOf pattern.now s.0 s.1) }
{
    let Ok(source) = str::from_utf8(pattern) else {
        return None;
    };
    let config = Config {
        utf8: false,
        ..Config::default()
    };
    match parse(alloc, source, &config) {
        Ok(parsed) => walker_of(alloc, &parsed.hir, parsed.names.len()),
        Err(_) => None,
    }
}

impl Automaton {
    /// The automaton of the pattern that a text spells, if it spells one and there is room for it.
    fn of(alloc: Global, pattern: &[u8]) -> Option<Automaton>
        ensures { IfSome result (λ a. a ≡ pattern.now) }
    {
        let Ok(text) = Bytes::from_slice(alloc, pattern) else {
            return None;
        };
        let (dfa, walk) = walker_of_text(alloc, pattern)?;
        Some(Automaton {
            pattern: text,
            dfa,
            walk,
        })
    }

    /// Whether it is that of this pattern.
    fn is_of(&self, pattern: &[u8]) -> bool
        ensures { IsTrue result ↔ (self.now ≡ pattern.now) }
    {
        self.pattern.is(pattern)
    }

    /// Whether it tells that the pattern has no match in the bytes.
    fn excludes(&mut self, bytes: &[u8]) -> bool
        ensures none { IsTrue result → regex_match self.old bytes.now ≡ None }
        ensures same { self.new ≡ self.old }
    {
        match &mut self.walk {
            Walk::Forwards(forward) => {
                if bytes.len() > NEAR {
                    return false;
                }
                let end = forward.find_end(&self.dfa, bytes, 0, bytes.len(), false, true);
                matches!(end, End::NoMatch)
            }
            Walk::Backwards(reverse) => {
                let start = reverse.find_start(&self.dfa, bytes, 0, bytes.len());
                matches!(start, Start::NoMatch)
            }
        }
    }
}

/// The automata of the patterns that were searched for in vain, a few at most.
#[derive(Drop)]
pub(crate) struct Automata {
    kept: Vec<Automaton>,
    /// The place of the one that goes where there is no room for one more.
    oldest: usize,
    /// How many searches have ended in vain since one was made.
    vain: u8,
    /// How many of them have to before one more is.
    patience: u8,
}

impl Automata {
    /// None is kept.
    pub(crate) fn new(alloc: Global) -> Automata {
        Automata {
            kept: Vec::new(alloc),
            oldest: 0,
            vain: 0,
            patience: PATIENCE,
        }
    }

    /// Whether one of them tells that the pattern has no match in the bytes.
    pub(crate) fn exclude(&mut self, pattern: &[u8], bytes: &[u8]) -> bool
        ensures { IsTrue result → regex_match pattern.now bytes.now ≡ None }
    {
        for automaton in self.kept.iter_mut() {
            if automaton.is_of(pattern) {
                return automaton.excludes(bytes);
            }
        }
        false
    }

    /// Counts a search for a pattern that has found nothing, and makes the pattern's automaton where there were many. Without
    /// room for it there is none.
    pub(crate) fn note_vain(&mut self, alloc: Global, pattern: &[u8]) {
        self.vain = self.vain.saturating_add(1);
        if self.vain < self.patience || self.kept.iter().any(|it| it.is_of(pattern)) {
            return;
        }
        self.vain = 0;
        match Automaton::of(alloc, pattern) {
            Some(automaton) => self.keep(automaton),
            None => self.patience = LONG_PATIENCE,
        }
    }

    /// Keeps one more, in place of the oldest where there is no room.
    fn keep(&mut self, automaton: Automaton) {
        if self.kept.len() < MOST {
            let _kept = self.kept.push(automaton);
        } else {
            self.replace_oldest(automaton);
        }
        if self.kept.len() >= MOST {
            self.patience = LONG_PATIENCE;
        }
    }

    /// Lets the oldest go for another one.
    fn replace_oldest(&mut self, automaton: Automaton) {
        if let Some(place) = self.kept.get_mut(self.oldest) {
            *place = automaton;
            self.oldest = (self.oldest + 1) % MOST;
        }
    }
}
