//! Memory of the last patterns: the places where they can't match any more.
ghost use Rattle.std.specs.Prelude.{◌≡◌, ◌≤◌, ◌<◌, ◌*◌, IfOk, IsTrue, List, ℕ, OnErr, OnOk, [], drop, false, get_or, length, map};
ghost use Rattle.dg_match.specs.declared.starts.Progress.{Progress};
ghost use Rattle.dg_match.specs.Held.{later};
ghost use Rattle.dg_match.specs.Searches.{IsFound, compared_by, is_same_sought, nothing_known, searched, sought_of};
ghost use Rattle.dg_match.specs.Starts.{AllKept, IsKept};
ghost use Rattle.dg_match.specs.Tries.{known, remembered};

use crate::search::{search_glob, search_text};
use dg_bytes::is_same;
use dg_glob::{Parts, Span, Trail};
use memchr::memmem::Finder;
use std::alloc::{AllocError, Global};
use std::marker::Model;

/// The kind of a pattern's text.
#[derive(Clone, Copy)]
pub(crate) enum Kind {
    Text,
    Glob,
}

/// The thing that a search looks for: a text, or the parts of a glob.
#[derive(Drop)]
enum Sought {
    Text(Finder<'static>),
    Glob(Parts),
}

/// What is looked for, how many parts of it are found if it is a glob, and how many of the buffer's
/// first places it can't stand at, or its next part can't, whatever comes behind.
struct Progress {
    sought: Sought,
    found: usize,
    passed: usize,
}

impl Drop for Progress {
    fn drop(self) {
        let Progress {
            sought: _,
            found: _,
            passed: _,
        } = self;
    }
}

/// The result of a search, and how many bytes it has compared.
#[derive(Clone, Copy)]
pub(crate) struct Looked {
    pub(crate) found: Option<Span>,
    pub(crate) compared: usize,
}

impl Sought {
    /// The target of a pattern of this kind and text.
    fn of(alloc: Global, kind: Kind, text: &[u8]) -> Result<Sought, AllocError>
        ensures { IfOk result (λ k. k ≡ sought_of kind text.now) }
    {
        match kind {
            Kind::Text => {
                let finder = Finder::new(text).into_owned(alloc)?;
                Ok(Sought::Text(finder))
            }
            Kind::Glob => {
                let parts = Parts::new(alloc, text)?;
                Ok(Sought::Glob(parts))
            }
        }
    }

    /// Whether this is what a pattern of this kind and text looks for.
    fn is(&self, kind: Kind, text: &[u8]) -> bool
        ensures { result ≡ is_same_sought self.now (sought_of kind text.now) }
    {
        match self {
            Sought::Text(finder) => match kind {
                Kind::Text => is_same(finder.needle(), text),
                Kind::Glob => false,
            },
            Sought::Glob(parts) => match kind {
                Kind::Text => false,
                Kind::Glob => is_same(parts.glob(), text),
            },
        }
    }
}

impl Progress {
    /// Nothing is known of it yet.
    fn of(alloc: Global, kind: Kind, text: &[u8]) -> Result<Progress, AllocError>
        ensures { IfOk result (λ s. s ≡ nothing_known (sought_of kind text.now)) }
    {
        let sought = Sought::of(alloc, kind, text)?;
        Ok(Progress {
            sought,
            found: 0,
            passed: 0,
        })
    }

    /// Whether this is what is looked for.
    fn is_of(&self, kind: Kind, text: &[u8]) -> bool
        ensures { result ≡ is_same_sought self.now.sought (sought_of kind text.now) }
    {
        self.sought.is(kind, text)
    }

    /// Searches the buffer where it isn't known yet that there is no match.
    fn search(&mut self, bytes: &[u8]) -> Looked
        requires { IsKept bytes.now self.old }
        ensures state { self.new ≡ searched bytes.now self.old }
        ensures compared { result.compared ≡ compared_by bytes.now self.old }
        ensures at_most { result.compared ≤ 2 * length bytes.now }
        ensures found { IsFound bytes.now self.old.sought result.found }
        ensures kept { IsKept bytes.now self.new }
    {
        match &self.sought {
            Sought::Text(finder) => {
                let search = search_text(bytes, finder, self.passed);
                self.passed = search.passed;
                Looked {
                    found: search.found,
                    compared: search.compared,
                }
            }
            Sought::Glob(parts) => {
                let trail = Trail {
                    found: self.found,
                    passed: self.passed,
                };
                let search = search_glob(bytes, parts, trail);
                self.found = search.left.found;
                self.passed = search.left.passed;
                Looked {
                    found: search.found,
                    compared: search.compared,
                }
            }
        }
    }

    /// Counts the places anew where so many bytes were cut from the buffer's front.
    fn cut(&mut self, count: usize)
        ensures { self.new ≡ later count self.old }
    {
        self.passed = self.passed.saturating_sub(count);
    }
}

/// Memory of the patterns that were tried last, in their order.
#[derive(Drop)]
pub(crate) struct Starts {
    entries: Vec<Progress>,
}

impl Model for Starts {
    ghost use Rattle.std.specs.Prelude.{List};
    ghost use Rattle.dg_match.specs.declared.starts.Progress.{Progress};

    ghost Value = { List Progress };

    ghost view = { λ s. s.entries.items };
}

impl Starts {
    /// Nothing is remembered.
    pub(crate) fn new(alloc: Global) -> Starts
        ensures { result ≡ [] }
    {
        Starts {
            entries: Vec::new(alloc),
        }
    }

    /// Whether this is what the pattern of this index looked for.
    fn holds(&self, index: usize, kind: Kind, text: &[u8]) -> bool
        ensures yes { IsTrue result → remembered index (known index (sought_of kind text.now) self.now) self.now ≡ self.now }
        ensures within { IsTrue result → index < length self.now }
        ensures no { result ≡ false → known index (sought_of kind text.now) self.now ≡ nothing_known (sought_of kind text.now) }
    {
        match self.entries.get(index) {
            Some(start) => start.is_of(kind, text),
            None => false,
        }
    }

    /// Remembers this of the pattern of an index, in place of what was remembered of it, or changes
    /// nothing.
    fn put(&mut self, index: usize, start: Progress) -> Result<(), AllocError>
        requires { index ≤ length self.old }
        ensures ok { OnOk result (self.new ≡ remembered index start self.old) }
        ensures err { OnErr result (self.new ≡ self.old) }
    {
        if let Some(old) = self.entries.get_mut(index) {
            *old = start;
            return Ok(());
        }
        self.entries.push(start)?;
        Ok(())
    }

    /// Has an entry for what the pattern of this index looks for: the one of the last try, if that was
    /// for the same. Where a growth is refused nothing is changed.
    fn hold(
        &mut self,
        alloc: Global,
        index: usize,
        kind: Kind,
        text: &[u8],
    ) -> Result<(), AllocError>
        requires { index ≤ length self.old }
        ensures ok { OnOk result (self.new ≡
            remembered index (known index (sought_of kind text.now) self.old) self.old) }
        ensures err { OnErr result (self.new ≡ self.old) }
    {
        if self.holds(index, kind, text) {
            return Ok(());
        }
        let start = Progress::of(alloc, kind, text)?;
        self.put(index, start)
    }

    /// Searches the buffer for what the pattern of an index looks for.
    fn search(&mut self, index: usize, bytes: &[u8]) -> Looked
        requires within { index < length self.old }
        requires kept { AllKept bytes.now self.old }
        ensures state { (s : Progress) → s ≡ get_or self.old index s → self.new ≡ remembered index (searched bytes.now s) self.old }
        ensures compared { (s : Progress) → s ≡ get_or self.old index s → result.compared ≡ compared_by bytes.now s }
        ensures found { (s : Progress) → s ≡ get_or self.old index s → IsFound bytes.now s.sought result.found }
        ensures at_most { result.compared ≤ 2 * length bytes.now }
        ensures kept { AllKept bytes.now self.new }
    {
        if let Some(start) = self.entries.get_mut(index) {
            return start.search(bytes);
        }
        Looked {
            found: None,
            compared: 0,
        }
    }

    /// Searches the buffer for a text or a glob, and remembers what the search has learned of the
    /// pattern of this index. Where a growth is refused nothing is changed.
    pub(crate) fn search_for(
        &mut self,
        alloc: Global,
        index: usize,
        kind: Kind,
        text: &[u8],
        bytes: &[u8],
    ) -> Result<Looked, AllocError>
        requires within { index ≤ length self.old }
        requires kept { AllKept bytes.now self.old }
        ensures state { OnOk result (self.new ≡
            remembered index (searched bytes.now (known index (sought_of kind text.now) self.old)) self.old) }
        ensures compared { IfOk result (λ r. r.compared ≡ compared_by bytes.now (known index (sought_of kind text.now) self.old)) }
        ensures at_most { IfOk result (λ r. r.compared ≤ 2 * length bytes.now) }
        ensures found { IfOk result (λ r. IsFound bytes.now (sought_of kind text.now) r.found) }
        ensures err { OnErr result (self.new ≡ self.old) }
        ensures kept { AllKept bytes.now self.new }
    {
        self.hold(alloc, index, kind, text)?;
        let looked = self.search(index, bytes);
        Ok(looked)
    }

    /// Counts the places anew where so many bytes were cut from the buffer's front.
    pub(crate) fn cut(&mut self, count: usize)
        ensures value { self.new ≡ map (later count) self.old }
        ensures passed { (bytes : List ℕ) → count ≤ length bytes → AllKept bytes self.old →
            AllKept (drop count bytes) self.new }
    {
        for start in self.entries.iter_mut() {
            start.cut(count);
        }
    }
}
