//! The buffer that a session's output goes into.
ghost use Rattle.std.specs.Prelude.{◌≡◌, ◌≤◌, ◌+◌, ◌*◌, ◌++◌, ℕ, List, [], drop, length, take, OnOk, OnErr, IfOk, IfSome, IsTrue, None, option_map, MatchOption};
ghost use Rattle.dg_match.specs.Groups.{regex_match};
ghost use Rattle.dg_match.specs.Held.{emptied, heard, held_output, with_last, without_first, without_nulls};
ghost use Rattle.dg_match.specs.Hits.{IsTried, IsAnswer, HasNoMatch, LiesIn, hit_of};
ghost use Rattle.dg_match.specs.Searches.{IsFound, compared_by, searched, sought_of};
ghost use Rattle.dg_match.specs.Tries.{AreTried, HasCompared, all_tried, counted, known, once_sought, once_tried, remembered, up_to};
ghost use Rattle.dg_match.specs.Literals.{IsNowhere, IsFirstPlace};
ghost use Rattle.dg_glob.specs.Glob.{IsFirstSpan};

use crate::automata::Automata;
use crate::built::Built;
use crate::found::{Found, first_match};
use crate::hit::Hit;
use crate::pattern::Pattern;
use crate::starts::{Kind, Looked, Starts};
use crate::watch::Watch;
use dg_bytes::{Bytes, Seq};
use dg_glob::Span;
use memchr::memchr;
use std::alloc::{AllocError, Global};
use std::marker::Model;
use std::mem;

/// The output of a session that was read and not yet taken: its last bytes, as many as it keeps at
/// most, without nulls (expect(1), `match_max` and `remove_nulls`). A contract sees the bytes, how
/// many are kept at most, the count that [`Buffer::compared`] gives, and what is remembered of the
/// patterns tried last.
#[derive(Drop)]
pub struct Buffer {
    /// The bytes, behind a front that was cut off.
    bytes: Vec<u8>,
    front: usize,
    /// Room for the bytes when that front is let go.
    spare: Vec<u8>,
    max: usize,
    compared: u64,
    starts: Starts,
    watch: Watch,
    automata: Automata,
}

impl Model for Buffer {
    ghost use Rattle.std.specs.Prelude.{◌≤◌, length, drop};
    ghost use Rattle.dg_match.specs.Held.{Held, held_code};
    ghost use Rattle.dg_match.specs.Starts.{AllKept};

    ghost Value = { Held };

    ghost coded = { held_code };

    ghost view = { λ b. record { bytes = drop b.front b.bytes.items; max = b.max; compared = b.compared; starts = b.starts } };

    ghost invariant = { λ b. (b.front ≤ length b.bytes.items)
        × AllKept (drop b.front b.bytes.items) b.starts
        × AllKept (drop b.front b.bytes.items) b.watch
        × (length (drop b.front b.bytes.items) ≤ b.max) };
}

/// A vector without its first bytes.
fn without_front(bytes: &mut Vec<u8>, front: usize)
    requires { front ≤ length bytes.old.items }
    ensures { bytes.new.items ≡ drop front bytes.old.items }
{
    let left = bytes.len() - front;
    bytes.copy_within(front.., 0);
    bytes.truncate(left);
}

/// Adds the bytes of a chunk that are no nulls, or changes nothing.
fn extend(alloc: Global, bytes: &mut Vec<u8>, chunk: &[u8]) -> Result<(), AllocError>
    ensures ok { OnOk result (bytes.new.items ≡ bytes.old.items ++ without_nulls chunk.now) }
    ensures err { OnErr result (bytes.new.items ≡ bytes.old.items) }
{
    if let Some(_null) = memchr(0, chunk) {
        let kept: Vec<u8> = chunk
            .iter()
            .copied()
            .filter(|byte| *byte != 0)
            .collect(alloc)?;
        return bytes.extend_from_slice(kept.as_slice());
    }
    bytes.extend_from_slice(chunk)
}

/// The match that a search for a glob or a literal has found.
fn without_groups(alloc: Global, found: Option<Span>) -> Option<Found>
    ensures { result ≡ option_map (λ s. record { start = s.start; end = s.end; groups = [] }) found }
{
    found.map(|span| Found {
        start: span.start,
        end: span.end,
        groups: Seq::new(alloc),
    })
}

impl Buffer {
    /// An empty buffer that keeps at most so many bytes.
    pub fn new(alloc: Global, max: usize) -> Buffer
        ensures { result ≡ record { bytes = []; max = max; compared = 0; starts = [] } }
    {
        Buffer {
            bytes: Vec::new(alloc),
            front: 0,
            spare: Vec::new(alloc),
            max,
            compared: 0,
            starts: Starts::new(alloc),
            watch: Watch::new(alloc),
            automata: Automata::new(alloc),
        }
    }

    /// The bytes. It takes no memory.
    pub fn as_slice(&self) -> &[u8]
        ensures { result.now ≡ self.now.bytes }
    {
        &self.bytes[self.front..]
    }

    /// How many bytes literals and globs have compared so far; at its last value it stays. It takes
    /// no memory.
    pub fn compared(&self) -> u64
        ensures { result ≡ self.now.compared }
    {
        self.compared
    }

    /// Lets the first bytes go.
    fn cut(&mut self, count: usize)
        requires { count ≤ length self.old.bytes }
        ensures { self.new ≡ without_first count self.old }
    {
        self.front += count;
        self.starts.cut(count);
        self.watch.cut(count);
    }

    /// Keeps the last bytes.
    fn keep_last(&mut self, count: usize)
        ensures { self.new ≡ with_last count self.old }
    {
        self.cut(self.as_slice().len().saturating_sub(count));
    }

    /// Adds a chunk behind the bytes, without its nulls, and keeps the last bytes, as many as are
    /// kept at most. Where a growth is refused nothing is changed.
    pub fn add(&mut self, alloc: Global, chunk: &[u8]) -> Result<(), AllocError>
        ensures output { OnOk result (held_output self.new ≡ heard chunk.now (held_output self.old)) }
        ensures ok { OnOk result (self.new ≡
            with_last self.old.max (record self.old { bytes = self.old.bytes ++ without_nulls chunk.now })) }
        ensures err { OnErr result (self.new ≡ self.old) }
    {
        self.close_up()?;
        extend(alloc, &mut self.bytes, chunk)?;
        let excess = (self.bytes.len() - self.front).saturating_sub(self.max);
        self.front += excess;
        self.starts.cut(excess);
        self.watch.cut(excess);
        Ok(())
    }

    /// Lets the front that was cut off go, once it is as long as the bytes, or changes nothing.
    fn close_up(&mut self) -> Result<(), AllocError>
        ensures { self.new ≡ self.old }
    {
        if self.front < self.bytes.len() - self.front {
            return Ok(());
        }
        self.spare.clear();
        self.spare.extend_from_slice(&self.bytes[self.front..])?;
        mem::swap(&mut self.bytes, &mut self.spare);
        self.front = 0;
        Ok(())
    }

    /// The first of the patterns that has a match, with its match: of a glob the least start and of
    /// those the greatest end, of a literal the least start, of a `-re` pattern its first match
    /// (expect(1)). A hit lies in the bytes, and its groups in the hit; the bytes are left as they
    /// are. Literals and globs compare only what they have to, by what is remembered. Where a growth
    /// is refused, only some of the patterns may have been tried.
    pub fn try_patterns(
        &mut self,
        alloc: Global,
        patterns: &[Pattern],
    ) -> Result<Option<Hit>, AllocError>
        ensures hit { IfOk result (λ hit. hit ≡ hit_of patterns.now self.old.bytes) }
        ensures relation { IfOk result (λ hit. IsTried patterns.now self.old.bytes hit) }
        ensures within { IfOk result (λ hit. IfSome hit (LiesIn self.old.bytes)) }
        ensures tried { IfOk result (λ hit. self.new ≡ all_tried 0 (up_to hit patterns.now) self.old) }
        ensures part { AreTried patterns.now self.old self.new }
        ensures same { self.new ≡ record self.old { compared = self.new.compared; starts = self.new.starts } }
        ensures counted { self.old.compared ≤ self.new.compared }
        ensures at_most { self.new.compared ≤
            self.old.compared + length patterns.now * (2 * length self.old.bytes) }
    {
        for (index, pattern) in patterns.iter().enumerate() {
            if let Some(found) = self.try_pattern(alloc, index, pattern)? {
                return Ok(Some(Hit {
                    index,
                    start: found.start,
                    end: found.end,
                    groups: found.groups,
                }));
            }
        }
        Ok(None)
    }

    /// Tries the pattern of an index.
    fn try_pattern(
        &mut self,
        alloc: Global,
        index: usize,
        pattern: &Pattern,
    ) -> Result<Option<Found>, AllocError>
        requires { index ≤ length self.old.starts }
        ensures answer { IfOk result (λ answer. IsAnswer pattern.now self.old.bytes answer) }
        ensures tried { OnOk result (self.new ≡ once_tried index pattern.now self.old) }
        ensures err { OnErr result (self.new ≡ self.old) }
        ensures only { HasCompared (2 * length self.old.bytes) self.old self.new }
    {
        match pattern {
            Pattern::Glob(glob) => {
                let search = self.try_glob(alloc, index, glob.as_slice())?;
                Ok(without_groups(alloc, search))
            }
            Pattern::Exact(text) => {
                let search = self.try_text(alloc, index, text.as_slice())?;
                Ok(without_groups(alloc, search))
            }
            Pattern::Regex(built) => self.try_regex(alloc, index, built),
        }
    }

    /// Tries the glob of an index.
    fn try_glob(
        &mut self,
        alloc: Global,
        index: usize,
        glob: &[u8],
    ) -> Result<Option<Span>, AllocError>
        requires { index ≤ length self.old.starts }
        ensures found { IfOk result (λ r. MatchOption r (HasNoMatch (Pattern.Glob glob.now) self.old.bytes)
            (λ s. IsFirstSpan glob.now self.old.bytes s.start s.end)) }
        ensures tried { OnOk result (self.new ≡ once_tried index (Pattern.Glob glob.now) self.old) }
        ensures err { OnErr result (self.new ≡ self.old) }
        ensures only { HasCompared (2 * length self.old.bytes) self.old self.new }
    {
        self.look(alloc, index, Kind::Glob, glob)
    }

    /// Tries the literal of an index.
    fn try_text(
        &mut self,
        alloc: Global,
        index: usize,
        text: &[u8],
    ) -> Result<Option<Span>, AllocError>
        requires { index ≤ length self.old.starts }
        ensures found { IfOk result (λ r. MatchOption r (IsNowhere text.now self.old.bytes)
            (λ s. IsFirstPlace text.now self.old.bytes s.start s.end)) }
        ensures tried { OnOk result (self.new ≡ once_tried index (Pattern.Exact text.now) self.old) }
        ensures err { OnErr result (self.new ≡ self.old) }
        ensures only { HasCompared (2 * length self.old.bytes) self.old self.new }
    {
        self.look(alloc, index, Kind::Text, text)
    }

    /// Searches for a text or a glob, counts the compared bytes, and remembers what the search has learned.
    fn look(
        &mut self,
        alloc: Global,
        index: usize,
        kind: Kind,
        text: &[u8],
    ) -> Result<Option<Span>, AllocError>
        requires { index ≤ length self.old.starts }
        ensures found { IfOk result (λ r. IsFound self.old.bytes (sought_of kind text.now) r) }
        ensures tried { OnOk result (self.new ≡ once_sought index (sought_of kind text.now) self.old) }
        ensures err { OnErr result (self.new ≡ self.old) }
        ensures only { HasCompared (2 * length self.old.bytes) self.old self.new }
    {
        let looked = self.search_for(alloc, index, kind, text)?;
        self.count(looked.compared);
        Ok(looked.found)
    }

    /// Searches for a text or a glob, and remembers what the search has learned.
    fn search_for(
        &mut self,
        alloc: Global,
        index: usize,
        kind: Kind,
        text: &[u8],
    ) -> Result<Looked, AllocError>
        requires { index ≤ length self.old.starts }
        ensures state { OnOk result (self.new ≡ record self.old {
          starts = remembered index (searched self.old.bytes (known index (sought_of kind text.now) self.old.starts)) self.old.starts;
        }) }
        ensures found { IfOk result (λ r. IsFound self.old.bytes (sought_of kind text.now) r.found) }
        ensures compared { IfOk result (λ r. r.compared ≡ compared_by self.old.bytes (known index (sought_of kind text.now) self.old.starts)) }
        ensures at_most { IfOk result (λ r. r.compared ≤ 2 * length self.old.bytes) }
        ensures err { OnErr result (self.new ≡ self.old) }
    {
        let bytes = &self.bytes[self.front..];
        let looked = self.starts.search_for(alloc, index, kind, text, bytes)?;
        Ok(looked)
    }

    /// Counts bytes that were compared.
    fn count(&mut self, compared: usize)
        ensures value { self.new ≡ record self.old { compared = counted (self.old.compared + compared) } }
        ensures only { HasCompared compared self.old self.new }
    {
        self.compared = self.compared.saturating_add(compared as u64);
    }

    /// Has an entry for a `-re` pattern, of which nothing is remembered.
    fn hold_regex(&mut self, alloc: Global, index: usize) -> Result<(), AllocError>
        requires { index ≤ length self.old.starts }
        ensures ok { OnOk result ((text : List ℕ) → self.new ≡ once_tried index (Pattern.Regex text) self.old) }
        ensures err { OnErr result (self.new ≡ self.old) }
        ensures only { HasCompared (2 * length self.old.bytes) self.old self.new }
    {
        self.look(alloc, index, Kind::Text, b"")?;
        Ok(())
    }

    /// Tries the `-re` pattern of an index.
    fn try_regex(
        &mut self,
        alloc: Global,
        index: usize,
        built: &Built,
    ) -> Result<Option<Found>, AllocError>
        requires { index ≤ length self.old.starts }
        ensures found { IfOk result (λ found. found ≡ regex_match built.now self.old.bytes) }
        ensures tried { OnOk result (self.new ≡ once_tried index (Pattern.Regex built.now) self.old) }
        ensures err { OnErr result (self.new ≡ self.old) }
        ensures only { HasCompared (2 * length self.old.bytes) self.old self.new }
    {
        let found = if self.lacks(alloc, index, built)? || self.excludes(built) {
            None
        } else {
            self.search(alloc, built)?
        };
        self.hold_regex(alloc, index)?;
        Ok(found)
    }

    /// The first match of a `-re` pattern, for which all bytes are searched.
    fn search(&mut self, alloc: Global, built: &Built) -> Result<Option<Found>, AllocError>
        ensures found { IfOk result (λ found. found ≡ regex_match built.now self.old.bytes) }
        ensures same { self.new ≡ self.old }
    {
        let found = first_match(alloc, built, self.as_slice())?;
        if found.is_none() {
            self.automata.note_vain(alloc, built.text());
        }
        Ok(found)
    }

    /// Whether the bytes lack what the `-re` pattern of an index needs, so that it has no match.
    fn lacks(&mut self, alloc: Global, index: usize, built: &Built) -> Result<bool, AllocError>
        ensures none { IfOk result (λ r. IsTrue r → regex_match built.now self.old.bytes ≡ None) }
        ensures same { self.new ≡ self.old }
    {
        let bytes = &self.bytes[self.front..];
        self.watch.lacks(alloc, bytes, index, built.needs())
    }

    /// Whether the automaton of a `-re` pattern tells that it has no match in the bytes.
    fn excludes(&mut self, built: &Built) -> bool
        ensures none { IsTrue result → regex_match built.now self.old.bytes ≡ None }
        ensures same { self.new ≡ self.old }
    {
        let bytes = &self.bytes[self.front..];
        self.automata.exclude(built.text(), bytes)
    }

    /// Takes the bytes up to the end of a hit out of the buffer and gives them. Where a growth is
    /// refused nothing is changed.
    pub fn take(&mut self, alloc: Global, hit: &Hit) -> Result<Bytes, AllocError>
        requires { hit.now.end ≤ length self.old.bytes }
        ensures taken { IfOk result (λ bytes. bytes ≡ take hit.now.end self.old.bytes) }
        ensures left { OnOk result (self.new ≡
            without_first hit.now.end self.old) }
        ensures err { OnErr result (self.new ≡ self.old) }
    {
        let taken = Bytes::from_slice(alloc, &self.as_slice()[..hit.end])?;
        self.cut(hit.end);
        Ok(taken)
    }

    /// Lets all bytes go. It takes no memory.
    pub fn clear(&mut self)
        ensures output { held_output self.new ≡ emptied (held_output self.old) }
        ensures value { self.new ≡ without_first (length self.old.bytes) self.old }
    {
        self.cut(self.as_slice().len());
    }

    /// Takes all bytes out of the buffer and gives them. It takes no memory.
    pub fn take_all(&mut self, alloc: Global) -> Bytes
        ensures taken { result ≡ self.old.bytes }
        ensures output { held_output self.new ≡ emptied (held_output self.old) }
        ensures value { self.new ≡ without_first (length self.old.bytes) self.old }
    {
        let len = self.as_slice().len();
        let mut bytes = mem::replace(&mut self.bytes, Vec::new(alloc));
        without_front(&mut bytes, self.front);
        self.front = 0;
        self.starts.cut(len);
        self.watch.cut(len);
        Bytes::from_vec(bytes)
    }

    /// Keeps at most so many bytes from now on, and of those here the last ones. It takes no memory.
    pub fn set_max(&mut self, max: usize)
        requires some { 1 ≤ max }
        ensures { self.new ≡
            with_last max (record self.old { max = max }) }
    {
        self.keep_last(max);
        self.max = max;
    }
}
