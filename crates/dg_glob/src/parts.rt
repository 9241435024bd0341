//! The parts of a glob (the items between its stars), and the search for them one after another.
ghost use Rattle.std.specs.Prelude.{◌≡◌, ◌≤◌, ◌<◌, ◌∷◌, ℕ, List, IfOk, IfSome, IfNone, false, length};
ghost use Rattle.dg_glob.specs.Glob as spec;
ghost use Rattle.dg_glob.specs.Glob.{IsSpan};
ghost use Rattle.dg_glob.specs.Rows.{begins_with_star};
ghost use Rattle.dg_glob.specs.Parts as word;
ghost use Rattle.dg_glob.specs.Parts.{Item, IsTrail, least_stand, parts_of, parts_within};
ghost use Rattle.dg_glob.specs.Reading.{AreParts, IsPart, IsRead, Steps, plain_front};

use crate::glob::{binds_start, body};
use crate::items::{after_item, closes_alike, is_plain, past_close};
use memchr::memmem::Finder;
use std::alloc::{AllocError, Global};
use std::marker::Model;

/// Whether a pattern begins with an item behind which the same is left whatever byte it takes.
fn begins_steadily(pattern: &[u8]) -> bool
    ensures { result ≡ word.begins_steadily pattern.now }
{
    match pattern.split_first() {
        None | Some((&b'*', _)) => false,
        Some((&b'[', rest)) => closes_alike(rest),
        Some(_) => true,
    }
}

/// The rest of a pattern after such an item.
fn behind_item(pattern: &[u8]) -> &[u8]
    ensures { result.now ≡ word.behind_item pattern.now }
{
    match pattern.split_first() {
        None => pattern,
        Some((&b'[', rest)) => past_close(rest),
        Some((&b'\\', rest)) => match rest.split_first() {
            None => rest,
            Some((_, behind)) => behind,
        },
        Some((_, rest)) => rest,
    }
}

/// The bytes at the front of a pattern that stand for themselves.
fn plain_run(pattern: &[u8]) -> &[u8]
    ensures value { result.now ≡ plain_front pattern.now }
    ensures within { length result.now ≤ length pattern.now }
{
    let mut count = 0;
    for byte in pattern {
        if !is_plain(*byte) {
            break;
        }
        count += 1;
    }
    &pattern[..count]
}

/// What was read of a part: how many items, the longest run of bytes that stand for themselves, how
/// many items stand before it, and what is left of the pattern.
#[derive(Clone, Copy)]
struct Reading<'a> {
    size: usize,
    lead: usize,
    run: &'a [u8],
    rest: &'a [u8],
}

/// Reads the first part of a pattern.
fn read_part(pattern: &[u8]) -> Reading<'_>
    ensures read { IsRead pattern.now result.size result.lead result.run.now result.rest.now }
    ensures ends { word.begins_steadily result.rest.now ≡ false }
{
    let mut size = 0;
    let mut lead = 0;
    let mut run = &pattern[..0];
    let mut rest = pattern;
    loop {
        let plain = plain_run(rest);
        if run.len() < plain.len() {
            lead = size;
            run = plain;
        }
        size += plain.len();
        rest = &rest[plain.len()..];
        if !begins_steadily(rest) {
            return Reading {
                size,
                lead,
                run,
                rest,
            };
        }
        size += 1;
        rest = behind_item(rest);
    }
}

/// Whether the items of a part take the bytes at the front of a text.
fn stands(pattern: &[u8], text: &[u8]) -> bool
    ensures { (items : List Item) (rest : List ℕ) → Steps pattern.now items rest → word.begins_steadily rest ≡ false →
        result ≡ word.stands items text.now }
{
    let mut pattern = pattern;
    let mut text = text;
    while begins_steadily(pattern) {
        let Some((&byte, later)) = text.split_first() else {
            return false;
        };
        let Some(after) = after_item(pattern, byte) else {
            return false;
        };
        pattern = after;
        text = later;
    }
    true
}

/// A part: where in its pattern it begins, how many items it has, and a run of bytes that some of
/// them stand for, with how many stand before it.
#[derive(Drop)]
struct Part {
    begin: usize,
    size: usize,
    lead: usize,
    run: Finder<'static>,
}

impl Part {
    /// The first place from a place on at which the part stands.
    fn place(&self, pattern: &[u8], text: &[u8], from: usize) -> Option<usize>
        ensures { (items : List Item) → IsPart pattern.now self.now items → result ≡ least_stand items text.now from }
    {
        let items = pattern.get(self.begin..)?;
        let mut place = from;
        loop {
            let rest = text.get(place..)?;
            if rest.len() < self.size {
                return None;
            }
            place += self.run.find(rest.get(self.lead..)?)?;
            if stands(items, text.get(place..)?) {
                return Some(place);
            }
            place += 1;
        }
    }
}

/// How far the search for the parts of a glob has come: how many of them are found, and the first
/// place at which the next may stand.
#[derive(Clone, Copy)]
pub struct Trail {
    pub found: usize,
    pub passed: usize,
}

/// A glob whose parts were read. A contract sees the glob.
#[derive(Drop)]
pub struct Parts {
    glob: Vec<u8>,
    body: Vec<u8>,
    parts: Vec<Part>,
}

impl Model for Parts {
    ghost use Rattle.std.specs.Prelude.{◌≡◌, ℕ, List};
    ghost use Rattle.dg_glob.specs.Glob as spec;
    ghost use Rattle.dg_glob.specs.Parts.{parts_of};
    ghost use Rattle.dg_glob.specs.Reading.{AreParts};

    ghost Value = { List ℕ };

    ghost view = { λ p. p.glob.items };

    ghost invariant = { λ p. (p.body.items ≡ spec.body p.glob.items) × AreParts p.body.items p.parts.items (parts_of p.glob.items) };
}

/// The rest of a pattern after a star at its front.
fn behind_star(pattern: &[u8]) -> Option<&[u8]>
    ensures some { IfSome result (λ behind. pattern.now ≡ 42 ∷ behind.now) }
    ensures none { IfNone result (begins_with_star pattern.now ≡ false) }
{
    match pattern.split_first() {
        Some((&b'*', behind)) => Some(behind),
        _ => None,
    }
}

/// Reads all parts of a pattern.
fn read_parts(alloc: Global, pattern: &[u8]) -> Result<Vec<Part>, AllocError>
    ensures { IfOk result (λ parts. AreParts pattern.now parts.items (parts_within (length pattern.now) pattern.now)) }
{
    let mut parts = Vec::new(alloc);
    let mut rest = pattern;
    loop {
        let reading = read_part(rest);
        parts.push(Part {
            begin: pattern.len() - rest.len(),
            size: reading.size,
            lead: reading.lead,
            run: Finder::new(reading.run).into_owned(alloc)?,
        })?;
        match behind_star(reading.rest) {
            Some(behind) => rest = behind,
            None => return Ok(parts),
        }
    }
}

/// Reads the parts of a glob.
fn read_glob(alloc: Global, glob: &[u8]) -> Result<Vec<Part>, AllocError>
    ensures { IfOk result (λ parts. AreParts (spec.body glob.now) parts.items (parts_of glob.now)) }
{
    if binds_start(glob) {
        return Ok(Vec::new(alloc));
    }
    let parts = read_parts(alloc, body(glob))?;
    Ok(parts)
}

impl Parts {
    /// Reads the parts of a glob.
    pub fn new(alloc: Global, glob: &[u8]) -> Result<Parts, AllocError>
        ensures { IfOk result (λ parts. parts ≡ glob.now) }
    {
        Ok(Parts {
            glob: Vec::from_slice(alloc, glob)?,
            body: Vec::from_slice(alloc, body(glob))?,
            parts: read_glob(alloc, glob)?,
        })
    }

    /// The glob. It takes no memory.
    pub fn glob(&self) -> &[u8]
        ensures { result.now ≡ self.now }
    {
        self.glob.as_slice()
    }

    /// How many parts there are. It takes no memory.
    pub fn count(&self) -> usize
        ensures { result ≡ length (parts_of self.now) }
    {
        self.parts.len()
    }

    /// Searches a text for the parts that are not found yet, each at the first place behind the one
    /// before. Where one isn't found the glob has no match. It takes no memory.
    pub fn follow(&self, text: &[u8], trail: Trail) -> Trail
        requires { IsTrail self.now trail.found text.now trail.passed }
        ensures value { (result.found, result.passed) ≡ word.followed self.now trail.found text.now trail.passed }
        ensures known { IsTrail self.now result.found text.now result.passed }
        ensures none { result.found < length (parts_of self.now) → (s e : ℕ) → IsSpan self.now text.now s e → ⊥ }
    {
        let mut found = trail.found;
        let mut passed = trail.passed;
        while let Some(part) = self.parts.get(found) {
            match part.place(self.body.as_slice(), text, passed) {
                Some(place) => {
                    found += 1;
                    passed = place + part.size;
                }
                None => {
                    let fits = text.len().saturating_add(1).saturating_sub(part.size);
                    return Trail {
                        found,
                        passed: passed.max(fits),
                    };
                }
            }
        }
        Trail { found, passed }
    }
}
