//! Contents by number: equal ones have equal numbers, and different ones different numbers, as long as they are held.
ghost use Rattle.std.specs.Prelude.{◌≡◌, ◌+◌, ◌-◌, ◌<◌, ◌≤◌, ◌^◌, [], Some, None, IfOk, IfSome, IfNone, IsSome, OnOk, OnErr};
ghost use Rattle.dg_contents.specs.Contents.{holders_of, next_after, number_for, number_of, HasOneFewer, HasOneMore, IsNumbering, KeepsHeldNumbers, KeepsNumbers};

use crate::hasher::EndHasher;
use dg_bytes::{Bytes, TryCopy};
use indexmap::IndexMap;
use std::alloc::{AllocError, Global};
use std::hash::BuildHasherDefault;
use std::marker::Model;

/// How a content is held: its number, and by how many.
#[derive(Clone, Copy)]
struct Holding {
    number: u64,
    holders: u64,
}

impl Holding {
    /// The same number with one holder more, unless they can't be counted.
    fn with_one_more(self) -> Result<Holding, AllocError>
        ensures ok { IfOk result (λ h. h ≡ record self { holders = self.holders + 1 }) }
        ensures full { OnErr result (2 ^ 64 ≤ self.holders + 1) }
    {
        match self.holders.checked_add(1) {
            Some(holders) => Ok(Holding {
                number: self.number,
                holders,
            }),
            None => Err(AllocError),
        }
    }

    /// The same number with one holder fewer, if any is left.
    fn with_one_fewer(self) -> Option<Holding>
        ensures left { IfSome result (λ h. (h ≡ record self { holders = self.holders - 1 }) × (1 < self.holders)) }
        ensures none { IfNone result (self.holders ≤ 1) }
    {
        if self.holders <= 1 {
            return None;
        }
        Some(Holding {
            number: self.number,
            holders: self.holders - 1,
        })
    }
}

/// Contents, each with a number for as long as somebody holds it. Whoever holds two numbers compares these and not what
/// they stand for. A number isn't given twice.
pub struct Contents {
    held: IndexMap<Bytes, Holding, BuildHasherDefault<EndHasher>>,
    next: u64,
}

/// Written by hand, and so one call for whoever lets it go.
impl Drop for Contents {
    fn drop(self) {
        let Contents { held: _, next: _ } = self;
    }
}

impl Model for Contents {
    ghost use Rattle.dg_contents.specs.Contents.{ContentsView, IsNumbering};

    ghost Value = { ContentsView };

    ghost view = { λ c. record { held = c.held.entries; next = c.next } };

    ghost invariant = { λ c. IsNumbering (record { held = c.held.entries; next = c.next }) };
}

impl Contents {
    /// No contents.
    pub fn new(alloc: Global) -> Contents
        ensures empty { result ≡ record { held = []; next = 0 } }
        ensures numbering { IsNumbering result }
    {
        Contents {
            held: IndexMap::with_hasher(alloc, BuildHasherDefault::new()),
            next: 0,
        }
    }

    /// The number of a content, if it is held.
    pub fn find(&self, content: &Bytes) -> Option<u64>
        ensures value { result ≡ number_of self.now content.now }
        ensures numbering { IsNumbering self.now }
    {
        match self.held.get(content) {
            Some(holding) => Some(holding.number),
            None => None,
        }
    }

    /// Holds a content once more and gives its number, or changes nothing. A content that is held already takes no memory,
    /// and is refused only where its holders can't be counted.
    pub fn hold(&mut self, alloc: Global, content: &Bytes) -> Result<u64, AllocError>
        ensures ok { IfOk result (λ n. number_of self.new content.now ≡ Some n) }
        ensures which { IfOk result (λ n. n ≡ number_for self.old content.now) }
        ensures next { OnOk result (self.new.next ≡ next_after self.old content.now) }
        ensures more { OnOk result (HasOneMore content.now self.old self.new) }
        ensures stays { KeepsNumbers self.old self.new }
        ensures err { OnErr result (self.new ≡ self.old) }
        ensures full { OnErr result (IsSome (number_of self.old content.now) → 2 ^ 64 ≤ holders_of self.old content.now + 1) }
        ensures numbering { IsNumbering self.new }
    {
        match self.held.get_mut(content) {
            Some(holding) => {
                *holding = holding.with_one_more()?;
                Ok(holding.number)
            }
            None => self.hold_new(alloc, content),
        }
    }

    /// Holds a content that nobody held under the next number, or changes nothing.
    fn hold_new(&mut self, alloc: Global, content: &Bytes) -> Result<u64, AllocError>
        requires { number_of self.old content.now ≡ None }
        ensures ok { IfOk result (λ n. number_of self.new content.now ≡ Some n) }
        ensures which { IfOk result (λ n. n ≡ self.old.next) }
        ensures next { OnOk result (self.new.next ≡ self.old.next + 1) }
        ensures more { OnOk result (HasOneMore content.now self.old self.new) }
        ensures stays { KeepsNumbers self.old self.new }
        ensures err { OnErr result (self.new ≡ self.old) }
        ensures numbering { IsNumbering self.new }
    {
        let number = self.next;
        let Some(next) = number.checked_add(1) else {
            return Err(AllocError);
        };
        let content = content.copy(alloc)?;
        if self
            .held
            .insert(content, Holding { number, holders: 1 })
            .is_err()
        {
            return Err(AllocError);
        }
        self.next = next;
        Ok(number)
    }

    /// Lets one holder of a content go, if it has any. With its last it is forgotten. It takes no memory.
    pub fn release(&mut self, content: &Bytes)
        ensures fewer { HasOneFewer content.now self.old self.new }
        ensures stays { KeepsHeldNumbers self.old self.new }
        ensures next { self.new.next ≡ self.old.next }
        ensures unheld { number_of self.old content.now ≡ None → self.new ≡ self.old }
        ensures numbering { IsNumbering self.new }
    {
        let Some(holding) = self.held.get_mut(content) else {
            return;
        };
        match holding.with_one_fewer() {
            Some(left) => *holding = left,
            None => {
                self.held.swap_remove(content);
            }
        }
    }
}
