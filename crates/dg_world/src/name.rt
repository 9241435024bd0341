//! Names of files.
ghost use Rattle.std.specs.Prelude.{◌≡◌, ◌==◌, ◌∷◌, [], refl, Some, false, IfOk, IfErr, IsTrue, ◌↔◌, ◌⊎◌, nat_eq};
ghost use Rattle.std.specs.Ordering.{nat_cmp};
ghost use Rattle.std.specs.Cmp.Lexicographic.{pointwise, slice_cmp, nat_list_eq_equiv, nat_list_cmp_total, texts_ties, texts_po};
ghost use Rattle.std.specs.Cmp.{partial_equiv_from_equiv};
ghost use Rattle.std.specs.Cmp.Rules.{hashing};
ghost use Rattle.std.proofs.Common.{rules};
ghost use Rattle.dg_world.specs.Name.{is_name, is_single_part, is_part, parts_of};
ghost use Rattle.std.specs.List.{list_all};

use crate::refusal::Refusal;
use dg_bytes::{Bytes, TryCopy, are_portable};
use std::alloc::{AllocError, Global};
use std::cmp::Ordering;
use std::fmt;
use std::hash::{Hash, Hasher};
use std::marker::Model;

/// A name: 1 to 255 bytes, parts joined by single `/`. A part is one or more of
/// `A-Z a-z 0-9 . _ + -`, and neither `.` nor `..`.
pub struct Name {
    bytes: Bytes,
}

impl Drop for Name {
    fn drop(self) {
        let Name { bytes: _ } = self;
    }
}

impl Model for Name {
    ghost use Rattle.std.specs.Prelude.{ℕ, List, IsTrue};
    ghost use Rattle.dg_world.specs.Name.{is_name};

    ghost Value = { List ℕ };

    ghost view = { λ n. n.bytes };

    ghost invariant = { λ n. IsTrue (is_name n.bytes) };
}

impl Name {
    /// A name of these bytes. `BadName` if they are none, `Memory` if there is no room for them.
    pub fn new(alloc: Global, bytes: &[u8]) -> Result<Name, Refusal>
        ensures ok { IfOk result (λ n. n ≡ bytes.now) }
        ensures bad { (result ≡ Err Refusal.BadName) ↔ (is_name bytes.now ≡ false) }
        ensures which { IfErr result (λ r. (r ≡ Refusal.BadName) ⊎ (r ≡ Refusal.Memory)) }
    {
        if !is_name(bytes) {
            return Err(Refusal::BadName);
        }
        Ok(Name::from_valid(Bytes::from_slice(alloc, bytes)?))
    }

    /// The name of bytes that are one.
    pub fn from_valid(bytes: Bytes) -> Name
        requires { IsTrue (is_name bytes) }
        ensures { result ≡ bytes }
    {
        Name { bytes }
    }

    /// The bytes.
    pub fn as_slice(&self) -> &[u8]
        ensures bytes { result.now ≡ self.now }
        ensures is_name { IsTrue (is_name result.now) }
    {
        self.bytes.as_slice()
    }

    /// The same name, of which a copy costs no copy of the bytes.
    pub(crate) fn kept(self, alloc: Global) -> Result<Name, AllocError>
        ensures { IfOk result (λ n. n ≡ self) }
    {
        let Name { mut bytes } = self;
        bytes.keep(alloc)?;
        Ok(Name { bytes })
    }

    /// An equal name, or want of memory.
    pub fn copy(&self, alloc: Global) -> Result<Name, AllocError>
        ensures { IfOk result (λ n. n ≡ self.now) }
    {
        Ok(Name {
            bytes: self.bytes.copy(alloc)?,
        })
    }
}

/// Whether these bytes are a name. It reads each byte once.
#[tactic(auto, unfolding(crate::specs::Name::is_name))]
pub fn is_name(bytes: &[u8]) -> bool
    ensures { result ≡ is_name bytes.now }
{
    bytes.len() <= 255 && are_parts(bytes)
}

/// Whether what stands between the slashes are parts.
fn are_parts(bytes: &[u8]) -> bool
    ensures { result ≡ list_all is_part (parts_of bytes.now) }
{
    bytes.split(|b| *b == b'/').all(|part| is_part(part))
}

/// Whether these bytes are a board or a tool: one part of at most 64 bytes.
#[tactic(auto, unfolding(crate::specs::Name::is_single_part))]
pub fn is_single_part(bytes: &[u8]) -> bool
    ensures { result ≡ is_single_part bytes.now }
{
    bytes.len() <= 64 && is_part(bytes)
}

/// Whether these bytes are a part of a name.
fn is_part(part: &[u8]) -> bool
    ensures { result ≡ is_part part.now }
{
    if part.is_empty() {
        return false;
    }
    if part == b".".as_slice() {
        return false;
    }
    if part == b"..".as_slice() {
        return false;
    }
    are_portable(part)
}

impl PartialEq for Name {
    ghost eq = { pointwise nat_eq };

    ghost laws = { partial_equiv_from_equiv nat_list_eq_equiv };

    fn eq(&self, other: &Name) -> bool {
        self.bytes == other.bytes
    }
}

impl Eq for Name {
    ghost laws = { nat_list_eq_equiv };
}

impl PartialOrd for Name {
    ghost partial_cmp = { λ x y. Some (slice_cmp nat_cmp x y) };

    ghost laws = { texts_po };

    fn partial_cmp(&self, other: &Name) -> Option<Ordering> {
        Some(self.cmp(other))
    }
}

impl Ord for Name {
    ghost cmp = { slice_cmp nat_cmp };

    ghost total = { nat_list_cmp_total };

    ghost matches_partial_cmp = { λ x y. refl };

    ghost matches_eq = { texts_ties };

    fn cmp(&self, other: &Name) -> Ordering {
        self.bytes.cmp(&other.bytes)
    }
}

impl Hash for Name {
    ghost hash_input = { λ n. n ∷ [] };

    ghost respects_eq = { Prim.search (hashing, rules) };

    fn hash<H: Hasher>(&self, state: &mut H) {
        self.bytes.hash(state);
    }
}

impl fmt::Debug for Name {
    fn fmt<W: fmt::Write>(&self, f: &mut fmt::Formatter<W>) -> fmt::Result {
        self.bytes.fmt(f)
    }
}
