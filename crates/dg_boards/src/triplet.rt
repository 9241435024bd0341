//! Triplets, which name a machine by its processor, its maker and its system.
ghost use Rattle.std.specs.Prelude.{◌≡◌, ◌↔◌, Err, IfOk, OnOk, IsTrue, true, false, nat_eq, count_by, ◌==◌};
ghost use Rattle.std.specs.Cmp.Lexicographic.{pointwise, nat_list_eq_equiv};
ghost use Rattle.std.specs.Cmp.{partial_equiv_from_equiv};
ghost use Rattle.dg_boards.specs.Triplet as word;
ghost use Rattle.dg_glob.specs.Glob.{Matches};

use crate::fault::TripletFault;
use dg_bytes::{Bytes, TryCopy, are_portable};
use dg_glob::string_match;
use std::alloc::{AllocError, Global};
use std::fmt;
use std::marker::Model;

/// How many bytes are `-`.
fn dashes(text: &[u8]) -> usize
    ensures { result ≡ count_by (λ b. b == 45) text.now }
{
    text.iter().filter(|byte| **byte == b'-').count()
}

/// Whether the text is a triplet.
fn is_triplet(text: &[u8]) -> bool
    ensures { result ≡ word.is_triplet text.now }
{
    !text.is_empty() && text.len() <= 255 && are_portable(text) && dashes(text) >= 2
}

/// The triplet of a machine, as `x86_64-pc-linux-gnu` (the DejaGnu manual, "Config names"): 1 to 255
/// letters, digits and bytes of `._+-`, of which at least two are `-`. A contract sees its bytes.
pub struct Triplet {
    text: Bytes,
}

impl Drop for Triplet {
    fn drop(self) {
        let Triplet { text: _ } = self;
    }
}

impl Model for Triplet {
    ghost use Rattle.std.specs.Prelude.{ℕ, List, true, ◌≡◌};
    ghost use Rattle.dg_boards.specs.Triplet as word;

    ghost Value = { List ℕ };

    ghost view = { λ t. t.text };

    ghost invariant = { λ t. word.is_triplet t.text ≡ true };
}

impl Triplet {
    /// The triplet with these bytes; `Bad` exactly where they are none.
    pub fn new(alloc: Global, text: &[u8]) -> Result<Triplet, TripletFault>
        ensures value { IfOk result (λ t. t ≡ text.now) }
        ensures ok { OnOk result (word.is_triplet text.now ≡ true) }
        ensures bad { (result ≡ Err TripletFault.Bad) ↔ (word.is_triplet text.now ≡ false) }
    {
        if !is_triplet(text) {
            return Err(TripletFault::Bad);
        }
        Ok(Triplet {
            text: Bytes::from_slice(alloc, text)?,
        })
    }

    /// The triplet's bytes.
    pub fn as_slice(&self) -> &[u8]
        ensures value { result.now ≡ self.now }
        ensures triplet { word.is_triplet self.now ≡ true }
    {
        self.text.as_slice()
    }
}

impl TryCopy for Triplet {
    fn copy(&self, alloc: Global) -> Result<Triplet, AllocError> {
        Ok(Triplet {
            text: self.text.copy(alloc)?,
        })
    }
}

impl PartialEq for Triplet {
    ghost eq = { pointwise nat_eq };

    ghost laws = { partial_equiv_from_equiv nat_list_eq_equiv };

    fn eq(&self, other: &Triplet) -> bool {
        self.text == other.text
    }
}

impl Eq for Triplet {
    ghost laws = { nat_list_eq_equiv };
}

impl fmt::Debug for Triplet {
    fn fmt<W: fmt::Write>(&self, f: &mut fmt::Formatter<W>) -> fmt::Result {
        write!(f, "{:?}", self.text)
    }
}

/// Whether the pattern matches the triplet, as `string match` of Tcl(n) does. It takes no memory.
pub fn matches_config(pattern: &[u8], triplet: &Triplet) -> bool
    ensures { IsTrue result ↔ Matches pattern.now triplet.now }
{
    string_match(pattern, triplet.as_slice())
}
