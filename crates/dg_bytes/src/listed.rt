//! Lists with their canonical text beside them.
ghost use Rattle.std.specs.Prelude.{◌≡◌, ◌++◌, IfOk, OnOk, OnErr, length, nat_le};
ghost use Rattle.dg_bytes.specs.Added.{added};
ghost use Rattle.dg_bytes.specs.Canonical.{text_of_list};

use crate::canonical::{further, whole};
use crate::measure::{behind_further, behind_list};
use crate::text::Text;
use std::alloc::{AllocError, Global};
use std::marker::Model;

/// A list with its canonical text beside it. A contract sees the elements.
#[derive(Drop)]
pub struct Listed {
    text: Vec<u8>,
    elements: Vec<Text>,
}

impl Model for Listed {
    ghost use Rattle.std.specs.Prelude.{◌≡◌, ℕ, List};
    ghost use Rattle.dg_bytes.specs.Canonical.{text_of_list};

    ghost Value = { List (List ℕ) };

    ghost view = { λ l. l.elements.items };

    ghost invariant = { λ l. l.text.items ≡ text_of_list l.elements.items };
}

impl Listed {
    /// A list of these elements.
    pub(crate) fn new(alloc: Global, elements: Vec<Text>) -> Result<Listed, AllocError>
        ensures { IfOk result (λ l. l ≡ elements.items) }
    {
        let text = whole(alloc, elements.as_slice())?;
        Ok(Listed { text, elements })
    }

    /// The canonical text.
    pub(crate) fn as_slice(&self) -> &[u8]
        ensures { result.now ≡ text_of_list self.now }
    {
        self.text.as_slice()
    }

    /// Where its memory is from.
    pub(crate) fn allocator(&self) -> Global {
        *self.text.allocator()
    }

    /// The elements.
    pub(crate) fn elements(&self) -> &[Text]
        ensures { result.now ≡ self.now }
    {
        self.elements.as_slice()
    }

    /// The bytes that more elements add to the canonical text.
    #[tactic(auto, using(crate::proofs::Growing::empty_if))]
    fn added(&self, alloc: Global, more: &[Text]) -> Result<Vec<u8>, AllocError>
        ensures { IfOk result (λ text. text.items ≡ added self.now more.now) }
    {
        if self.elements.is_empty() {
            whole(alloc, more)
        } else {
            further(alloc, more)
        }
    }

    /// Whether the canonical text with more elements has at most so many bytes.
    #[tactic(auto, using(crate::proofs::Growing::length_grows, crate::proofs::Growing::empty_if))]
    pub(crate) fn fits_with(&self, more: &[Text], longest: usize) -> bool
        ensures { result ≡ nat_le (length (text_of_list (self.now ++ more.now))) longest }
    {
        let Some(room) = longest.checked_sub(self.text.len()) else {
            return false;
        };
        if self.elements.is_empty() {
            behind_list(room, more).is_some()
        } else {
            behind_further(room, more).is_some()
        }
    }

    /// The same list once more, with no copy of its elements.
    pub(crate) fn copy(&self, alloc: Global) -> Result<Listed, AllocError>
        ensures { IfOk result (λ l. l ≡ self.now) }
    {
        let text = Vec::from_slice(alloc, self.text.as_slice())?;
        let elements = share_each(alloc, self.elements.as_slice())?;
        Ok(Listed { text, elements })
    }

    /// Adds elements at the end, or changes nothing.
    #[tactic(auto, using(crate::proofs::Growing::text_grows))]
    pub(crate) fn extend(&mut self, alloc: Global, mut more: Vec<Text>) -> Result<(), AllocError>
        ensures ok { OnOk result (self.new ≡ self.old ++ more.items) }
        ensures err { OnErr result (self.new ≡ self.old) }
    {
        let text = self.added(alloc, more.as_slice())?;
        let count = self.elements.len();
        self.elements.append(&mut more)?;
        match self.text.extend_from_slice(text.as_slice()) {
            Ok(()) => Ok(()),
            Err(refused) => {
                self.elements.truncate(count);
                Err(refused)
            }
        }
    }
}

/// The same texts once more.
pub(crate) fn share_each(alloc: Global, texts: &[Text]) -> Result<Vec<Text>, AllocError>
    ensures { IfOk result (λ v. v.items ≡ texts.now) }
{
    let mut shared = Vec::with_capacity(alloc, texts.len())?;
    for text in texts {
        shared.push(text.share()?)?;
    }
    Ok(shared)
}
