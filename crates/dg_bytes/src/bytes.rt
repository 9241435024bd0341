//! Byte texts: the values of the script language, names, messages and reports.
ghost use Rattle.std.specs.Prelude.{◌≡◌, ◌++◌, ◌∷◌, [], ◌==◌, length, refl, Some, IfOk, IfSome, OnOk, OnErr, IsTrue, ◌↔◌, nat_eq};
ghost use Rattle.std.specs.Arc.{arc_value};
ghost use Rattle.dg_bytes.specs.Canonical.{text_of_list};
ghost use Rattle.dg_bytes.specs.Growth.{Grows};
ghost use Rattle.std.specs.Ordering.{nat_cmp};
ghost use Rattle.std.specs.Cmp.Lexicographic.{pointwise, slice_cmp, nat_list_eq_equiv, nat_list_cmp_total, texts_ties, texts_po};
ghost use Rattle.std.specs.Cmp.{partial_equiv_from_equiv};
ghost use Rattle.std.specs.Cmp.Rules.{hashing};
ghost use Rattle.std.proofs.Common.{rules};

use crate::few::Few;
use crate::listed::Listed;
use crate::order::{is_same, order};
use crate::text::{Kept, Text, extend_shared};
use std::alloc::{AllocError, Global};
use std::cmp::Ordering;
use std::convert::AsSlice;
use std::hash::{Hash, Hasher};
use std::marker::Model;
use std::sync::Arc;
use std::{fmt, mem};

/// How the bytes are held.
#[derive(Drop)]
enum Form {
    /// A few bytes, held in the value itself, and where memory for more is from.
    Short(Few, Global),
    /// Bytes that are held here alone.
    Own(Vec<u8>),
    /// Bytes that are shared.
    Once(Arc<Vec<u8>>),
    /// The canonical text of a list whose elements are kept beside it, shared.
    Listed(Arc<Listed>),
}

/// The outcome of growing bytes as a list.
#[derive(Clone, Copy, Drop)]
pub enum Growth {
    /// They have grown.
    Done,
    /// They would have had too many bytes.
    TooLong,
    /// No elements are kept beside them.
    Unlisted,
}

/// Bytes, which may be shared. A contract sees the list of them, each below 256.
pub struct Bytes {
    form: Form,
}

impl Drop for Bytes {
    fn drop(self) {
        let Bytes { form: _ } = self;
    }
}

impl Model for Bytes {
    ghost use Rattle.std.specs.Prelude.{ℕ, List};

    ghost Value = { List ℕ };

    ghost use Rattle.dg_bytes.specs.Forms.{bytes_in};

    ghost view = { λ b. bytes_in b.form };
}

impl Bytes {
    /// No bytes.
    pub fn new(alloc: Global) -> Bytes
        ensures { result ≡ [] }
    {
        Bytes::from_vec(Vec::new(alloc))
    }

    /// Takes the bytes of a vector.
    pub fn from_vec(bytes: Vec<u8>) -> Bytes
        ensures { result ≡ bytes.items }
    {
        Bytes {
            form: Form::Own(bytes),
        }
    }

    /// Copies bytes.
    pub fn from_slice(alloc: Global, bytes: &[u8]) -> Result<Bytes, AllocError>
        ensures { IfOk result (λ b. b ≡ bytes.now) }
    {
        let form = match Few::of(bytes) {
            Some(few) => Form::Short(few, alloc),
            None => Form::Own(Vec::from_slice(alloc, bytes)?),
        };
        Ok(Bytes { form })
    }

    /// The bytes as a vector.
    pub fn into_vec(self) -> Result<Vec<u8>, AllocError>
        ensures { IfOk result (λ v. v.items ≡ self) }
    {
        let Bytes { form } = self;
        match form {
            Form::Short(few, alloc) => Vec::from_slice(alloc, few.as_slice()),
            Form::Own(bytes) => Ok(bytes),
            Form::Once(shared) => Vec::from_slice(*shared.allocator(), shared.as_slice()),
            Form::Listed(list) => Vec::from_slice(list.allocator(), list.as_slice()),
        }
    }

    /// Takes a text, which stays shared.
    pub fn from_text(text: Text) -> Bytes
        ensures { result ≡ text }
    {
        let Text { kept } = text;
        let form = match kept {
            Kept::Short(few, alloc) => Form::Short(few, alloc),
            Kept::Shared(bytes) => Form::Once(bytes),
        };
        Bytes { form }
    }

    /// The bytes as a text. Bytes that are kept aren't copied.
    pub fn to_text(&self, alloc: Global) -> Result<Text, AllocError>
        ensures { IfOk result (λ t. t ≡ self.now) }
    {
        match &self.form {
            Form::Short(few, _) => Ok(Text {
                kept: Kept::Short(*few, alloc),
            }),
            Form::Own(bytes) => Text::from_slice(alloc, bytes.as_slice()),
            Form::Once(shared) => Ok(Text {
                kept: Kept::Shared(Arc::try_clone(shared)?),
            }),
            Form::Listed(list) => Text::from_slice(alloc, list.as_slice()),
        }
    }

    /// The canonical text of a list, with the elements kept beside it.
    pub fn from_list(alloc: Global, elements: &[Bytes]) -> Result<Bytes, AllocError>
        ensures { IfOk result (λ b. b ≡ text_of_list elements.now) }
    {
        let list = Listed::new(alloc, texts_of(alloc, elements)?)?;
        Ok(Bytes {
            form: Form::Listed(Arc::new(alloc, list)?),
        })
    }

    /// The elements of the list whose canonical text this is, where they are kept beside it.
    pub fn elements(&self) -> Option<&[Text]>
        ensures { IfSome result (λ e. self.now ≡ text_of_list e.now) }
    {
        match &self.form {
            Form::Listed(list) => Some(list.elements()),
            _ => None,
        }
    }

    /// Where elements are kept beside the bytes, adds more at their end, in place where they are held once,
    /// if the canonical text has at most so many bytes then. It isn't made if not.
    pub fn extend_list(
        &mut self,
        alloc: Global,
        more: &[Bytes],
        longest: usize,
    ) -> Result<Growth, AllocError>
        ensures ok { IfOk result (λ growth. Grows growth self.old more.now longest self.new) }
        ensures err { OnErr result (self.new ≡ self.old) }
    {
        match &mut self.form {
            Form::Listed(list) => {
                let more = texts_of(alloc, more)?;
                if !list.fits_with(more.as_slice(), longest) {
                    return Ok(Growth::TooLong);
                }
                grow(alloc, list, more)?;
                Ok(Growth::Done)
            }
            _ => Ok(Growth::Unlisted),
        }
    }

    /// Shared from now on: cloning is cheap.
    pub fn keep(&mut self, alloc: Global) -> Result<(), AllocError>
        ensures { OnOk result (self.new ≡ self.old) }
    {
        if let Form::Own(bytes) = &mut self.form {
            let bytes = mem::replace(bytes, Vec::new(alloc));
            *self = Bytes::from_text(Text::new(alloc, bytes)?);
        }
        Ok(())
    }

    /// The same bytes once more. Bytes that are kept aren't copied.
    pub fn share(&self, alloc: Global) -> Result<Bytes, AllocError>
        ensures { IfOk result (λ b. b ≡ self.now) }
    {
        match &self.form {
            Form::Short(few, _) => Ok(Bytes {
                form: Form::Short(*few, alloc),
            }),
            Form::Own(bytes) => Bytes::from_slice(alloc, bytes.as_slice()),
            Form::Once(shared) => Ok(Bytes {
                form: Form::Once(Arc::try_clone(shared)?),
            }),
            Form::Listed(list) => Ok(Bytes {
                form: Form::Listed(Arc::try_clone(list)?),
            }),
        }
    }

    /// The bytes as a slice.
    #[inline(always)]
    pub fn as_slice(&self) -> &[u8]
        ensures { result.now ≡ self.now }
    {
        match &self.form {
            Form::Short(few, _) => few.as_slice(),
            Form::Own(bytes) => bytes.as_slice(),
            Form::Once(shared) => shared.as_slice(),
            Form::Listed(list) => list.as_slice(),
        }
    }

    /// How many there are.
    pub fn len(&self) -> usize
        ensures { result ≡ length self.now }
    {
        self.as_slice().len()
    }

    /// Whether there are none.
    pub fn is_empty(&self) -> bool
        ensures { result ≡ (length self.now == 0) }
    {
        self.as_slice().len() == 0
    }

    /// Whether these are the same bytes.
    pub fn is(&self, bytes: &[u8]) -> bool
        ensures { IsTrue result ↔ (self.now ≡ bytes.now) }
    {
        is_same(self.as_slice(), bytes)
    }

    /// Adds a byte at the end, or changes nothing.
    pub fn push(&mut self, byte: u8) -> Result<(), AllocError>
        ensures ok { OnOk result (self.new ≡ self.old ++ byte ∷ []) }
        ensures err { OnErr result (self.new ≡ self.old) }
    {
        self.extend(&[byte])
    }

    /// Adds bytes at the end, or changes nothing.
    pub fn extend(&mut self, bytes: &[u8]) -> Result<(), AllocError>
        ensures ok { OnOk result (self.new ≡ self.old ++ bytes.now) }
        ensures err { OnErr result (self.new ≡ self.old) }
    {
        match &mut self.form {
            Form::Short(few, alloc) => {
                if let Some(more) = few.with(bytes) {
                    *few = more;
                    return Ok(());
                }
                let mut own = Vec::from_slice(*alloc, few.as_slice())?;
                own.extend_from_slice(bytes)?;
                self.form = Form::Once(Arc::new(*alloc, own)?);
                Ok(())
            }
            Form::Own(own) => own.extend_from_slice(bytes),
            Form::Once(shared) => extend_shared(shared, bytes),
            Form::Listed(list) => {
                let alloc = list.allocator();
                let mut copy = Vec::from_slice(alloc, list.as_slice())?;
                copy.extend_from_slice(bytes)?;
                self.form = Form::Once(Arc::new(alloc, copy)?);
                Ok(())
            }
        }
    }

    /// Lets all bytes go.
    pub fn clear(&mut self)
        ensures { self.new ≡ [] }
    {
        match &mut self.form {
            Form::Short(_, alloc) => *self = Bytes::new(*alloc),
            Form::Own(own) => own.clear(),
            Form::Once(shared) => *self = Bytes::new(*shared.allocator()),
            Form::Listed(list) => *self = Bytes::new(list.allocator()),
        }
    }
}

/// Each of these as a text.
fn texts_of(alloc: Global, elements: &[Bytes]) -> Result<Vec<Text>, AllocError>
    ensures { IfOk result (λ v. v.items ≡ elements.now) }
{
    let mut texts = Vec::with_capacity(alloc, elements.len())?;
    for element in elements {
        texts.push(element.to_text(alloc)?)?;
    }
    Ok(texts)
}

/// Adds elements at the end, in place where the list is held once, or changes nothing.
fn grow(alloc: Global, list: &mut Arc<Listed>, more: Vec<Text>) -> Result<(), AllocError>
    ensures ok { OnOk result (arc_value list.new ≡ arc_value list.old ++ more.items) }
    ensures err { OnErr result (arc_value list.new ≡ arc_value list.old) }
{
    if let Some(own) = Arc::get_mut(list) {
        return own.extend(alloc, more);
    }
    let mut copy = list.copy(alloc)?;
    copy.extend(alloc, more)?;
    *list = Arc::new(alloc, copy)?;
    Ok(())
}

impl AsSlice<u8> for Bytes {
    ghost items = { λ b. b };

    fn as_slice(&self) -> &[u8] {
        self.as_slice()
    }
}

impl Clone for Bytes {
    ghost is_clone = { λ b copy. copy ≡ b };

    fn clone(&self) -> Result<Bytes, AllocError> {
        match &self.form {
            Form::Short(_, alloc) => self.share(*alloc),
            Form::Own(bytes) => self.share(*bytes.allocator()),
            Form::Once(shared) => self.share(*shared.allocator()),
            Form::Listed(list) => self.share(list.allocator()),
        }
    }
}

impl PartialEq for Bytes {
    ghost eq = { pointwise nat_eq };

    ghost laws = { partial_equiv_from_equiv nat_list_eq_equiv };

    fn eq(&self, other: &Bytes) -> bool {
        is_same(self.as_slice(), other.as_slice())
    }
}

impl Eq for Bytes {
    ghost laws = { nat_list_eq_equiv };
}

impl PartialOrd for Bytes {
    ghost partial_cmp = { λ x y. Some (slice_cmp nat_cmp x y) };

    ghost laws = { texts_po };

    fn partial_cmp(&self, other: &Bytes) -> Option<Ordering> {
        Some(self.cmp(other))
    }
}

impl Ord for Bytes {
    ghost cmp = { slice_cmp nat_cmp };

    ghost total = { nat_list_cmp_total };

    ghost matches_partial_cmp = { λ x y. refl };

    ghost matches_eq = { texts_ties };

    fn cmp(&self, other: &Bytes) -> Ordering {
        order(self.as_slice(), other.as_slice())
    }
}

impl Hash for Bytes {
    ghost hash_input = { λ b. b ∷ [] };

    ghost respects_eq = { Prim.search (hashing, rules) };

    fn hash<H: Hasher>(&self, state: &mut H) {
        state.write(self.as_slice());
    }
}

impl fmt::Debug for Bytes {
    fn fmt<W: fmt::Write>(&self, f: &mut fmt::Formatter<W>) -> fmt::Result {
        write!(f, "{:?}", self.as_slice())
    }
}
