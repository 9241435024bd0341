//! Texts that are shared.
ghost use Rattle.std.specs.Prelude.{◌≡◌, ◌++◌, IfOk, OnOk, OnErr, length};
ghost use Rattle.std.specs.Arc.{arc_value};

use crate::few::Few;
use std::alloc::{AllocError, Global};
use std::marker::Model;
use std::sync::Arc;

/// How a text is held.
#[derive(Drop)]
pub(crate) enum Kept {
    /// A few bytes, held in the value itself, and where memory for more is from.
    Short(Few, Global),
    /// Bytes that are shared.
    Shared(Arc<Vec<u8>>),
}

/// A byte text. Sharing it is cheap: at most a few bytes are copied. A contract sees the bytes.
#[derive(Drop)]
pub struct Text {
    pub(crate) kept: Kept,
}

impl Model for Text {
    ghost use Rattle.std.specs.Prelude.{ℕ, List};
    ghost use Rattle.dg_bytes.specs.Forms.{bytes_kept};

    ghost Value = { List ℕ };

    ghost view = { λ t. bytes_kept t.kept };
}

impl Text {
    /// Takes the bytes of a vector.
    pub fn new(alloc: Global, bytes: Vec<u8>) -> Result<Text, AllocError>
        ensures { IfOk result (λ t. t ≡ bytes.items) }
    {
        let kept = match Few::of(bytes.as_slice()) {
            Some(few) => Kept::Short(few, alloc),
            None => Kept::Shared(Arc::new(alloc, bytes)?),
        };
        Ok(Text { kept })
    }

    /// Copies bytes.
    pub fn from_slice(alloc: Global, bytes: &[u8]) -> Result<Text, AllocError>
        ensures { IfOk result (λ t. t ≡ bytes.now) }
    {
        let kept = match Few::of(bytes) {
            Some(few) => Kept::Short(few, alloc),
            None => Kept::Shared(Arc::new(alloc, Vec::from_slice(alloc, bytes)?)?),
        };
        Ok(Text { kept })
    }

    /// The same text once more. Only few bytes are copied.
    pub fn share(&self) -> Result<Text, AllocError>
        ensures { IfOk result (λ t. t ≡ self.now) }
    {
        let kept = match &self.kept {
            Kept::Short(few, alloc) => Kept::Short(*few, *alloc),
            Kept::Shared(bytes) => Kept::Shared(Arc::try_clone(bytes)?),
        };
        Ok(Text { kept })
    }

    /// The bytes.
    pub fn as_slice(&self) -> &[u8]
        ensures { result.now ≡ self.now }
    {
        match &self.kept {
            Kept::Short(few, _) => few.as_slice(),
            Kept::Shared(bytes) => bytes.as_slice(),
        }
    }

    /// How many there are.
    pub fn len(&self) -> usize
        ensures { result ≡ length self.now }
    {
        self.as_slice().len()
    }
}

/// Adds bytes at the end, in place where they are held once, or changes nothing.
pub(crate) fn extend_shared(shared: &mut Arc<Vec<u8>>, more: &[u8]) -> Result<(), AllocError>
    ensures ok { OnOk result ((arc_value shared.new).items ≡ (arc_value shared.old).items ++ more.now) }
    ensures err { OnErr result ((arc_value shared.new).items ≡ (arc_value shared.old).items) }
{
    if let Some(own) = Arc::get_mut(shared) {
        return own.extend_from_slice(more);
    }
    let alloc = *shared.allocator();
    let mut copy = Vec::from_slice(alloc, shared.as_slice())?;
    copy.extend_from_slice(more)?;
    *shared = Arc::new(alloc, copy)?;
    Ok(())
}
