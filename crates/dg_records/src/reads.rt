//! What was read in judging a test, which records that are copies of one another share.
ghost use Rattle.std.specs.Prelude.{◌≡◌, IfOk};

use dg_bytes::{Seq, TryCopy};
use dg_world::Read;
use std::alloc::{AllocError, Global};
use std::marker::Model;
use std::sync::Arc;

/// What is kept of reads.
#[derive(Drop)]
enum Form {
    /// Reads that are held here alone.
    Own(Seq<Read>),
    /// Reads that are shared.
    Shared(Arc<Seq<Read>>),
}

/// Reads in order, which may be shared. A contract sees the list of them.
pub(crate) struct Reads {
    form: Form,
}

impl Drop for Reads {
    fn drop(self) {
        let Reads { form: _ } = self;
    }
}

impl Model for Reads {
    ghost use Rattle.std.specs.Prelude.{List};
    ghost use Rattle.dg_world.specs.declared.question.Read.{Read as ARead};
    ghost use Rattle.dg_records.specs.Reads.{reads_in};

    ghost Value = { List ARead };

    ghost view = { λ r. reads_in r.form };
}

impl Reads {
    /// Reads that are held once.
    pub(crate) fn new(reads: Seq<Read>) -> Reads
        ensures { result ≡ reads }
    {
        Reads {
            form: Form::Own(reads),
        }
    }

    /// The same reads. From now on a copy costs no copy of each, where there is room for what is shared.
    pub(crate) fn shared(self, alloc: Global) -> Reads
        ensures { result ≡ self }
    {
        let Reads { form } = self;
        let form = match form {
            Form::Own(reads) => match Arc::new(alloc, reads) {
                Ok(shared) => Form::Shared(shared),
                Err(refused) => Form::Own(refused.value),
            },
            Form::Shared(shared) => Form::Shared(shared),
        };
        Reads { form }
    }

    /// The reads as a slice.
    pub(crate) fn as_slice(&self) -> &[Read]
        ensures { result.now ≡ self.now }
    {
        match &self.form {
            Form::Own(reads) => reads.as_slice(),
            Form::Shared(shared) => shared.as_slice(),
        }
    }

    /// Equal reads, or want of memory.
    pub(crate) fn copy(&self, alloc: Global) -> Result<Reads, AllocError>
        ensures { IfOk result (λ r. r ≡ self.now) }
    {
        let form = match &self.form {
            Form::Own(reads) => Form::Own(reads.copy(alloc)?),
            Form::Shared(shared) => Form::Shared(Arc::try_clone(shared)?),
        };
        Ok(Reads { form })
    }
}
