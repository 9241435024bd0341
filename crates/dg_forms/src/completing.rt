//! Completions and errors of the commands that evaluate nothing inside and ask nothing.
ghost use Rattle.std.specs.Prelude.{◌≡◌, IfOk, Err};
ghost use Rattle.dg_language.specs.Completing.{completes, gives, does};
ghost use Rattle.dg_language.specs.Evaluation.{wrong_count};

use crate::messages::wrong_count;
use dg_bytes::Bytes;
use dg_language::{Change, Code, Completion};
use std::alloc::{AllocError, Global};

/// A command completes with this code and value, and nothing changes.
pub(crate) fn completes(code: Code, value: Bytes) -> Result<Completion, Bytes>
    ensures { result ≡ completes code value }
{
    Ok(Completion {
        code,
        value,
        change: Change::Nothing,
    })
}

/// A command has a value, and nothing changes.
pub(crate) fn gives(value: Bytes) -> Result<Completion, Bytes>
    ensures { result ≡ gives value }
{
    completes(Code::Done, value)
}

/// A command changes this, and has the empty value.
pub(crate) fn does(alloc: Global, change: Change) -> Result<Completion, Bytes>
    ensures { result ≡ does change }
{
    Ok(Completion {
        code: Code::Done,
        value: Bytes::new(alloc),
        change,
    })
}

/// A command of this name has the wrong count of arguments.
pub(crate) fn miscounted(
    alloc: Global,
    name: &[u8],
) -> Result<Result<Completion, Bytes>, AllocError>
    ensures { IfOk result (λ r. r ≡ Err (wrong_count name.now)) }
{
    Ok(Err(wrong_count(alloc, name)?))
}
