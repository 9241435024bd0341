//! Writes of which a front is known when they fail.
ghost use Rattle.std.specs.Prelude.{◌≡◌, OnOk, OnErr, IfErr};
ghost use Rattle.std.specs.Io.KnownBytes.{Appends, Keeps};
ghost use Rattle.dg_session.specs.Session.{AppendsFront};

use crate::fault::SessionFault;
use std::io;
use std::io::Write;

/// Writes all bytes, or a front of them. A write that was interrupted is tried again.
pub fn write_whole<W: Write>(writer: &mut W, bytes: &[u8]) -> Result<(), SessionFault>
    ensures ok { OnOk result (Appends (W.contents writer.old) (W.contents writer.new) bytes.now) }
    ensures err { OnErr result (AppendsFront (W.contents writer.old) (W.contents writer.new) bytes.now) }
    ensures kind { IfErr result (λ e. e ≡ SessionFault.WriteFault) }
{
    let mut at = 0;
    for _ in 0..u64::MAX {
        if at == bytes.len() {
            return Ok(());
        }
        match writer.write(&bytes[at..]) {
            Ok(0) => return Err(SessionFault::WriteFault),
            Ok(n) => at += n,
            Err(error) => {
                if error.kind() != io::ErrorKind::Interrupted {
                    return Err(SessionFault::WriteFault);
                }
            }
        }
    }
    Err(SessionFault::WriteFault)
}

/// Flushes a writer, so that who waits for what was written has it.
pub fn flush<W: Write>(writer: &mut W) -> Result<(), SessionFault>
    ensures kept { Keeps (W.contents writer.old) (W.contents writer.new) }
    ensures kind { IfErr result (λ e. e ≡ SessionFault.WriteFault) }
{
    match writer.flush() {
        Ok(()) => Ok(()),
        Err(_) => Err(SessionFault::WriteFault),
    }
}
