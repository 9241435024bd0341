//! Errors of the system as faults of a gate.
ghost use Rattle.std.specs.Prelude.{◌≡◌};
ghost use Rattle.std.specs.IoError.{error_kind};
ghost use Rattle.dg_pipes.specs.Faults.{fault_of_kind};

use dg_gate::GateFault;
use dg_transcript::ErrorCode;
use std::io;

/// The fault that an error of the system is: ENOENT is 1, EACCES and EPERM are 2, EPIPE is 3,
/// ENOMEM is want of memory, and any other is 4.
pub(crate) fn fault_of(error: io::Error) -> GateFault
    ensures { result ≡ fault_of_kind (error_kind error) }
{
    match error.kind() {
        io::ErrorKind::NotFound => GateFault::Device(ErrorCode::NotFound),
        io::ErrorKind::PermissionDenied => GateFault::Device(ErrorCode::NotPermitted),
        io::ErrorKind::BrokenPipe => GateFault::Device(ErrorCode::BrokenPipe),
        io::ErrorKind::OutOfMemory => GateFault::Memory,
        _ => GateFault::Device(ErrorCode::Other),
    }
}
