//! The law that no command wants memory.
ghost use Rattle.dg_cmds.specs.Commands.{NoCommandWantsMemory};

/// What a string, list or format command comes to is never want of memory, but a value, a script error, or
/// that the value is too long.
pub fn no_command_wants_memory()
    ensures { NoCommandWantsMemory }
{}
