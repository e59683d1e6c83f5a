//! Standard input, read whole.

ghost use Rattle.std.specs.Prelude.{◌≡◌, ◌⊎◌, IfErr, IfOk};
ghost use Rattle.command_line.specs.Input.{IsInput};

use crate::ending::Failure;
use std::alloc::Global;
use std::io::{ErrorKind, Read};

/// Reads the bytes that are left of the input.
pub fn read_whole<R: Read + Drop>(alloc: Global, mut input: R) -> Result<Vec<u8>, Failure>
    ensures whole { IfOk result (λ bytes. IsInput (R.remaining input) bytes.items) }
    ensures cause { IfErr result (λ failure. (failure ≡ Failure.ReadFailed) ⊎ (failure ≡ Failure.OutOfMemory)) }
{
    let mut bytes = Vec::new(alloc);
    match input.read_to_end(&mut bytes) {
        Ok(_) => Ok(bytes),
        Err(error) if error.kind() == ErrorKind::OutOfMemory => Err(Failure::OutOfMemory),
        Err(_) => Err(Failure::ReadFailed),
    }
}
