//! Reading an input whole.

ghost use Rattle.std.specs.Prelude.{◌≡◌, ◌⊎◌, IfErr, IfOk};
ghost use Rattle.command_line.specs.Input.{IsInput};
ghost use Rattle.command_streams.specs.Failures.{InputFails};

use command_line::Failure;
use control::{Failed, Input};
use std::alloc::Global;

// How many bytes are read at once.
const CHUNK: usize = 8192;

/// Reads the bytes that are left of the input.
pub fn read_all<R: Input>(alloc: Global, input: &mut R) -> Result<Vec<u8>, Failure>
    ensures whole { IfOk result (λ bytes. IsInput (R.state input.old).coming bytes.items) }
    ensures cause { IfErr result (λ failure. (failure ≡ Failure.ReadFailed) ⊎ (failure ≡ Failure.OutOfMemory)) }
    ensures device_failed { InputFails result (R.state input.old).failures (R.state input.new).failures }
{
    let mut bytes = Vec::new(alloc);
    let mut chunk = [0; CHUNK];
    loop {
        let size = match input.read(&mut chunk) {
            Ok(size) => size,
            Err(Failed) => return Err(Failure::ReadFailed),
        };
        if size == 0 {
            return Ok(bytes);
        }
        bytes.extend_from_slice(&chunk[..size])?;
    }
}
