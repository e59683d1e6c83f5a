//! The bytes of an input that were read and are in no line yet.

ghost use Rattle.std.specs.Prelude.{◌≡◌, ◌⊎◌, ◌<◌, Err, IfErr, IfOk, Ok, [], false, true};
ghost use Rattle.std.specs.Io.KnownBytes.{Consumes, IsAtEnd};
ghost use Rattle.command_streams.specs.Failures.{InputFails};
ghost use Rattle.control_client.specs.body.Unread.{TakesLine};

use crate::carrying::cut_line;
use command_line::Failure;
use command_streams::{Failed, Input};
use std::alloc::{AllocError, Global};
use std::marker::Model;

// How many bytes are read at once.
const CHUNK: usize = 8192;

/// The bytes that were read at once, and how many of them were taken.
#[derive(Drop)]
pub(crate) struct Unread {
    bytes: Vec<u8>,
    taken: usize,
}

impl Model for Unread {
    ghost use Rattle.std.specs.Prelude.{◌≤◌, List, drop, length, ℕ};

    ghost Value = { List ℕ };

    ghost view = { λ unread. drop unread.taken unread.bytes.items };

    ghost invariant = { λ unread. unread.taken ≤ length unread.bytes.items };
}

impl Unread {
    pub(crate) fn new(alloc: Global) -> Unread
        ensures { result ≡ [] }
    {
        Unread {
            bytes: Vec::new(alloc),
            taken: 0,
        }
    }

    /// Reads the next bytes in place of the others. Returns false if there are none.
    pub(crate) fn fill<R: Input>(&mut self, input: &mut R) -> Result<bool, Failure>
        ensures filled { IfOk result (λ some. Consumes (R.state input.old).coming (R.state input.new).coming self.new) }
        ensures fewer { result ≡ Ok true → (R.state input.new).left < (R.state input.old).left }
        ensures end { result ≡ Ok false → (self.new ≡ []) × IsAtEnd (R.state input.new).coming }
        ensures faults { IfErr result (λ fault. (fault ≡ Failure.ReadFailed) ⊎ (fault ≡ Failure.OutOfMemory)) }
        ensures device_failed { InputFails result (R.state input.old).failures (R.state input.new).failures }
    {
        let mut chunk = [0; CHUNK];
        let size = match input.read(&mut chunk) {
            Ok(size) => size,
            Err(Failed) => return Err(Failure::ReadFailed),
        };
        self.taken = 0;
        self.bytes.clear();
        self.bytes.extend_from_slice(&chunk[..size])?;
        Ok(size > 0)
    }

    /// Adds the bytes up to the next LF to a line, and takes them and the LF. If there is no LF, adds and takes all bytes, and
    /// returns false.
    pub(crate) fn take_line(&mut self, line: &mut Vec<u8>) -> Result<bool, AllocError>
        ensures { IfOk result (TakesLine self.old self.new line.old.items line.new.items) }
    {
        let (first, rest) = cut_line(&self.bytes[self.taken..]);
        line.extend_from_slice(first)?;
        if rest.is_empty() {
            self.taken = self.bytes.len();
            return Ok(false);
        }
        self.taken += first.len() + 1;
        Ok(true)
    }
}
