//! The destination of a command's results.

ghost use Rattle.std.specs.Prelude.{◌<◌, ◌≤◌, IfOk, List, Option, length, ℕ};
ghost use Rattle.std.specs.Io.KnownBytes.{Keeps, WriteAppends};
ghost use Rattle.command_streams.specs.Failures.{CountsUpTo, FailuresValue};

use control::Failed;

/// A destination of bytes whose failures are counted. Bytes that are known stay known after a failure.
pub trait CountedWrite {
    // The bytes that it has, if they are known.
    ghost contents: { Self → Option (List ℕ) };

    // How many of its writes and flushes failed; after the most that can be counted, this many. Also the name of a borrow.
    ghost failures: { Self → FailuresValue };

    /// Writes a beginning of the bytes, and returns its length, which is at least 1 if there are bytes.
    fn write(&mut self, bytes: &[u8]) -> Result<usize, Failed>
        ensures device_failed { CountsUpTo result (failures self.old) (failures self.new) }
        ensures within { IfOk result (λ size. size ≤ length bytes.now) }
        ensures not_none { IfOk result (λ size. 0 < length bytes.now → 0 < size) }
        ensures takes_front { WriteAppends (contents self.old) (contents self.new) result bytes.now };

    /// Passes on what was written so far.
    fn flush(&mut self) -> Result<(), Failed>
        ensures device_failed { CountsUpTo result (failures self.old) (failures self.new) }
        ensures contents_kept { Keeps (contents self.old) (contents self.new) };
}
