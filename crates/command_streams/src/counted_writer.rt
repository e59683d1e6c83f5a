//! A destination of results over a writer of the standard library.

ghost use Rattle.std.specs.Prelude.{◌≡◌};

use crate::counted_write::CountedWrite;
use control::Failed;
use std::io::Write;
use std::marker::Model;

/// A writer whose failures are counted. A write fails if the writer's fails, also if it was interrupted, and if the writer takes none
/// of some bytes. It ends by `into_inner`.
pub struct CountedWriter<'a, W: Write> {
    writer: &'a mut W,
    failures: u64,
}

impl<'a, W: Write> Model for CountedWriter<'a, W> {
    ghost use Rattle.command_streams.specs.CountedWriter.{CountedWriterValue};

    ghost Value = { CountedWriterValue W };

    ghost view = { λ counted. record {
      borrow = counted.writer.ghost_name;
      writer = counted.writer.now;
      failures = counted.failures;
    } };
}

impl<'a, W: Write> CountedWriter<'a, W> {
    /// Borrows the writer, of which no failure is counted yet.
    pub fn new(writer: &'a mut W) -> CountedWriter<'a, W>
        ensures opened { result ≡ record { borrow = writer.entry.ghost_name; writer = writer.old; failures = 0 } }
    {
        CountedWriter {
            writer,
            failures: 0,
        }
    }

    /// Returns the writer, which is as the writes and flushes have left it.
    pub fn into_inner(self) -> &'a mut W
        ensures same_reference { result.ghost_name ≡ self.entry.borrow }
        ensures as_left { result.now ≡ self.entry.writer }
    {
        let CountedWriter {
            writer,
            failures: _,
        } = self;
        writer
    }
}

impl<W: Write> CountedWrite for CountedWriter<'_, W> {
    ghost contents = { λ counted. W.contents counted.writer };

    ghost failures = { λ counted. record { count = counted.failures; borrow = counted.borrow } };

    fn write(&mut self, bytes: &[u8]) -> Result<usize, Failed> {
        if bytes.is_empty() {
            return Ok(0);
        }
        match self.writer.write(bytes) {
            Ok(0) | Err(_) => {
                self.failures = self.failures.saturating_add(1);
                Err(Failed)
            }
            Ok(size) => Ok(size),
        }
    }

    fn flush(&mut self) -> Result<(), Failed> {
        match self.writer.flush() {
            Ok(()) => Ok(()),
            Err(_) => {
                self.failures = self.failures.saturating_add(1);
                Err(Failed)
            }
        }
    }
}
