//! Inputs and outputs over the standard library's readers and writers.

ghost use Rattle.std.specs.Prelude.{◌≡◌, ◌<◌};
ghost use Rattle.dispatch.specs.Memory.{MOST_FAILURES};
ghost use Rattle.control.specs.declared.std_streams.TheConstants.{READ_LIMIT};

use crate::streams::{Input, Output};
use dispatch::Failed;
use std::io::{Read, Write};
use std::marker::Model;

/// The most bytes that an input over a reader returns.
pub const READ_LIMIT: u64 = 1 << 63;

/// Law: the limit, as a number. It runs nothing.
pub fn limits_as_numbers()
    ensures { READ_LIMIT ≡ 9223372036854775808 }
{}

/// The bytes of a reader. Fails if a read of the reader fails, also if it was interrupted; and after `READ_LIMIT` bytes.
///
/// Contracts see how often it failed. After 2^64 - 1 failures they no longer see what it reads; then it reads no more, and returns 0 as
/// at the end.
#[derive(Drop)]
pub struct FromRead<R: Read> {
    reader: R,
    left: u64,
    failures: u64,
}

impl<R: Read> Model for FromRead<R> {
    ghost use Rattle.control.specs.Streams.{InputValue, input_over};

    ghost Value = { InputValue };

    ghost view = { λ input. input_over (R.remaining input.reader) input.left input.failures };
}

impl<R: Read> FromRead<R> {
    /// Takes the reader, which has not failed yet.
    pub fn new(reader: R) -> FromRead<R>
        ensures opened { result ≡ record { failures = 0; coming = R.remaining reader; left = READ_LIMIT } }
    {
        FromRead {
            reader,
            left: READ_LIMIT,
            failures: 0,
        }
    }
}

impl<R: Read> Input for FromRead<R> {
    ghost state = { λ input. input };

    fn read(&mut self, buf: &mut [u8]) -> Result<usize, Failed> {
        if self.failures == u64::MAX {
            return Ok(0);
        }
        let room = self.left.min(buf.len() as u64) as usize;
        let answer = if room == 0 && !buf.is_empty() {
            Err(Failed)
        } else {
            self.reader.read(&mut buf[..room]).map_err(|_| Failed)
        };
        match answer {
            Ok(size) => self.left -= size as u64,
            Err(Failed) => self.failures += 1,
        }
        answer
    }
}

/// A writer. Fails if a write of the writer fails, also if it was interrupted; and if the writer takes none of some bytes.
///
/// It ends by `into_inner`. Contracts see how often it failed, and the name of its borrow. After 2^64 - 1 failures they no longer
/// see what it wrote; then it writes no more, and returns as if all bytes were taken.
pub struct ToWrite<'a, W: Write> {
    writer: &'a mut W,
    failures: u64,
}

impl<'a, W: Write> Model for ToWrite<'a, W> {
    ghost use Rattle.control.specs.Streams.{ToWriteValue, output_over};

    ghost Value = { ToWriteValue };

    ghost view = { λ to_write. record {
      borrow = to_write.writer.ghost_name;
      output = output_over (W.contents to_write.writer.now) to_write.failures;
    } };
}

impl<'a, W: Write> ToWrite<'a, W> {
    /// Borrows the writer, which has not failed yet.
    pub fn new(writer: &'a mut W) -> ToWrite<'a, W>
        ensures opened { result ≡ record {
          borrow = writer.entry.ghost_name;
          output = record { failures = 0; taken = W.contents writer.old };
        } }
    {
        ToWrite {
            writer,
            failures: 0,
        }
    }

    /// Returns the writer, which is as the writes have left it.
    pub fn into_inner(self) -> &'a mut W
        ensures same_reference { result.ghost_name ≡ self.entry.borrow }
        ensures contents { self.entry.output.failures < MOST_FAILURES → W.contents result.now ≡ self.entry.output.taken }
    {
        let ToWrite {
            writer,
            failures: _,
        } = self;
        writer
    }
}

impl<W: Write> Output for ToWrite<'_, W> {
    ghost use Rattle.std.specs.Borrow.{GName};

    ghost Rest = { GName };

    ghost state = { λ to_write. to_write.output };

    ghost rest = { λ to_write. to_write.borrow };

    fn write(&mut self, bytes: &[u8]) -> Result<usize, Failed> {
        if bytes.is_empty() || self.failures == u64::MAX {
            return Ok(bytes.len());
        }
        match self.writer.write(bytes) {
            Ok(0) | Err(_) => {
                self.failures += 1;
                Err(Failed)
            }
            Ok(size) => Ok(size),
        }
    }
}
