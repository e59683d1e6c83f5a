//! A destination of results as the output of a replay, which counts its failures anew.

ghost use Rattle.std.specs.Prelude.{◌≡◌, ◌<◌, List, None, Option, ℕ};
ghost use Rattle.dispatch.specs.Memory.{MOST_FAILURES};
ghost use Rattle.command_streams.specs.Failures.{FailuresValue};
ghost use Rattle.command_replay.specs.body.Opened.{failures_after};

use command_streams::CountedWrite;
use control::{Failed, Output};
use std::marker::{Brand, Model, PhantomData};

/// The contents and the failures of a destination when a `ReplyOutput` was made over it. The type has them, since code that writes
/// says only what it writes.
/// The reason: docs/INTERNALS.md, "Texts and types that only contracts see".
pub(crate) trait Opened {
    ghost contents: { Option (List ℕ) };

    ghost failures: { FailuresValue };
}

impl Opened for Brand {
    ghost contents = { None };

    ghost failures = { record { count = 0; borrow = 0 } };
}

/// A destination of results. Fails if a write of it fails. It ends by `into_inner`.
///
/// Contracts see how often it failed, and the name of its borrow. After 2^64 - 1 failures they no longer see what it wrote; then it
/// writes no more, and returns as if all bytes were taken.
pub(crate) struct ReplyOutput<'a, W: CountedWrite, L: Opened> {
    out: &'a mut W,
    failures: u64,
    opened: PhantomData<L>,
}

impl<'a, W: CountedWrite, L: Opened> Model for ReplyOutput<'a, W, L> {
    ghost use Rattle.std.specs.Prelude.{◌≡◌};
    ghost use Rattle.control.specs.Streams.{ToWriteValue, output_over};
    ghost use Rattle.command_replay.specs.body.Opened.{failures_after};

    ghost Value = { ToWriteValue };

    ghost view = { λ replies. record {
      borrow = replies.out.ghost_name;
      output = output_over (W.contents replies.out.now) replies.failures;
    } };

    ghost invariant = { λ replies. W.failures replies.out.now ≡ failures_after replies.failures L.failures };
}

impl<'a, W: CountedWrite, L: Opened> ReplyOutput<'a, W, L> {
    pub(crate) fn new(out: &'a mut W) -> ReplyOutput<'a, W, L>
        requires { L.failures ≡ W.failures out.old }
        ensures opened { result ≡ record {
          borrow = out.entry.ghost_name;
          output = record { failures = 0; taken = W.contents out.old };
        } }
    {
        ReplyOutput {
            out,
            failures: 0,
            opened: PhantomData,
        }
    }

    /// Returns the destination, which is as the writes have left it.
    pub(crate) fn into_inner(self) -> &'a mut W
        ensures same_reference { result.ghost_name ≡ self.entry.borrow }
        ensures contents { self.entry.output.failures < MOST_FAILURES → W.contents result.now ≡ self.entry.output.taken }
        ensures failures { W.failures result.now ≡ failures_after self.entry.output.failures L.failures }
    {
        let ReplyOutput {
            out,
            failures: _,
            opened: _,
        } = self;
        out
    }
}

impl<W: CountedWrite, L: Opened> Output for ReplyOutput<'_, W, L> {
    ghost use Rattle.std.specs.Borrow.{GName};

    ghost Rest = { GName };

    ghost state = { λ replies. replies.output };

    ghost rest = { λ replies. replies.borrow };

    fn write(&mut self, bytes: &[u8]) -> Result<usize, Failed> {
        if self.failures == u64::MAX {
            return Ok(bytes.len());
        }
        let answer = self.out.write(bytes);
        if answer.is_err() {
            self.failures += 1;
        }
        answer
    }
}
