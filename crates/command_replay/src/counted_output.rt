//! A destination whose replies are counted.

ghost use Rattle.std.specs.Prelude.{◌≡◌, ◌<◌, Some, []};
ghost use Rattle.std.specs.Io.KnownBytes.{Appends};
ghost use Rattle.dispatch.specs.Memory.{MOST_FAILURES};
ghost use Rattle.command_replay.specs.body.Opened.{failures_after};

use crate::reply_output::{Opened, ReplyOutput};
use command_streams::CountedWrite;
use control::{Failed, Output};
use control_summary::ReplyCounts;
use std::alloc::Global;
use std::marker::Model;

/// A destination, and the counts of the replies that were written to it. Fails if the destination does.
pub(crate) struct CountedOutput<'a, W: CountedWrite, L: Opened> {
    output: ReplyOutput<'a, W, L>,
    counts: ReplyCounts,
}

impl<'a, W: CountedWrite, L: Opened> Model for CountedOutput<'a, W, L> {
    ghost use Rattle.std.specs.Prelude.{◌<◌, Some};
    ghost use Rattle.std.specs.Io.KnownBytes.{Appends};
    ghost use Rattle.dispatch.specs.Memory.{MOST_FAILURES};
    ghost use Rattle.control.specs.Streams.{ToWriteValue, output_over};

    ghost Value = { ToWriteValue };

    ghost view = { λ counted. record {
      borrow = counted.output.borrow;
      output = output_over (Some counted.counts) counted.output.output.failures;
    } };

    ghost invariant = { λ counted. counted.output.output.failures < MOST_FAILURES
        → Appends L.contents counted.output.output.taken counted.counts };
}

impl<'a, W: CountedWrite, L: Opened> CountedOutput<'a, W, L> {
    pub(crate) fn new(alloc: Global, out: &'a mut W) -> CountedOutput<'a, W, L>
        requires contents { L.contents ≡ W.contents out.old }
        requires failures { L.failures ≡ W.failures out.old }
        ensures opened { result ≡ record {
          borrow = out.entry.ghost_name;
          output = record { failures = 0; taken = Some [] };
        } }
    {
        CountedOutput {
            output: ReplyOutput::new(out),
            counts: ReplyCounts::new(alloc),
        }
    }

    /// Returns the destination and the counts.
    pub(crate) fn into_parts(self) -> (&'a mut W, ReplyCounts)
        ensures same_reference { result.0.ghost_name ≡ self.entry.borrow }
        ensures counts { self.entry.output.failures < MOST_FAILURES → self.entry.output.taken ≡ Some result.1 }
        ensures contents { self.entry.output.failures < MOST_FAILURES → Appends L.contents (W.contents result.0.now) result.1 }
        ensures failures { W.failures result.0.now ≡ failures_after self.entry.output.failures L.failures }
    {
        let CountedOutput { output, counts } = self;
        (output.into_inner(), counts)
    }
}

impl<W: CountedWrite, L: Opened> Output for CountedOutput<'_, W, L> {
    ghost use Rattle.std.specs.Borrow.{GName};

    ghost Rest = { GName };

    ghost state = { λ counted. counted.output };

    ghost rest = { λ counted. counted.borrow };

    fn write(&mut self, bytes: &[u8]) -> Result<usize, Failed> {
        let answer = self.output.write(bytes);
        if let Ok(size) = answer {
            self.counts.put(&bytes[..size]);
        }
        answer
    }
}
