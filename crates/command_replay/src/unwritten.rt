//! Replaying a script whose replies are not written.

ghost use Rattle.std.specs.Prelude.{◌≡◌, ◌⊎◌, IfErr, IfOk, OnOk};
ghost use Rattle.command_streams.specs.Failures.{InputFails};
ghost use Rattle.command_replay.specs.Replaying.{AreRepliesTo};
ghost use Rattle.command_replay.specs.body.Summarizing.{WasReplayed};

use crate::replaying::failure_of;
use command_line::{Failure, Status};
use control::{Failed, Input, Output, replay};
use control_summary::ReplyCounts;
use std::alloc::Global;

// Takes all and keeps nothing.
#[derive(Drop)]
struct Nowhere;

impl Output for Nowhere {
    ghost use Rattle.std.specs.Prelude.{None};

    ghost state = { λ _. record { failures = 0; taken = None } };

    ghost rest = { λ _. tt };

    fn write(&mut self, bytes: &[u8]) -> Result<usize, Failed> {
        Ok(bytes.len())
    }
}

// The counts of all that is written.
#[derive(Drop)]
struct CountsAlone {
    counts: ReplyCounts,
}

impl Output for CountsAlone {
    ghost use Rattle.std.specs.Prelude.{Some};

    ghost state = { λ alone. record { failures = 0; taken = Some alone.counts } };

    ghost rest = { λ _. tt };

    fn write(&mut self, bytes: &[u8]) -> Result<usize, Failed> {
        self.counts.put(bytes);
        Ok(bytes.len())
    }
}

/// Replays each request of the input, and writes nothing.
pub fn replay_unwritten<R: Input>(alloc: Global, input: &mut R) -> Result<Status, Failure>
    ensures failed { IfErr result (λ failure. (failure ≡ Failure.ReadFailed) ⊎ (failure ≡ Failure.OutOfMemory)) }
    ensures device_failed { InputFails result (R.state input.old).failures (R.state input.new).failures }
    ensures done { IfOk result (λ status. status ≡ Status.Done) }
    ensures replied { OnOk result (WasReplayed (R.state input.old).coming) }
{
    match replay(alloc, input, &mut Nowhere) {
        Ok(()) => Ok(Status::Done),
        Err(fault) => Err(failure_of(fault)),
    }
}

/// Replays each request of the input, and counts the replies.
pub fn count_replies<R: Input>(alloc: Global, input: &mut R) -> Result<ReplyCounts, Failure>
    ensures failed { IfErr result (λ failure. (failure ≡ Failure.ReadFailed) ⊎ (failure ≡ Failure.OutOfMemory)) }
    ensures device_failed { InputFails result (R.state input.old).failures (R.state input.new).failures }
    ensures replied { IfOk result (AreRepliesTo (R.state input.old).coming) }
{
    let mut output = CountsAlone {
        counts: ReplyCounts::new(alloc),
    };
    match replay(alloc, input, &mut output) {
        Ok(()) => Ok(output.counts),
        Err(fault) => Err(failure_of(fault)),
    }
}
