//! The command `flood`: datagrams from memory are judged by worker threads while versions are replaced (docs/COMMANDS.md, "flood").
//!
//! `run_flood` runs the command and returns its exit status. `flood` takes any gate, and returns why it failed; `flood_over` is `flood`
//! over an output whose failures are counted.
#![tactic(auto)]

ghost use Rattle.std.specs.Prelude.{◌≡◌, ◌⊎◌, [], Some};
ghost use Rattle.command_line.specs.CommandLine.{datagrams_in};
ghost use Rattle.command_streams.specs.Endings.{EndsByCause};
ghost use Rattle.command_flood.specs.Failing.{EndsInFloodFailure, FloodFails};
ghost use Rattle.command_flood.specs.Flood.{WritesFlood};
ghost use Rattle.command_flood.specs.declared.flood_jobs.TheConstants.{BUFFER, LIMIT};
ghost use Rattle.command_flood.specs.declared.flood_versions.TheConstants.{PUBLICATIONS};

mod flood_jobs;
mod flood_versions;
mod flooding;
mod traffic;

use command_line::{Status, Workers};
use command_streams::CountedWrite;
use dispatch::OpenGate;
pub use flooding::{flood, flood_over};
use std::alloc::Global;
use std::io::Write;
use std::sync::Wait;
use std::thread::Threads;

/// How many datagrams the command `flood` judges if its words give no number.
pub const DATAGRAMS: usize = 4096;

/// Law: the numbers of `flood`, written out, as numbers. It runs nothing.
pub fn limits_as_numbers()
    ensures datagrams { DATAGRAMS ≡ 4096 }
    ensures unasked { datagrams_in [] ≡ Some DATAGRAMS }
    ensures publications { PUBLICATIONS ≡ 64 }
    ensures batch { LIMIT ≡ 64 }
    ensures room { BUFFER ≡ 64 }
{}

/// Runs the command, and returns the exit status.
pub fn run_flood<R: Threads + Wait + Sync, W: CountedWrite, E: Write>(
    rt: &R,
    alloc: Global,
    workers: Workers,
    datagrams: usize,
    out: &mut W,
    errs: &mut E,
) -> Status
    ensures done { result ≡ Status.Done → WritesFlood workers.count datagrams (W.contents out.old) (W.contents out.new) }
    ensures no_errors { result ≡ Status.Done → errs.new ≡ errs.old }
    ensures done_or_failed { (result ≡ Status.Done) ⊎ (result ≡ Status.Failed) }
    ensures failed { result ≡ Status.Failed
        → EndsInFloodFailure workers.count datagrams (W.contents out.old) (W.contents out.new) (E.contents errs.old) (E.contents errs.new) }
    ensures device_failed { EndsByCause
        (FloodFails workers.count datagrams (W.contents out.old) (W.contents out.new) (E.contents errs.old) (E.contents errs.new)) result
        (W.failures out.old) (W.failures out.new) }
{
    match flood_over(rt, alloc, workers.count, datagrams, &OpenGate, out) {
        Ok(()) => Status::Done,
        Err(failure) => failure.report(errs),
    }
}
