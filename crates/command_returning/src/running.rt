//! The commands of words and texts over an input and an output whose failures are counted.

ghost use Rattle.std.specs.Prelude.{◌≡◌, ◌≢◌, ◌⊎◌, [], IfErr, IfOk, IsErr, OnErr, OnOk, Ok, Err, Option, Some, map, string_bytes, ℕ};
ghost use Rattle.clap.specs.Words.{kind_of};
ghost use Rattle.command_line.specs.CommandLine.{AsksForText, HasMisuse, command_in, faults_in, packets, request_of, returning, waiting, waiting_of};
ghost use Rattle.command_line.specs.Ending.{IsStatus, code_of};
ghost use Rattle.command_streams.specs.Failures.{OutputFails, known_after};
ghost use Rattle.command_query.specs.Query.{MayFail};
ghost use Rattle.command_returning.specs.Request.{AskToWait, EndsInFailure, EndsWithCause, HasCauseOf, TellsCountsOf, Writes};
ghost use Rattle.command_returning.specs.Request.{WritesAnswerTo, WritesBefore};

use crate::capturing::run_packets;
use clap::error::ErrorKind;
use command_line::{Failure, Returning, Status, Subcommand, Waiting, read_words, reported};
use command_query::run_query;
use command_replay::run_replay;
use command_streams::{CountedWrite, Input, write_through};
use std::alloc::Global;
use std::io::Write;

/// Runs the words after the program's name, and returns the exit status, as `run_returning` does. The failures of the input and the
/// output are counted, so contracts can name the failed read or write that a failure comes from.
pub fn run_over<'a, R: Input, W: CountedWrite, E: Write>(
    alloc: Global,
    words: &'a [String],
    input: &mut R,
    out: &mut W,
    errs: &mut E,
) -> Result<u8, Waiting<'a>>
    ensures status { IfOk result IsStatus }
    ensures waits { IfErr result (λ command. (faults_in (map string_bytes words.now) ≡ []) × (command_in (map string_bytes words.now) ≡ Some (waiting (waiting_of command)))) }
    ensures answers { AskToWait (map string_bytes words.now) → IsErr result ⊎ (result ≡ Ok (code_of Status.Failed)) }

    ensures done { result ≡ Ok (code_of Status.Done)
        → (faults_in (map string_bytes words.now) ≡ []) ⊎ AsksForText (faults_in (map string_bytes words.now)) }
    ensures done_written { result ≡ Ok (code_of Status.Done) → faults_in (map string_bytes words.now) ≡ []
        → WritesAnswerTo (map string_bytes words.now) (R.state input.old).coming Status.Done
        (W.contents out.old) (W.contents out.new) }

    ensures refused { result ≡ Ok (code_of Status.Refused) → faults_in (map string_bytes words.now) ≡ [] }
    ensures refused_written { result ≡ Ok (code_of Status.Refused)
        → WritesAnswerTo (map string_bytes words.now) (R.state input.old).coming Status.Refused
        (W.contents out.old) (W.contents out.new) }

    ensures misused { result ≡ Ok (code_of Status.Misused) → HasMisuse (faults_in (map string_bytes words.now)) }
    ensures nothing_written { IsErr result ⊎ (result ≡ Ok (code_of Status.Misused)) → out.new ≡ out.old }

    ensures failed { result ≡ Ok (code_of Status.Failed)
        → EndsInFailure (map string_bytes words.now) (known_after (R.state input.old) (R.state input.new))
        (W.contents out.old) (W.contents out.new) (E.contents errs.old) (E.contents errs.new) }
    ensures device_failed { result ≡ Ok (code_of Status.Failed)
        → EndsWithCause (map string_bytes words.now) (known_after (R.state input.old) (R.state input.new))
        (W.contents out.old) (W.contents out.new) (E.contents errs.old) (E.contents errs.new)
        (R.state input.old).failures (R.state input.new).failures (W.failures out.old) (W.failures out.new) }
    ensures no_device_failed { IsErr result ⊎ (result ≡ Ok (code_of Status.Done)) ⊎ (result ≡ Ok (code_of Status.Refused)) ⊎ (result ≡ Ok (code_of Status.Misused))
        → ((R.state input.new).failures ≡ (R.state input.old).failures) × (W.failures out.new ≡ W.failures out.old) }
    ensures borrow_kept { (W.failures out.new).borrow ≡ (W.failures out.old).borrow }
    ensures no_errors { IsErr result ⊎ (result ≡ Ok (code_of Status.Done)) ⊎ (result ≡ Ok (code_of Status.Refused))
        → ((port : Option ℕ) → command_in (map string_bytes words.now) ≢ Some (returning (packets port))) → errs.new ≡ errs.old }
    ensures counted { (result ≡ Ok (code_of Status.Done)) ⊎ (result ≡ Ok (code_of Status.Refused))
        → faults_in (map string_bytes words.now) ≡ [] → (port : Option ℕ) → command_in (map string_bytes words.now) ≡ Some (returning (packets port))
        → TellsCountsOf port (R.state input.old).coming (E.contents errs.old) (E.contents errs.new) }
{
    match read_words(alloc, words) {
        Ok(Subcommand::Returning(command)) => {
            let ended = run_command(alloc, command, input, out, errs);
            Ok(reported(ended, errs) as u8)
        }
        Ok(Subcommand::Waiting(command)) => Err(command),
        Err(fault) => Ok(reported(answer(alloc, &fault, out, errs), errs) as u8),
    }
}

// Results go to `out`, and the counts of `packets` to `errs`.
fn run_command<R: Input, W: CountedWrite, E: Write>(
    alloc: Global,
    command: Returning<'_>,
    input: &mut R,
    out: &mut W,
    errs: &mut E,
) -> Result<Status, Failure>
    ensures counted { OnOk result ((port : Option ℕ) → request_of command.entry ≡ packets port → TellsCountsOf port (R.state input.old).coming (E.contents errs.old) (E.contents errs.new)) }
    ensures no_errors { OnOk result (((port : Option ℕ) → request_of command.entry ≢ packets port) → errs.new ≡ errs.old) }
    ensures untold { OnErr result (errs.new ≡ errs.old) }
    ensures failed { IfErr result (MayFail (request_of command.entry)) }
    ensures device_failed { HasCauseOf (request_of command.entry) result (R.state input.old).failures (R.state input.new).failures
        (W.failures out.old) (W.failures out.new) }
    ensures failed_written { IfErr result (λ failure.
        WritesBefore (request_of command.entry) failure (known_after (R.state input.old) (R.state input.new)) (W.contents out.old) (W.contents out.new)) }
    ensures written { IfOk result (λ status.
        Writes (request_of command.entry) (R.state input.old).coming status (W.contents out.old) (W.contents out.new)) }
{
    match command {
        Returning::Query(query) => run_query(alloc, query, input, out),
        Returning::Replay { summary, quiet } => run_replay(alloc, summary, quiet, input, out),
        Returning::Packets { unwrap } => run_packets(alloc, unwrap, input, out, errs),
    }
}

// Prints the fault of the words to `errs`, or the help or version that they ask for to `out`.
fn answer<W: CountedWrite, E: Write>(
    alloc: Global,
    fault: &clap::Error,
    out: &mut W,
    errs: &mut E,
) -> Result<Status, Failure>
    ensures done { result ≡ Ok Status.Done
        → (kind_of fault.now ≡ ErrorKind.DisplayHelp) ⊎ (kind_of fault.now ≡ ErrorKind.DisplayVersion) }
    ensures misused { result ≡ Ok Status.Misused
        → (kind_of fault.now ≢ ErrorKind.DisplayHelp) × (kind_of fault.now ≢ ErrorKind.DisplayVersion) }
    ensures done_or_misused { IfOk result (λ status. (status ≡ Status.Done) ⊎ (status ≡ Status.Misused)) }
    ensures failed { IfErr result (λ failure. (failure ≡ Failure.WriteFailed) ⊎ (failure ≡ Failure.OutOfMemory)) }
    ensures device_failed { OutputFails result (W.failures out.old) (W.failures out.new) }
    ensures untold { OnErr result (errs.new ≡ errs.old) }
    ensures no_errors { result ≡ Ok Status.Done → errs.new ≡ errs.old }
    ensures nothing_written { result ≡ Ok Status.Misused → out.new ≡ out.old }
    ensures no_memory { kind_of fault.now ≡ ErrorKind.OutOfMemory → (result ≡ Err Failure.OutOfMemory) × (out.new ≡ out.old) }
{
    if fault.kind() == ErrorKind::OutOfMemory {
        return Err(Failure::OutOfMemory);
    }
    if fault.use_stderr() {
        let _ = write!(errs, "{fault}");
        let _ = errs.flush();
        return Ok(Status::Misused);
    }
    let text = fault.to_string(alloc)?;
    write_through(text.as_bytes(), out)?;
    Ok(Status::Done)
}
