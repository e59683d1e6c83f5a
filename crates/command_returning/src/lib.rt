//! The commands of words and texts, from the words to the output and the exit status (docs/COMMANDS.md).
//!
//! `run_returning` reads the words, runs `first`, `check`, `compile`, `run`, `pack`, `explain`, `spread`, `replay` or `packets` over any
//! input and outputs, and returns a command that may wait to its caller. `tool` is the same without that command. `run_over` is
//! `run_returning` over an input and an output whose failures are counted.
#![tactic(auto)]

ghost use Rattle.std.specs.Prelude.{◌≡◌, ◌≢◌, ◌⊎◌, [], IfErr, IfOk, IfSome, IsErr, None, Ok, Option, Some, map, string_bytes, ℕ};
ghost use Rattle.command_line.specs.CommandLine.{AsksForText, HasMisuse, command_in, faults_in, packets, returning, waiting, waiting_of};
ghost use Rattle.command_line.specs.Ending.{IsStatus, code_of};
ghost use Rattle.command_returning.specs.Request.{AskToWait, EndsInFailure, TellsCountsOf, WritesAnswerTo};

mod capturing;
mod running;

use command_line::{Status, Waiting};
pub use command_replay::replies_are_counted;
use command_streams::{CountedWriter, FromRead};
pub use running::run_over;
use std::alloc::Global;
use std::io::{Read, Write};

/// Runs the words after the program's name, and returns the exit status. Results go to `out`; a fault in the words or a
/// failure goes to `errs`, whose own errors change nothing. `Err` is a command that may wait, which is run elsewhere.
pub fn run_returning<'a, R: Read + Drop, W: Write, E: Write>(
    alloc: Global,
    words: &'a [String],
    input: R,
    out: &mut W,
    errs: &mut E,
) -> Result<u8, Waiting<'a>>
    ensures status { IfOk result IsStatus }
    ensures waits { IfErr result (λ command. (faults_in (map string_bytes words.now) ≡ []) × (command_in (map string_bytes words.now) ≡ Some (waiting (waiting_of command)))) }
    ensures answers { AskToWait (map string_bytes words.now) → IsErr result ⊎ (result ≡ Ok (code_of Status.Failed)) }

    ensures done { result ≡ Ok (code_of Status.Done)
        → (faults_in (map string_bytes words.now) ≡ []) ⊎ AsksForText (faults_in (map string_bytes words.now)) }
    ensures done_written { result ≡ Ok (code_of Status.Done) → faults_in (map string_bytes words.now) ≡ []
        → WritesAnswerTo (map string_bytes words.now) (R.remaining input) Status.Done
        (W.contents out.old) (W.contents out.new) }

    ensures refused { result ≡ Ok (code_of Status.Refused) → faults_in (map string_bytes words.now) ≡ [] }
    ensures refused_written { result ≡ Ok (code_of Status.Refused)
        → WritesAnswerTo (map string_bytes words.now) (R.remaining input) Status.Refused
        (W.contents out.old) (W.contents out.new) }

    ensures misused { result ≡ Ok (code_of Status.Misused) → HasMisuse (faults_in (map string_bytes words.now)) }
    ensures nothing_written { IsErr result ⊎ (result ≡ Ok (code_of Status.Misused)) → out.new ≡ out.old }

    ensures failed { result ≡ Ok (code_of Status.Failed)
        → EndsInFailure (map string_bytes words.now) (R.remaining input)
        (W.contents out.old) (W.contents out.new) (E.contents errs.old) (E.contents errs.new) }
    ensures no_errors { IsErr result ⊎ (result ≡ Ok (code_of Status.Done)) ⊎ (result ≡ Ok (code_of Status.Refused))
        → ((port : Option ℕ) → command_in (map string_bytes words.now) ≢ Some (returning (packets port))) → errs.new ≡ errs.old }
    ensures counted { (result ≡ Ok (code_of Status.Done)) ⊎ (result ≡ Ok (code_of Status.Refused))
        → faults_in (map string_bytes words.now) ≡ [] → (port : Option ℕ) → command_in (map string_bytes words.now) ≡ Some (returning (packets port))
        → TellsCountsOf port (R.remaining input) (E.contents errs.old) (E.contents errs.new) }
{
    let mut writer = CountedWriter::new(out);
    let ended = run_over(alloc, words, &mut FromRead::new(input), &mut writer, errs);
    let _ = writer.into_inner();
    ended
}

/// Runs the words as `run_returning` does. Returns `None` if they ask for a command that may wait.
pub fn tool<R: Read + Drop, W: Write, E: Write>(
    alloc: Global,
    words: &[String],
    input: R,
    out: &mut W,
    errs: &mut E,
) -> Option<u8>
    ensures status { IfSome result IsStatus }
    ensures waits { result ≡ None → AskToWait (map string_bytes words.now) }
    ensures answers { AskToWait (map string_bytes words.now) → (result ≡ None) ⊎ (result ≡ Some (code_of Status.Failed)) }

    ensures done { result ≡ Some (code_of Status.Done)
        → (faults_in (map string_bytes words.now) ≡ []) ⊎ AsksForText (faults_in (map string_bytes words.now)) }
    ensures done_written { result ≡ Some (code_of Status.Done) → faults_in (map string_bytes words.now) ≡ []
        → WritesAnswerTo (map string_bytes words.now) (R.remaining input) Status.Done
        (W.contents out.old) (W.contents out.new) }

    ensures refused { result ≡ Some (code_of Status.Refused) → faults_in (map string_bytes words.now) ≡ [] }
    ensures refused_written { result ≡ Some (code_of Status.Refused)
        → WritesAnswerTo (map string_bytes words.now) (R.remaining input) Status.Refused
        (W.contents out.old) (W.contents out.new) }

    ensures misused { result ≡ Some (code_of Status.Misused) → HasMisuse (faults_in (map string_bytes words.now)) }
    ensures nothing_written { (result ≡ None) ⊎ (result ≡ Some (code_of Status.Misused)) → out.new ≡ out.old }

    ensures failed { result ≡ Some (code_of Status.Failed)
        → EndsInFailure (map string_bytes words.now) (R.remaining input)
        (W.contents out.old) (W.contents out.new) (E.contents errs.old) (E.contents errs.new) }
    ensures no_errors { (result ≡ None) ⊎ (result ≡ Some (code_of Status.Done)) ⊎ (result ≡ Some (code_of Status.Refused))
        → ((port : Option ℕ) → command_in (map string_bytes words.now) ≢ Some (returning (packets port))) → errs.new ≡ errs.old }
    ensures counted { (result ≡ Some (code_of Status.Done)) ⊎ (result ≡ Some (code_of Status.Refused))
        → faults_in (map string_bytes words.now) ≡ [] → (port : Option ℕ) → command_in (map string_bytes words.now) ≡ Some (returning (packets port))
        → TellsCountsOf port (R.remaining input) (E.contents errs.old) (E.contents errs.new) }
{
    run_returning(alloc, words, input, out, errs).ok()
}
