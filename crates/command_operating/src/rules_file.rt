//! The rules that a switch begins with (docs/COMMANDS.md, "Rules files").

ghost use Rattle.std.specs.Prelude.{◌≡◌, ◌⊎◌, ◌≤◌, ◌+◌, ◌++◌, IfErr, IfOk, OnOk, Some, length, option_map};
ghost use Rattle.command_operating.specs.Files.{first_bytes};
ghost use Rattle.std.specs.Io.KnownBytes.{Appends};
ghost use Rattle.member_group.specs.Charge.{charge_of};
ghost use Rattle.versions.specs.declared.layout.TheConstants.{CHARGE_LIMIT};
ghost use Rattle.command_line.specs.Ending.{AppendsBeginning, line_of};
ghost use Rattle.command_line.specs.Input.{IsInput};
ghost use Rattle.command_line.specs.declared.ending.Failure.TheVariants as failure;
ghost use Rattle.control_line.specs.Reason.{refusal_text};
ghost use Rattle.control_line.specs.Rules.{IsConfigOf};
ghost use Rattle.control_line.specs.declared.TheConstants.{BLOCK_LIMIT};
ghost use Rattle.command_streams.specs.Endings.{EndsByCause, EndsByOneCause};
ghost use Rattle.command_streams.specs.Failures.{InputFails, OutputFails};
ghost use Rattle.command_operating.specs.Opening.{EndsUnopened, EndsUnread, FailsOpening, FailsUnread, IsMadeFrom, IsOpening, RefusesOpening, RefusesRules, file_refusal_text, of_line};
ghost use Rattle.command_operating.specs.body.Reading.{IsReadOf};

use crate::files::ReadFiles;
use command_explain::{FaultPlace, file_fault_text, line_fault_text};
use command_line::{Failure, Status, write_whole};
use command_streams::{CountedWrite, write_through};
use control_line::{BLOCK_LIMIT, Reason, Reply, RulesFault, fault_column, line_at, rules};
use fault_code::Code;
use member_group::Config;
use std::alloc::{AllocError, Global};
use std::io::Write;

/// A rules file that was read, and the configuration that it makes.
#[derive(Drop)]
pub(crate) struct RulesFile {
    pub(crate) text: Vec<u8>,
    pub(crate) config: Config,
}

// The reply to a rules file that is refused.
fn refusal(line: Option<u32>, reason: Reason) -> Reply
    ensures text { result ≡ refusal_text reason ++ of_line line }
    ensures short { length result ≤ 96 }
{
    let mut reply = Reply::refused(reason);
    let Some(number) = line else {
        return reply;
    };
    reply.push(" line ");
    reply.push_number(number as u64);
    reply
}

fn write_file_refusal<W: CountedWrite>(
    line: Option<u32>,
    reason: Reason,
    out: &mut W,
) -> Result<(), Failure>
    ensures written { OnOk result (Appends (W.contents out.old) (W.contents out.new) (file_refusal_text line reason)) }
    ensures beginning { AppendsBeginning (W.contents out.old) (W.contents out.new) (file_refusal_text line reason) }
    ensures failed { IfErr result (λ failure. failure ≡ Failure.WriteFailed) }
    ensures device_failed { OutputFails result (W.failures out.old) (W.failures out.new) }
{
    let mut reply = refusal(line, reason);
    reply.push("\n");
    write_through(reply.bytes(), out)
}

// The text for people about a refused rules file of this name and text.
fn fault_text(
    alloc: Global,
    source: (&str, &[u8]),
    line: Option<u32>,
    reason: Reason,
) -> Result<Vec<u8>, AllocError> {
    let (file, text) = source;
    let code = reason.code();
    let code = format!(in alloc; "{}", Code::plain(code.letter, code.number))?;
    let Some(number) = line else {
        return file_fault_text(alloc, file, code.as_str());
    };
    let line = line_at(text, number);
    let place = FaultPlace {
        file,
        number,
        column: fault_column(line, reason),
        line,
    };
    line_fault_text(alloc, place, code.as_str())
}

// Shows people why a rules file is refused. If memory or a write fails, that is left out.
fn show_fault<E: Write>(
    alloc: Global,
    source: (&str, &[u8]),
    line: Option<u32>,
    reason: Reason,
    errs: &mut E,
) {
    if let Ok(text) = fault_text(alloc, source, line, reason) {
        let _ = write_whole(&text, errs);
        let _ = errs.flush();
    }
}

// Refuses a rules file of this name and text: a line for programs, and then the place for people.
fn refuse_file<W: CountedWrite, E: Write>(
    alloc: Global,
    source: (&str, &[u8]),
    line: Option<u32>,
    reason: Reason,
    out: &mut W,
    errs: &mut E,
) -> Status
    ensures refused { result ≡ Status.Refused → Appends (W.contents out.old) (W.contents out.new) (file_refusal_text line reason) }
    ensures beginning { AppendsBeginning (W.contents out.old) (W.contents out.new) (file_refusal_text line reason) }
    ensures never_done { result ≡ Status.Done → ⊥ }
    ensures never_misused { result ≡ Status.Misused → ⊥ }
    ensures failed { result ≡ Status.Failed → AppendsBeginning (E.contents errs.old) (E.contents errs.new) (line_of failure.WriteFailed) }
    ensures device_failed { EndsByCause (λ cause. cause ≡ failure.WriteFailed) result (W.failures out.old) (W.failures out.new) }
{
    match write_file_refusal(line, reason, out) {
        Ok(()) => {
            show_fault(alloc, source, line, reason, errs);
            Status::Refused
        }
        Err(failure) => failure.report(errs),
    }
}

// The most bytes that are read of a rules file: one more than it may have.
fn most_read() -> u64
    ensures { result ≡ BLOCK_LIMIT + 1 }
{
    BLOCK_LIMIT as u64 + 1
}

// Reads a rules file of this name, and one byte more than it may have if it has more.
fn read_text<F: ReadFiles>(alloc: Global, name: &str, files: &mut F) -> Result<Vec<u8>, Failure>
    ensures text { IfOk result (λ text. IsReadOf (F.contents files.old name.now) text.items) }
    ensures most { IfOk result (λ text. IsInput (option_map (first_bytes (Some (BLOCK_LIMIT + 1))) (F.contents files.old name.now)) text.items) }
    ensures cause { IfErr result (λ failure. (failure ≡ Failure.ReadFailed) ⊎ (failure ≡ Failure.OutOfMemory)) }
    ensures device_failed { InputFails result (F.failures files.old) (F.failures files.new) }
{
    files.read(alloc, name, Some(most_read()))
}

/// Opens and reads a rules file of this name. If the file makes no configuration, writes the cause, and returns the exit status.
#[tactic(auto, using(crate::proofs::OpeningLemmas::made_of, crate::proofs::OpeningLemmas::whole_of, crate::proofs::OpeningLemmas::refused_of, crate::proofs::OpeningLemmas::charge_within, crate::proofs::OpeningLemmas::not_read))]
pub(crate) fn open_file<F: ReadFiles, W: CountedWrite, E: Write>(
    alloc: Global,
    name: &str,
    files: &mut F,
    out: &mut W,
    errs: &mut E,
) -> Result<RulesFile, Status>
    ensures made { IfOk result (λ file. IsMadeFrom (F.contents files.old name.now) file.config) }
    ensures whole { IfOk result (λ file. IsInput (F.contents files.old name.now) file.text.items) }
    ensures of_text { IfOk result (λ file. IsConfigOf file.text.items file.config) }
    ensures within { IfOk result (λ file. charge_of file.config ≤ CHARGE_LIMIT) }
    ensures none_failed { OnOk result (F.failures files.new ≡ F.failures files.old) }
    ensures unwritten { OnOk result (out.new ≡ out.old) }
    ensures no_errors { OnOk result (errs.new ≡ errs.old) }
    ensures refused { IfErr result (λ status. status ≡ Status.Refused
        → RefusesRules (F.contents files.old name.now) (W.contents out.old) (W.contents out.new)) }
    ensures never_done { IfErr result (λ status. status ≡ Status.Done → ⊥) }
    ensures never_misused { IfErr result (λ status. status ≡ Status.Misused → ⊥) }
    ensures failed { IfErr result (λ status. status ≡ Status.Failed
        → EndsUnread (F.contents files.old name.now) (W.contents out.old) (W.contents out.new) (E.contents errs.old) (E.contents errs.new)) }
    ensures device_failed { IfErr result (λ status.
        EndsByOneCause (FailsUnread (F.contents files.old name.now) (W.contents out.old) (W.contents out.new) (E.contents errs.old) (E.contents errs.new))
        status (F.failures files.old) (F.failures files.new) (W.failures out.old) (W.failures out.new)) }
{
    let text = match read_text(alloc, name, files) {
        Ok(text) => text,
        Err(failure) => return Err(failure.report(errs)),
    };
    match rules(alloc, &text) {
        Ok(config) => Ok(RulesFile { text, config }),
        Err(RulesFault::Refused { line, reason }) => {
            let source = (name, text.as_slice());
            Err(refuse_file(alloc, source, line, reason, out, errs))
        }
        Err(RulesFault::OutOfMemory) => Err(Failure::OutOfMemory.report(errs)),
    }
}

/// Returns the configuration that a switch begins with: that of the rules file of this name, or one without groups. If there is
/// none, writes the cause, and returns the exit status.
pub fn opening<F: ReadFiles, W: CountedWrite, E: Write>(
    alloc: Global,
    file: Option<&str>,
    files: &mut F,
    out: &mut W,
    errs: &mut E,
) -> Result<Config, Status>
    ensures made { IfOk result (λ config. IsOpening (F.contents files.old) (option_map (λ name. name.now) file.entry) config) }
    ensures within { IfOk result (λ config. charge_of config ≤ CHARGE_LIMIT) }
    ensures none_failed { OnOk result (F.failures files.new ≡ F.failures files.old) }
    ensures unwritten { OnOk result (out.new ≡ out.old) }
    ensures no_errors { OnOk result (errs.new ≡ errs.old) }
    ensures refused { IfErr result (λ status. status ≡ Status.Refused
        → RefusesOpening (F.contents files.old) (option_map (λ name. name.now) file.entry) (W.contents out.old) (W.contents out.new)) }
    ensures never_done { IfErr result (λ status. status ≡ Status.Done → ⊥) }
    ensures never_misused { IfErr result (λ status. status ≡ Status.Misused → ⊥) }
    ensures failed { IfErr result (λ status. status ≡ Status.Failed
        → EndsUnopened (F.contents files.old) (option_map (λ name. name.now) file.entry)
        (W.contents out.old) (W.contents out.new) (E.contents errs.old) (E.contents errs.new)) }
    ensures device_failed { IfErr result (λ status. EndsByOneCause
        (FailsOpening (F.contents files.old) (option_map (λ name. name.now) file.entry)
        (W.contents out.old) (W.contents out.new) (E.contents errs.old) (E.contents errs.new)) status
        (F.failures files.old) (F.failures files.new) (W.failures out.old) (W.failures out.new)) }
{
    let Some(name) = file else {
        return Ok(Config::new(alloc));
    };
    match open_file(alloc, name, files, out, errs) {
        Ok(file) => Ok(file.config),
        Err(status) => Err(status),
    }
}
