//! How a run of the program ends: its exit status, and why a command failed (docs/COMMANDS.md, "Statuses").

ghost use Rattle.std.specs.Prelude.{◌≡◌, ◌≢◌, IfErr, IfOk, OnErr, OnOk};
ghost use Rattle.std.specs.Io.KnownBytes.{Appends};
ghost use Rattle.std.specs.IoError.{error_kind};
ghost use Rattle.command_line.specs.Ending.{AppendsBeginning, line_of};
ghost use Rattle.command_line.specs.declared.ending.Failure.TheVariants.{OutOfMemory};

use std::alloc::AllocError;
use std::io::{self, ErrorKind, Write};

/// The exit status.
#[derive(Clone, Copy, Debug, PartialEq, Eq)]
pub enum Status {
    Done = 0,
    /// The input of the command is at fault.
    Refused = 1,
    /// The words are at fault.
    Misused = 2,
    Failed = 3,
}

/// Why a command failed. Neither its words nor its input are to blame.
#[derive(Clone, Copy, Debug, PartialEq, Eq)]
pub enum Failure {
    /// The input could not be read.
    ReadFailed,
    /// Results could not be written or flushed.
    WriteFailed,
    OutOfMemory,
    /// A worker's thread could not be started.
    SpawnFailed,
    /// A socket could not be bound.
    BindFailed,
    /// Waiting for the sockets failed.
    PollFailed,
    /// A line had no reply.
    NoAnswer,
    /// The rules of a switch changed while they were read, each time.
    RulesChanged,
}

impl Failure {
    fn line(self) -> &'static str
        ensures { result.now ≡ line_of self }
    {
        match self {
            Failure::ReadFailed => "failed E1\n",
            Failure::WriteFailed => "failed E2\n",
            Failure::OutOfMemory => "failed E3\n",
            Failure::SpawnFailed => "failed J1\n",
            Failure::BindFailed => "failed S1\n",
            Failure::PollFailed => "failed S2\n",
            Failure::NoAnswer => "failed E4\n",
            Failure::RulesChanged => "failed E5\n",
        }
    }

    /// Writes the line `failed CODE`. An error of `errs` changes nothing.
    pub fn report<E: Write>(self, errs: &mut E) -> Status
        ensures failed { result ≡ Status.Failed }
        ensures told { AppendsBeginning (E.contents errs.old) (E.contents errs.new) (line_of self) }
    {
        let _ = write_whole(self.line().as_bytes(), errs);
        let _ = errs.flush();
        Status::Failed
    }
}

/// Returns the status that a command ended with. A failure is reported.
pub fn reported<E: Write>(ended: Result<Status, Failure>, errs: &mut E) -> Status
    ensures status { IfOk ended (λ status. result ≡ status) }
    ensures untold { OnOk ended (errs.new ≡ errs.old) }
    ensures failed { OnErr ended (result ≡ Status.Failed) }
    ensures told { IfErr ended (λ failure. AppendsBeginning (E.contents errs.old) (E.contents errs.new) (line_of failure)) }
{
    match ended {
        Ok(status) => status,
        Err(failure) => failure.report(errs),
    }
}

/// Writes a whole text, or a beginning of it if a write fails. A write that was interrupted is tried again.
pub fn write_whole<W: Write>(bytes: &[u8], out: &mut W) -> Result<(), Failure>
    ensures written { OnOk result (Appends (W.contents out.old) (W.contents out.new) bytes.now) }
    ensures beginning { AppendsBeginning (W.contents out.old) (W.contents out.new) bytes.now }
    ensures failed { IfErr result (λ failure. failure ≡ Failure.WriteFailed) }
{
    let mut rest = bytes;
    for _turn in 0..u64::MAX {
        if rest.is_empty() {
            return Ok(());
        }
        match out.write(rest) {
            Ok(0) => return Err(Failure::WriteFailed),
            Ok(count) => rest = rest.split_at(count).1,
            Err(error) if error.kind() == ErrorKind::Interrupted => {}
            Err(_) => return Err(Failure::WriteFailed),
        }
    }
    Err(Failure::WriteFailed)
}

impl From<AllocError> for Failure {
    ghost from_gives = { λ _ failure. failure ≡ OutOfMemory };

    fn from(_error: AllocError) -> Failure {
        Failure::OutOfMemory
    }
}

/// Reports that an argument is not text, or that memory was refused. `error` is the error of reading the arguments.
pub fn refuse_arguments<E: Write>(error: &io::Error, errs: &mut E) -> Status
    ensures no_memory { error_kind error.now ≡ ErrorKind.OutOfMemory → result ≡ Status.Failed }
    ensures not_text { error_kind error.now ≢ ErrorKind.OutOfMemory → result ≡ Status.Misused }
{
    if error.kind() == ErrorKind::OutOfMemory {
        return Failure::OutOfMemory.report(errs);
    }
    let _ = errs.write_all(b"error: an argument is not valid UTF-8\n");
    Status::Misused
}
