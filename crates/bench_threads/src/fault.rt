//! The end of the program: its exit status, and why it failed.

ghost use Rattle.std.specs.Prelude.{◌≡◌};
ghost use Rattle.bench_threads.specs.declared.fault.Fault.TheVariants.{OutOfMemory};

use read_section::WORKERS;
use std::alloc::AllocError;
use std::io::Write;

/// The exit status.
#[derive(Clone, Copy, Debug, PartialEq, Eq)]
pub enum Status {
    Done = 0,
    /// The words are wrong.
    Misused = 2,
    Failed = 3,
}

/// Why no line was written.
#[derive(Clone, Copy, Debug, PartialEq, Eq, Drop)]
pub enum Fault {
    /// A thread could not be started.
    SpawnFailed,
    OutOfMemory,
    /// The clock could not be read.
    ClockFailed,
    /// The line could not be written.
    WriteFailed,
}

impl From<AllocError> for Fault {
    ghost from_gives = { λ _ fault. fault ≡ OutOfMemory };

    fn from(_error: AllocError) -> Fault {
        Fault::OutOfMemory
    }
}

impl Fault {
    fn text(self) -> &'static str {
        match self {
            Fault::SpawnFailed => "a thread could not be started",
            Fault::OutOfMemory => "memory was refused",
            Fault::ClockFailed => "the clock could not be read",
            Fault::WriteFailed => "the line could not be written",
        }
    }

    /// Reports the fault in one line. An error of `errs` is ignored.
    pub fn report<E: Write>(self, errs: &mut E) -> Status
        ensures { result ≡ Status.Failed }
    {
        let _ = writeln!(errs, "error: {}", self.text());
        Status::Failed
    }
}

/// Writes one line that says which words the program takes. An error of `errs` is ignored.
pub fn refuse_words<E: Write>(errs: &mut E) -> Status
    ensures { result ≡ Status.Misused }
{
    let _ = writeln!(
        errs,
        "error: usage: bench_threads THREADS ROUNDS spread|side-by-side [--time], THREADS from 1 to {WORKERS}, ROUNDS to {}",
        u32::MAX
    );
    Status::Misused
}
