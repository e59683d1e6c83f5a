//! The program `dswitch`: its arguments, its standard streams and its exit status (docs/COMMANDS.md).
#![tactic(auto)]

ghost use Rattle.std.specs.Prelude.{◌≡◌, IfSome, Ok};

use command_line::{Failure, refuse_arguments, wants_control, with_control};
use command_returning::run_returning;
use command_waiting::run_waiting;
use std::env::{Env, VarError};
use std::fs::File;
use std::io::{ErrorKind, IsTerminal, LineWriter};
use std::os::fd::AsRawFd;
use std::process::ExitCode;
use std::{env, io};

// The words after the program's name, with the address of control from the environment if they lack it.
fn arguments<R: Env + AllocGlobal>(rt: &R) -> io::Result<Vec<String>> {
    let words: Vec<String> = env::args(rt)?.skip(1).collect(rt.alloc())?;
    if !wants_control(&words) {
        return Ok(words);
    }
    match env::var(rt, "DSWITCH_CONTROL") {
        Ok(address) if !address.is_empty() => Ok(with_control(rt.alloc(), words, address)?),
        Ok(_) | Err(VarError::NotPresent) => Ok(words),
        Err(VarError::NotUnicode) => Err(io::Error::from(ErrorKind::InvalidInput)),
        Err(VarError::OutOfMemory) => Err(io::Error::from(ErrorKind::OutOfMemory)),
    }
}

// The root directory, if it is opened at a standard descriptor.
fn at_standard<F: AsRawFd + Drop>(opened: io::Result<F>) -> Option<F>
    ensures { IfSome result (λ file. opened ≡ Ok file) }
{
    let file = opened.ok()?;
    if file.as_raw_fd() <= 2 {
        Some(file)
    } else {
        None
    }
}

fn main(rt: HostRuntime) -> ExitCode {
    // A standard descriptor that the caller closed would be that of the first socket, and results would go to a switch. A directory
    // takes its place: it can be neither read nor written, also if it is opened again as /dev/stdin.
    let _first = at_standard(File::open(&rt, "/"));
    let _second = at_standard(File::open(&rt, "/"));
    let _third = at_standard(File::open(&rt, "/"));
    let mut errs = rt.stderr();
    let words = match arguments(&rt) {
        Ok(words) => words,
        Err(error) => return ExitCode::from(refuse_arguments(&error, &mut errs) as u8),
    };
    let Ok(mut out) = LineWriter::new(rt.alloc(), rt.stdout()) else {
        return ExitCode::from(Failure::OutOfMemory.report(&mut errs) as u8);
    };
    let alloc = rt.alloc();
    let status = match run_returning(alloc, words.as_slice(), rt.stdin(), &mut out, &mut errs) {
        Ok(status) => status,
        Err(command) => {
            let (input, log) = (rt.stdin(), rt.stderr());
            let terminal = rt.stdout().is_terminal();
            run_waiting(
                &rt, alloc, command, input, log, terminal, &mut out, &mut errs,
            ) as u8
        }
    };
    ExitCode::from(status)
}
