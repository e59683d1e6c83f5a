//! The program `bench_threads`: read sections in threads, on one table (docs/PERFORMANCE.md, "Sections in threads").
//!
//! Its words are the number of threads, the number of rounds of each, `spread` or `side-by-side`, and `--time` or
//! nothing. It prints one line: the threads, the placing of their workers, the number of all sections and, with
//! `--time`, the nanoseconds from before the first thread is started until after the last has ended. It exits with 2 if
//! its words are wrong, and with 3 if it failed.
#![tactic(auto)]

mod fault;
mod jobs;
mod line;
mod placing;
mod request;
mod running;
mod sections;
mod threads;

use fault::{Fault, refuse_words};
use running::run;
use std::env::Env;
use std::io::ErrorKind;
use std::process::ExitCode;
use std::{env, io};

// The words after the program's name.
fn arguments<R: Env + AllocGlobal>(rt: &R) -> io::Result<Vec<String>> {
    Ok(env::args(rt)?.skip(1).collect(rt.alloc())?)
}

fn main(rt: HostRuntime) -> ExitCode {
    let mut errs = rt.stderr();
    let status = match arguments(&rt) {
        Ok(words) => run(
            &rt,
            rt.alloc(),
            words.as_slice(),
            &mut rt.stdout(),
            &mut errs,
        ),
        Err(error) if error.kind() == ErrorKind::OutOfMemory => {
            Fault::OutOfMemory.report(&mut errs)
        }
        Err(_) => refuse_words(&mut errs),
    };
    ExitCode::from(status as u8)
}
