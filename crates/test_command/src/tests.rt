//! The program's commands over streams in memory: the cases that no session on the built program shows.

mod failures;
mod flood;
mod replay;
mod streams;
mod words;

use command_line::{Subcommand, read_words};
use command_returning::tool;
use command_waiting::run_waiting;
use std::alloc::Global;
use std::fs::Files;
use std::io;
use std::io::Read;
use std::net::Net;
use std::process::Abort;
use std::sync::Wait;
use std::thread::Threads;
use std::time::Clock;
use streams::{Sink, Source};

/// The sample packet: 29 bytes of UDP over IPv4 from 10.0.0.1:5000 to 10.0.0.2:53, with the payload `a`.
const SAMPLE_PACKET: &str = "4500001d00000000401100000a0000010a000002138800350009000061";

const FIRST: &str = "version 0 value 65535 steps 3 kept 29\nversion 1 value 0 steps 1 kept 0\n";

/// The status of a command, and its output.
#[derive(Drop)]
struct Outcome {
    status: Option<u8>,
    out: Sink,
    errs: Sink,
}

impl Outcome {
    fn open(alloc: Global) -> Outcome {
        Outcome {
            status: None,
            out: Sink::open(alloc),
            errs: Sink::open(alloc),
        }
    }
}

fn owned(rt: &impl Abort, alloc: Global, words: &[&str]) -> Vec<String> {
    let mut owned = Vec::new(alloc);
    for word in words {
        let word = String::from_str(alloc, word).expect(rt, "memory");
        owned.push(word).expect(rt, "memory");
    }
    owned
}

/// Runs the words on an input and these outputs, and returns the status.
fn run_into<R: Read + Drop>(
    rt: &impl Abort,
    alloc: Global,
    words: &[&str],
    input: R,
    out: &mut Sink,
    errs: &mut Sink,
) -> Option<u8> {
    tool(alloc, &owned(rt, alloc, words), input, out, errs)
}

/// Runs the words on an input, and returns the status and the output.
fn run_on<R: Read + Drop>(rt: &impl Abort, alloc: Global, words: &[&str], input: R) -> Outcome {
    let mut told = Outcome::open(alloc);
    told.status = run_into(rt, alloc, words, input, &mut told.out, &mut told.errs);
    told
}

/// The words are left to `main`, and nothing is written.
fn assert_left(rt: &impl Abort, alloc: Global, words: &[&str], input: &[u8]) {
    let told = run_on(rt, alloc, words, input);
    let writes = (told.out.writes, told.errs.writes);
    assert!(rt; told.status == None && writes == (0, 0), "{words:?}");
}

/// Runs words that are left to `main`, as it does, and returns the status and the output. Before they are left nothing
/// is written.
fn run_as_main<R: Threads + Wait + Net + Clock + Files + Sync + Abort>(
    rt: &R,
    alloc: Global,
    words: &[&str],
    input: Source<'_>,
) -> Outcome {
    assert_left(rt, alloc, words, b"");
    let words = owned(rt, alloc, words);
    let mut told = Outcome::open(alloc);
    if let Ok(Subcommand::Waiting(command)) = read_words(alloc, &words) {
        let log = io::sink();
        let ended = run_waiting(
            rt,
            alloc,
            command,
            input,
            log,
            false,
            &mut told.out,
            &mut told.errs,
        );
        told.status = Some(ended as u8);
    }
    told
}

/// The command ended with this status, and wrote this text and these errors.
fn assert_wrote(rt: &impl Abort, told: &Outcome, status: u8, text: &str, errs: &str) {
    assert!(rt; told.status == Some(status), "{text}{errs}");
    assert!(rt; told.out.text() == Some(text), "{text}");
    assert!(rt; told.errs.text() == Some(errs), "{errs}");
}
