//! Streams that fail: each read and each write in turn, and the flush. Commands that do not read.

use super::streams::{Sink, Source};
use super::{FIRST, SAMPLE_PACKET, assert_wrote, run_into, run_on};
use std::alloc::Global;
use std::io::{ErrorKind, Read};
use std::process::Abort;

const G8: &str = "\
G8: Memory for the new configuration was refused.
No command prints this code: a call of the libraries returns it. If memory is
refused, the program prints `failed E3` instead.
";

const PROGRAM: &[u8] = b"ldb [9]; jeq #17,0,1; ret #65535; ret #0";

// A capture of raw IP with one packet of 20 bytes.
const CAPTURE: &[u8] = b"\xd4\xc3\xb2\xa1\x02\0\x04\0\0\0\0\0\0\0\0\0\xff\xff\0\0e\0\0\0\
\0\0\0\0\0\0\0\0\x14\0\0\0\x14\0\0\0E\0\0\x14\0\0\0\0@\x11\0\0\n\0\0\x01\n\0\0\x02";

// One that is cut in its first record.
const CUT_CAPTURE: &[u8] = b"\xd4\xc3\xb2\xa1\x02\0\x04\0\0\0\0\0\0\0\0\0\xff\xff\0\0e\0\0\0\0";
// One of link type 105, which is not supported.
const WIRELESS: &[u8] = b"\xd4\xc3\xb2\xa1\x02\0\x04\0\0\0\0\0\0\0\0\0\xff\xff\0\0i\0\0\0";

// One of raw IP with a datagram to port 53, whose payload is one byte.
const DATAGRAM: &[u8] = b"\xd4\xc3\xb2\xa1\x02\0\x04\0\0\0\0\0\0\0\0\0\xff\xff\0\0e\0\0\0\
\0\0\0\0\0\0\0\0\x1d\0\0\0\x1d\0\0\0E\0\0\x1d\0\0\0\0@\x11\0\0\n\0\0\x01\n\0\0\x02\x13\x88\05\0\t\0\0a";

// For each command a result, and for each that refuses a refusal.
const COMMANDS: [(&[&str], &[u8]); 21] = [
    (&["first"], b""),
    (&["--help"], b""),
    (&["--version"], b""),
    (&["check"], PROGRAM),
    (&["check"], b"foo"),
    (&["compile", "port 53"], b""),
    (&["compile", "udp and"], b""),
    (&["run", "--packet", SAMPLE_PACKET], PROGRAM),
    (&["run", "--packet", "0"], PROGRAM),
    (&["run", "--packet", SAMPLE_PACKET, "--expr", "ip"], b""),
    (
        &[
            "pack",
            "--from",
            "10.0.0.1:5000",
            "--to",
            "10.0.0.2:53",
            "--text",
            "a",
        ],
        b"",
    ),
    (&["pack", "--from", "10.0.0.1", "--to", "10.0.0.2:53"], b""),
    (&["explain", "refused", "G3"], b""),
    (&["explain", "g3"], b""),
    (&["spread", "--buckets", "2", "--by", "ports", "7=1"], b""),
    (&["replay"], b"add 10.0.0.2:53\nshow\n"),
    (&["packets"], CAPTURE),
    (&["packets", "--unwrap", "53"], DATAGRAM),
    (&["packets"], CUT_CAPTURE),
    (&["packets"], WIRELESS),
    (&["packets"], b"no capture at all, but a text"),
];

// The command fails and reports this line.
fn expect_failure<R: Read + Drop>(
    rt: &impl Abort,
    alloc: Global,
    words: &[&str],
    input: R,
    out: &mut Sink,
    line: &str,
) {
    let mut errs = Sink::open(alloc);
    let status = run_into(rt, alloc, words, input, out, &mut errs);
    let is_told = status == Some(3) && errs.text() == Some(line);
    assert!(rt; is_told, "{words:?} after {} writes", out.writes);
}

fn expect_failed_writes(
    rt: &impl Abort,
    alloc: Global,
    words: &[&str],
    input: &[u8],
    whole: &Sink,
) {
    assert!(rt; whole.writes > 0);
    // The write after this many fails.
    for limit in 0..whole.writes {
        let mut out = Sink::new(alloc, limit, true);
        expect_failure(rt, alloc, words, input, &mut out, "failed E2\n");
    }
    // All is written, and the flush fails.
    let mut out = Sink::new(alloc, whole.writes, false);
    expect_failure(rt, alloc, words, input, &mut out, "failed E2\n");
    assert!(rt; out.text() == whole.text(), "{words:?} at the flush");
}

#[test]
fn failed_write_is_e2(rt: HostRuntime) {
    for (words, input) in &COMMANDS {
        let whole = run_on(&rt, rt.alloc(), words, *input);
        expect_failed_writes(&rt, rt.alloc(), words, input, &whole.out);
    }
}

// The command reads the whole program in several reads and prints this text. Each of the reads fails in turn; that is
// reported, and nothing else.
fn expect_failed_reads(rt: &impl Abort, alloc: Global, words: &[&str], text: &str) {
    let mut whole = Source::open(PROGRAM, 7);
    let told = run_on(rt, alloc, words, &mut whole);
    assert_wrote(rt, &told, 0, text, "");
    assert!(rt; whole.reads > 5);
    for limit in 0..whole.reads {
        let input = Source::new(PROGRAM, 7, limit, ErrorKind::BrokenPipe);
        let mut out = Sink::open(alloc);
        expect_failure(rt, alloc, words, input, &mut out, "failed E1\n");
        assert!(rt; out.text() == Some(""), "after {limit} reads");
    }
}

#[test]
fn failed_read_is_e1(rt: HostRuntime) {
    let alloc = rt.alloc();
    expect_failed_reads(&rt, alloc, &["check"], "accepted 4\n");
    let run = ["run", "--packet", SAMPLE_PACKET];
    expect_failed_reads(&rt, alloc, &run, "value 65535 steps 3 kept 29\n");
}

// A read that fails since the system lacks memory is a failed read, too. E3 is for memory that the command itself is refused.
#[test]
fn read_without_memory_is_e1(rt: HostRuntime) {
    let commands: [&[&str]; 4] = [
        &["check"],
        &["run", "--packet", SAMPLE_PACKET],
        &["replay"],
        &["packets"],
    ];
    for words in &commands {
        let input = Source::new(PROGRAM, 7, 1, ErrorKind::OutOfMemory);
        let mut out = Sink::open(rt.alloc());
        expect_failure(&rt, rt.alloc(), words, input, &mut out, "failed E1\n");
    }
}

// The output of commands that read no input, after their status.
const UNREAD: [(&[&str], u8, &str); 6] = [
    (&["first"], 0, FIRST),
    (&["--version"], 0, "dswitch 0.3.0\n"),
    (&["compile", ""], 1, "refused P1 0\n"),
    (&["run", "--packet", "", "--expr", "ip"], 0, "reject\n"),
    (&["explain", "G8"], 0, G8),
    (
        &["spread", "--buckets", "1", "--by", "addresses", "7=1"],
        0,
        "ld [12]\nmul #2654435761\nret #0\n",
    ),
];

// The command ends with this status, prints this text and reads nothing.
fn assert_unread(rt: &impl Abort, alloc: Global, words: &[&str], status: u8, text: &str) {
    let mut input = Source::open(PROGRAM, 7);
    let told = run_on(rt, alloc, words, &mut input);
    assert_wrote(rt, &told, status, text, "");
    assert!(rt; input.reads == 0, "{text}");
}

#[test]
fn other_commands_read_nothing(rt: HostRuntime) {
    for (words, status, text) in &UNREAD {
        assert_unread(&rt, rt.alloc(), words, *status, text);
    }
}

// The digit 4, repeated, and the last one.
fn digits(rt: &impl Abort, alloc: Global, fours: usize, last: char) -> String {
    let mut text = String::new(alloc);
    for _ in 0..fours {
        text.push('4').expect(rt, "memory");
    }
    text.push(last).expect(rt, "memory");
    text
}

// Both are longer than a word of a command line may be. The first has no digit at its end.
const LONG: [(char, &str); 2] = [('g', "refused C1\n"), ('4', "refused C3\n")];

// The packet is refused by this line before the program is read, and before the expression is looked at: it is none.
#[test]
fn bad_hex_comes_first(rt: HostRuntime) {
    for (last, line) in &LONG {
        let packet = digits(&rt, rt.alloc(), 131_071, *last);
        let packet = packet.as_str();
        assert_unread(&rt, rt.alloc(), &["run", "--packet", packet], 1, line);
        let words = ["run", "--packet", packet, "--expr", "udp and"];
        assert_unread(&rt, rt.alloc(), &words, 1, line);
    }
}

// Words, how many writes of results are taken, and the status.
const STATUSES: [(&[&str], usize, u8); 6] = [
    (&["first"], usize::MAX, 0),
    (&["--help"], usize::MAX, 0),
    (&["second"], usize::MAX, 2),
    (&["first"], 0, 3),
    (&["run", "--packet", "x"], usize::MAX, 1),
    (&["check"], 0, 3),
];

// At most this many writes of errors are taken.
#[test]
fn failing_errors_change_no_status(rt: HostRuntime) {
    for (words, limit, wanted) in &STATUSES {
        for taken in 0..2 {
            let mut out = Sink::new(rt.alloc(), *limit, true);
            let mut errs = Sink::new(rt.alloc(), taken, false);
            let status = run_into(&rt, rt.alloc(), words, PROGRAM, &mut out, &mut errs);
            assert!(rt;
                status == Some(*wanted),
                "{words:?}, {taken} writes of errors"
            );
        }
    }
}
