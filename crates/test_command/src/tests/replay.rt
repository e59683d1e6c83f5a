//! The command `replay`: its writes, input that fails and output that fails.

use super::streams::{Sink, Source};
use super::{assert_wrote, run_into, run_on};
use std::alloc::Global;
use std::io::ErrorKind;
use std::process::Abort;

const SCRIPT: &str = "add 10.0.0.2:53\n\
    join 10.0.0.2:53 1 127.0.0.1:9001\n\
    join 10.0.0.2:53 2 127.0.0.1:9002\n\
    join 10.0.0.2:53 3 127.0.0.1:9003\n\
    packet 4500001d00000000401100000a0000010a000002138800350009000061\n\
    leave 10.0.0.2:53 1\n\
    leave 10.0.0.2:53 1\n\
    selector 10.0.0.2:53 asm ret #0\n\
    filter 10.0.0.2:53 3 expr udp and less 28\n\
    packet 4500001d00000000401100000a0000010a000002138800350009000061\n\
    show\n\
    sweep\n\
    sweep\n\
    \n";

const REPLIES: &str = "ok version 1\n\
    ok version 2\n\
    ok version 3\n\
    ok version 4\n\
    version 4 deliver 10.0.0.2:53 3 127.0.0.1:9003 29\n\
    ok version 5\n\
    refused G3\n\
    ok version 6\n\
    ok version 7\n\
    version 7 dropped 10.0.0.2:53 3\n\
    version 7 groups 1 members 2 charge 30\n\
    reclaimed 0 7\n\
    reclaimed 7 0\n\
    refused C1\n";

// The second script's last line ends only with the input.
const READS: [(&str, usize); 2] = [("show\nsweep\nshow\n", 1), ("show\nsweep\nshow", 2)];

#[test]
fn replies_of_one_read_are_one_write(rt: HostRuntime) {
    for (script, writes) in &READS {
        let told = run_on(&rt, rt.alloc(), &["replay"], script.as_bytes());
        assert!(rt; told.out.writes == *writes, "{script}");
    }
}

fn shows(rt: &impl Abort, alloc: Global, count: usize) -> String {
    let mut script = String::new(alloc);
    for _ in 0..count {
        script.push_str("show\n").expect(rt, "memory");
    }
    script
}

// 107 of these replies, of 38 bytes each, fit a write.
#[test]
fn writes_have_whole_lines(rt: HostRuntime) {
    let script = shows(&rt, rt.alloc(), 300);
    let told = run_on(&rt, rt.alloc(), &["replay"], script.as_bytes());
    let found = (told.out.writes, told.out.longest, told.out.whole_lines);
    assert!(rt; found == (3, 107 * 38, true));
}

const SHORT_SCRIPT: &[u8] = b"add 10.0.0.2:53\nshow\nsweep";

// The number of reads of six bytes that are made, and the replies.
const FAILED_READS: [(usize, &str); 5] = [
    (0, ""),
    (1, ""),
    (3, "ok version 1\n"),
    (4, "ok version 1\nversion 1 groups 1 members 0 charge 6\n"),
    (5, "ok version 1\nversion 1 groups 1 members 0 charge 6\n"),
];

// Each line that was read whole is answered before the read that fails.
#[test]
fn script_that_cannot_be_read_on(rt: HostRuntime) {
    for (reads, replies) in &FAILED_READS {
        let input = Source::new(SHORT_SCRIPT, 6, *reads, ErrorKind::BrokenPipe);
        let told = run_on(&rt, rt.alloc(), &["replay"], input);
        assert_wrote(&rt, &told, 3, replies, "failed E1\n");
    }
}

const SUMMARY: &str = "deliver 10.0.0.2:53 3 1\n\
    dropped 10.0.0.2:53 3 1\n\
    refused C1 1\n\
    refused G3 1\n";

fn both(rt: &impl Abort, alloc: Global) -> String {
    let mut text = String::from_str(alloc, REPLIES).expect(rt, "memory");
    text.push_str(SUMMARY).expect(rt, "memory");
    text
}

// This many writes are taken, of the two that give all.
fn assert_limited(rt: &impl Abort, alloc: Global, limit: usize, all: &str) {
    let mut out = Sink::new(alloc, limit, true);
    let mut errs = Sink::open(alloc);
    let words = ["replay", "--summary"];
    let status = run_into(rt, alloc, &words, SCRIPT.as_bytes(), &mut out, &mut errs);
    let written = out.text().unwrap_or("no text");
    assert!(rt; all.starts_with(written), "{limit}: {written}");
    let is_whole = limit == 2;
    assert!(rt; (written.len() == all.len()) == is_whole, "{limit}");
    let (wanted, line) = if is_whole {
        (0, "")
    } else {
        (3, "failed E2\n")
    };
    assert!(rt; status == Some(wanted), "{limit}");
    assert!(rt; errs.text() == Some(line), "{limit}");
}

// The output has the replies and the summary up to the write that fails. Each of the two is one write.
#[test]
fn summary_that_cannot_be_written(rt: HostRuntime) {
    let all = both(&rt, rt.alloc());
    for limit in 0..3usize {
        assert_limited(&rt, rt.alloc(), limit, &all);
    }
}

// Words, and the replies before a read that fails.
const UNSUMMED: [(&[&str], &str); 3] = [
    (&["replay", "--summary"], "version 0 malformed\n"),
    (&["replay", "--summary", "--quiet"], ""),
    (&["replay", "--quiet"], ""),
];

// After a failed read there is no summary, and with `--quiet` nothing.
#[test]
fn failed_read_has_no_summary(rt: HostRuntime) {
    for (words, replies) in &UNSUMMED {
        let input = Source::new(b"packet 45\nshow\n", 10, 1, ErrorKind::BrokenPipe);
        let told = run_on(&rt, rt.alloc(), words, input);
        assert_wrote(&rt, &told, 3, replies, "failed E1\n");
    }
}
