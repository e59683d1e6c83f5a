//! Lines sent over a wire in memory.

use super::memory_wire::{
    Arrival, SWITCH, told_change, told_input, told_input_change, told_into, told_lines,
};
use command_line::Failure;
use command_streams::FromRead;
use control_client::{LONGEST_LINE, Peer, WordLines};
use std::alloc::Global;
use std::io;
use std::io::{ErrorKind, Write};
use std::process::Abort;

// Each write of it fails.
#[derive(Drop)]
struct Full;

impl Write for Full {
    fn write(&mut self, _buf: &[u8]) -> io::Result<usize> {
        Err(io::Error::from(ErrorKind::StorageFull))
    }

    fn flush(&mut self) -> io::Result<()> {
        Ok(())
    }
}

// Each flush of it fails, and no write.
#[derive(Drop)]
struct Unflushed;

impl Write for Unflushed {
    fn write(&mut self, buf: &[u8]) -> io::Result<usize> {
        Ok(buf.len())
    }

    fn flush(&mut self) -> io::Result<()> {
        Err(io::Error::from(ErrorKind::BrokenPipe))
    }
}

// Lines, the replies that come, and then the result, the lines that were sent and the text that was printed.
struct Row {
    lines: &'static [&'static str],
    arrivals: &'static [Arrival],
    ended: Result<bool, Failure>,
    sent: &'static str,
    printed: &'static str,
}

// The longest reply of a switch.
const TOTALS: &str = "\
malformed 18446744073709551615 nogroup 18446744073709551615 nomembers 18446744073709551615 \
dropped 18446744073709551615 delivered 18446744073709551615 sendfailed 18446744073709551615 \
receivefailed 18446744073709551615";

const TOTALS_LINE: &str = "\
malformed 18446744073709551615 nogroup 18446744073709551615 nomembers 18446744073709551615 \
dropped 18446744073709551615 delivered 18446744073709551615 sendfailed 18446744073709551615 \
receivefailed 18446744073709551615\n";

const ROWS: [Row; 10] = [
    Row {
        lines: &["add 10.0.0.2:53", "show"],
        arrivals: &[
            Arrival::Answer("ok version 1"),
            Arrival::Answer("version 1 groups 1 members 0 charge 6"),
        ],
        ended: Ok(false),
        sent: "add 10.0.0.2:53\nshow\n",
        printed: "ok version 1\nversion 1 groups 1 members 0 charge 6\n",
    },
    Row {
        lines: &["", "show"],
        arrivals: &[Arrival::Answer("refused C1"), Arrival::Answer("")],
        ended: Ok(true),
        sent: "\nshow\n",
        printed: "refused C1\n\n",
    },
    Row {
        lines: &["all 1", "add 10.0.0.2:53", "# no comment", "all 2", "show"],
        arrivals: &[
            Arrival::Answer("ok version 1"),
            Arrival::Answer("refused C1"),
            Arrival::Answer("refused C1"),
        ],
        ended: Ok(true),
        sent: "all 1\nadd 10.0.0.2:53\n# no comment\nall 2\nshow\n",
        printed: "ok version 1\nrefused C1\nrefused C1\n",
    },
    Row {
        lines: &["totals", "stop"],
        arrivals: &[Arrival::Answer("failed E3"), Arrival::Answer("ok stop")],
        ended: Ok(true),
        sent: "totals\nstop\n",
        printed: "failed E3\nok stop\n",
    },
    Row {
        lines: &["show"],
        arrivals: &[
            Arrival::Foreign("refused C1"),
            Arrival::Foreign("ok stop"),
            Arrival::Answer("refuse"),
        ],
        ended: Ok(false),
        sent: "show\n",
        printed: "refuse\n",
    },
    Row {
        lines: &["add 10.0.0.2:53", "show", "sweep"],
        arrivals: &[
            Arrival::Answer("ok version 1"),
            Arrival::Silence,
            Arrival::Answer("version 1 groups 1 members 0 charge 6"),
        ],
        ended: Err(Failure::NoAnswer),
        sent: "add 10.0.0.2:53\nshow\n",
        printed: "ok version 1\n",
    },
    Row {
        lines: &["show", "sweep"],
        arrivals: &[Arrival::Foreign("ok stop"), Arrival::Silence],
        ended: Err(Failure::NoAnswer),
        sent: "show\n",
        printed: "",
    },
    Row {
        lines: &["show", "sweep"],
        arrivals: &[Arrival::Answer("reclaimed 0 0"), Arrival::Broken],
        ended: Err(Failure::PollFailed),
        sent: "show\nsweep\n",
        printed: "reclaimed 0 0\n",
    },
    Row {
        lines: &["totals"],
        arrivals: &[Arrival::Answer(TOTALS)],
        ended: Ok(false),
        sent: "totals\n",
        printed: TOTALS_LINE,
    },
    Row {
        lines: &[],
        arrivals: &[],
        ended: Ok(false),
        sent: "",
        printed: "",
    },
];

#[test]
fn lines_are_told_in_order(rt: HostRuntime) {
    for row in &ROWS {
        let mut lines = WordLines::new(row.lines);
        let told = told_lines(rt.alloc(), SWITCH, &mut lines, row.arrivals, &mut Full);
        told.expect(&rt, row.ended, row.sent, row.printed);
    }
}

// An input, and its lines that are sent.
const INPUTS: [(&str, &str); 12] = [
    ("", ""),
    ("\n", ""),
    ("show", "show\n"),
    ("show\n", "show\n"),
    ("show\n\nsweep", "show\nsweep\n"),
    ("show\r\nsweep\n", "show\nsweep\n"),
    ("show\r\r\n \t\r\n", "show\r\n"),
    ("# first\n\t # second\r\nshow # third\n", "show # third\n"),
    (
        "all 2\nadd 10.0.0.2:53\nremove 10.0.0.2:53\nshow",
        "all 2\nadd 10.0.0.2:53\nremove 10.0.0.2:53\nshow\n",
    ),
    (
        "at 0 anew 2\r\n# first\nadd 10.0.0.2:53\r\n\nremove 10.0.0.2:53\r\nanew 0\n",
        "at 0 anew 2\nadd 10.0.0.2:53\nremove 10.0.0.2:53\nanew 0\n",
    ),
    // The block has fewer lines than it says; a bad head takes none.
    ("all 3\nshow\nsweep\n", "all 3\nshow\nsweep\n"),
    ("all 0\nall 01\n", "all 0\nall 01\n"),
];

// An input, and the one change that it is sent as.
const CHANGES: [(&str, &str); 4] = [
    ("", "all 0\n"),
    ("# nothing\n\n", "all 0\n"),
    ("add 10.0.0.2:53", "all 1\nadd 10.0.0.2:53\n"),
    (
        "# first\r\nadd 10.0.0.2:53\r\n\nall 2\nremove 10.0.0.2:53",
        "all 3\nadd 10.0.0.2:53\nall 2\nremove 10.0.0.2:53\n",
    ),
];

const THREE: [Arrival; 3] = [
    Arrival::Answer("ok"),
    Arrival::Answer("ok"),
    Arrival::Answer("ok"),
];

#[test]
fn input_is_cut_into_lines(rt: HostRuntime) {
    for (input, sent) in &INPUTS {
        let mut read = FromRead::new(input.as_bytes());
        let told = told_input(rt.alloc(), SWITCH, &mut read, &THREE, &mut Full);
        assert!(rt; told.ended == Ok(false), "{input}");
        assert!(rt; told.sent.as_slice() == sent.as_bytes(), "{input}");
    }
}

#[test]
fn input_is_one_change(rt: HostRuntime) {
    for (input, sent) in &CHANGES {
        let mut read = FromRead::new(input.as_bytes());
        let told = told_input_change(rt.alloc(), &mut read, &THREE, &mut Full);
        told.expect(&rt, Ok(false), sent, "ok\n");
    }
}

// Words are sent as they are: none is skipped, and no CR is dropped.
#[test]
fn words_are_one_change(rt: HostRuntime) {
    let mut words = WordLines::new(&["# first", "add 10.0.0.2:53\r", ""]);
    let told = told_change(rt.alloc(), &mut words, &THREE, &mut Full);
    told.expect(
        &rt,
        Ok(false),
        "all 3\n# first\nadd 10.0.0.2:53\r\n\n",
        "ok\n",
    );
}

// Each reply is flushed before the next line is sent.
#[test]
fn unflushed_reply_is_e2(rt: HostRuntime) {
    let mut words = WordLines::new(&["show", "sweep"]);
    let (ended, sent) = told_into(
        rt.alloc(),
        SWITCH,
        &mut words,
        &THREE,
        &mut Unflushed,
        &mut Full,
    );
    assert!(rt; ended == Err(Failure::WriteFailed));
    assert!(rt; sent.as_slice() == b"show\n".as_slice());
}

// A line that is longer than a datagram may carry, and then these.
fn long_line(rt: &impl Abort, alloc: Global, rest: &[u8]) -> Vec<u8> {
    let mut input = vec![in alloc; b'a'; LONGEST_LINE + 1].expect(rt, "memory");
    input.extend_from_slice(rest).expect(rt, "memory");
    input
}

#[test]
fn long_line_is_not_sent(rt: HostRuntime) {
    let input = long_line(&rt, rt.alloc(), b"\nshow\n");
    let mut read = FromRead::new(input.as_slice());
    let told = told_input(rt.alloc(), SWITCH, &mut read, &THREE, &mut Full);
    told.expect(&rt, Ok(true), "show\n", "refused C2\nok\n");
}

fn long_line_is_sent(rt: &impl Abort, alloc: Global) {
    let input = long_line(rt, alloc, b"\n");
    let mut read = FromRead::new(input.as_slice());
    let told = told_input(alloc, Peer::Unix, &mut read, &THREE, &mut Full);
    assert!(rt; told.ended == Ok(false));
    assert!(rt; told.sent.as_slice() == input.as_slice());
}

// On a stream a longer line is one request, too. A line with an LF in it, and a block with fewer lines than it says, are none.
#[test]
fn stream_carries_other_lines(rt: HostRuntime) {
    long_line_is_sent(&rt, rt.alloc());
    let mut words = WordLines::new(&["show\nstop", "all 1", "show", "all 0", "all 2", "show"]);
    let told = told_lines(rt.alloc(), Peer::Unix, &mut words, &THREE, &mut Full);
    told.expect(
        &rt,
        Ok(true),
        "all 1\nshow\nall 0\n",
        "refused C1\nok\nok\nrefused C1\n",
    );
}
