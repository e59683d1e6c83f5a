//! The text for people about the requests that were not done.

use super::memory_wire::{Arrival, SWITCH, told_input, told_input_change, told_lines};
use command_line::Failure;
use command_streams::FromRead;
use control_client::WordLines;

// An input, the replies, and the text about its requests that were not done.
struct Shown {
    input: &'static str,
    arrivals: &'static [Arrival],
    ended: Result<bool, Failure>,
    shown: &'static str,
}

const SHOWN: [Shown; 5] = [
    // Lines that are skipped count, in a block too.
    Shown {
        input: "# first\n\nadd 10.0.0.2:53\nall 2\r\n# in it\nshow\n\nshow\nstop",
        arrivals: &[
            Arrival::Answer("refused G2"),
            Arrival::Answer("refused C1 line 2"),
            Arrival::Answer("failed E3"),
        ],
        ended: Ok(true),
        shown: "3: refused G2\n4 6 8: refused C1 line 2\n9: failed E3\n",
    },
    // A request that was done is not shown, nor is a word that only begins so.
    Shown {
        input: "show\nsweep\nadd 10.0.0.2:53\nshow",
        arrivals: &[
            Arrival::Answer("ok version 1"),
            Arrival::Answer("refused"),
            Arrival::Answer("refused M1 7"),
            Arrival::Answer("failed"),
        ],
        ended: Ok(true),
        shown: "3: refused M1 7\n",
    },
    // The numbers of a block are not those of the request after it.
    Shown {
        input: "all 1\nshow\nshow",
        arrivals: &[Arrival::Answer("ok"), Arrival::Answer("refused C1")],
        ended: Ok(true),
        shown: "3: refused C1\n",
    },
    // Text that was shown stays if a later request has no reply.
    Shown {
        input: "show\nshow\nshow",
        arrivals: &[Arrival::Answer("refused C1"), Arrival::Silence],
        ended: Err(Failure::NoAnswer),
        shown: "1: refused C1\n",
    },
    Shown {
        input: "all 3\nshow\n\nshow",
        arrivals: &[Arrival::Answer("refused C1")],
        ended: Ok(true),
        shown: "1 2 4: refused C1\n",
    },
];

#[test]
fn refused_requests_are_shown(rt: HostRuntime) {
    for row in &SHOWN {
        let mut read = FromRead::new(row.input.as_bytes());
        let mut errs = Vec::new(rt.alloc());
        let told = told_input(rt.alloc(), SWITCH, &mut read, row.arrivals, &mut errs);
        assert!(rt; told.ended == row.ended);
        assert!(rt; errs.as_slice() == row.shown.as_bytes(), "{}", row.shown);
    }
}

const CHANGE: &[u8] = b"# first\n\nadd 10.0.0.2:53\r\n \t\nleave 10.0.0.2:53 7";

const CHANGE_REFUSED: [Arrival; 1] = [Arrival::Answer("refused G3 line 2")];

// If all lines are one change, the numbers are those of the lines that were sent.
#[test]
fn refused_change_is_shown(rt: HostRuntime) {
    let mut read = FromRead::new(CHANGE);
    let mut errs = Vec::new(rt.alloc());
    let told = told_input_change(rt.alloc(), &mut read, &CHANGE_REFUSED, &mut errs);
    assert!(rt; told.ended == Ok(true));
    assert!(rt; told.printed.as_slice() == b"refused G3 line 2\n".as_slice());
    assert!(rt; errs.as_slice() == b"- 3 5: refused G3 line 2\n".as_slice());
}

const WORDS_REFUSED: [Arrival; 3] = [
    Arrival::Answer("ok"),
    Arrival::Answer("refused C1"),
    Arrival::Answer("refused C1 line 1"),
];

// Words count from 1.
#[test]
fn refused_words_are_shown(rt: HostRuntime) {
    let mut words = WordLines::new(&["show", "", "all 1", "# no comment"]);
    let mut errs = Vec::new(rt.alloc());
    let told = told_lines(rt.alloc(), SWITCH, &mut words, &WORDS_REFUSED, &mut errs);
    assert!(rt; told.ended == Ok(true));
    assert!(rt; errs.as_slice() == b"2: refused C1\n3 4: refused C1 line 1\n".as_slice());
}
