//! The text for people about a file that is refused.

use command_explain::{FaultPlace, file_fault_text, line_fault_text};
use std::alloc::Global;
use std::process::Abort;

// A line, the column of its fault, the code, and the text.
const SHOWN: [(&[u8], usize, &str, &str); 6] = [
    (
        b"filter 10.0.0.2:53 1 expr udp dst port 53 or",
        45,
        "P1",
        "rules.txt:7:45: P1: The text is no filter expression.\nfilter 10.0.0.2:53 1 expr udp dst port 53 or\n                                            ^\n",
    ),
    (
        b"add",
        1,
        "C1",
        "rules.txt:7:1: C1: The text is malformed.\nadd\n^\n",
    ),
    // The first sentence alone, and the caret after the text of four bytes.
    (
        b"\t\0\x7fx\xff",
        4,
        "P4",
        "rules.txt:7:4: P4: A network's prefix does not fit.\n\\x09\\x00\\x7fx\\xff\n            ^\n",
    ),
    (
        b"add",
        9,
        "K2",
        "rules.txt:7:9: K2: The program has another number of instructions than its first line says.\nadd\n   ^\n",
    ),
    (
        b"",
        1,
        "V10",
        "rules.txt:7:1: V10: The program does not end in a return.\n\n^\n",
    ),
    (b"x", 1, "Z1", "rules.txt:7:1: Z1\nx\n^\n"),
];

#[test]
fn faults_of_lines(rt: HostRuntime) {
    for (line, column, code, shown) in &SHOWN {
        let place = FaultPlace {
            file: "rules.txt",
            number: 7,
            column: *column,
            line: *line,
        };
        let text = line_fault_text(rt.alloc(), place, code).expect(&rt, "memory");
        assert!(rt; text.as_slice() == shown.as_bytes(), "{code}");
    }
}

// For a line of 300 bytes: the column of the fault, the first byte that is shown, and the number of spaces before the
// caret.
const CUT: [(usize, u8, u32); 5] = [
    (1, b'a', 0),
    (129, b'a', 128),
    (130, b'b', 128),
    (200, b's', 155),
    (301, b's', 256),
];

// Byte i of the line is the letter i modulo 26.
fn long_line(rt: &impl Abort, alloc: Global) -> Vec<u8> {
    let mut line = Vec::new(alloc);
    for place in 0..300u32 {
        line.push(b'a' + (place % 26) as u8).expect(rt, "memory");
    }
    line
}

fn caret_after(rt: &impl Abort, alloc: Global, spaces: u32) -> Vec<u8> {
    let mut text = Vec::new(alloc);
    text.push(b'\n').expect(rt, "memory");
    for _space in 0..spaces {
        text.push(b' ').expect(rt, "memory");
    }
    text.extend_from_slice(b"^\n".as_slice())
        .expect(rt, "memory");
    text
}

// Of the line 256 bytes are shown, from this first one on.
fn is_cut(text: &[u8], heading: &[u8], first: u8, ending: &[u8]) -> bool {
    let shown = text.len().saturating_sub(heading.len());
    text.starts_with(heading)
        && text.ends_with(ending)
        && shown.saturating_sub(ending.len()) == 256
        && text.get(heading.len()).copied() == Some(first)
}

#[test]
fn long_lines_are_cut(rt: HostRuntime) {
    let line = long_line(&rt, rt.alloc());
    for (column, first, spaces) in &CUT {
        let place = FaultPlace {
            file: "f",
            number: 1,
            column: *column,
            line: &line,
        };
        let text = line_fault_text(rt.alloc(), place, "Z1").expect(&rt, "memory");
        let heading = format!(in rt.alloc(); "f:1:{column}: Z1\n").expect(&rt, "memory");
        let ending = caret_after(&rt, rt.alloc(), *spaces);
        assert!(rt;
            is_cut(&text, heading.as_bytes(), *first, &ending),
            "{column}"
        );
    }
}

#[test]
fn faults_of_whole_files(rt: HostRuntime) {
    let text = file_fault_text(rt.alloc(), "rules.txt", "B1").expect(&rt, "memory");
    let wanted = "rules.txt: B1: The new configuration is too large to be published.\n";
    assert!(rt; text.as_slice() == wanted.as_bytes());
}
