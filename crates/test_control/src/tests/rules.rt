//! Rules files: the lines that count, the configuration that they make, and their faults.

use control::Reason;
use control_line::{RulesFault, fault_column, line_at, rules};
use std::alloc::Global;
use std::process::Abort;

// A file, and the groups, members and charge of its configuration (docs/COMMANDS.md, "Rules files"; SWITCH, "Groups, members, commands and refusals").
const MADE: [(&[u8], (usize, usize, u64)); 9] = [
    (b"", (0, 0, 2)),
    (b"\n\n", (0, 0, 2)),
    (b"# nothing", (0, 0, 2)),
    (b" \t\r\r\n\t # nothing\0\xff\n", (0, 0, 2)),
    (b"add 10.0.0.2:53", (1, 0, 6)),
    (b"add 10.0.0.2:53\r", (1, 0, 6)),
    (
        b"add 10.0.0.2:53\r\njoin 10.0.0.2:53 1 127.0.0.1:9001\r\n",
        (1, 1, 10),
    ),
    (
        b"add 10.0.0.2:53\n\n# join 10.0.0.2:53 1 127.0.0.1:9001\nselector 10.0.0.2:53 asm ret #0",
        (1, 0, 7),
    ),
    (b"add 10.0.0.2:53\nremove 10.0.0.2:53\n", (0, 0, 2)),
];

#[test]
fn files_make_configurations(rt: HostRuntime) {
    for (text, measures) in &MADE {
        let config = rules(rt.alloc(), text).expect(&rt, "a configuration");
        let made = (config.groups().len(), config.members(), config.charge());
        assert!(rt; made == *measures, "{text:?}");
    }
}

// A file, the line that is refused, why, and the column for people.
const REFUSED: [(&[u8], u32, &str, usize); 16] = [
    (b"add", 1, "refused C1", 1),
    (b" add 10.0.0.2:53", 1, "refused C1", 1),
    (b"\0", 1, "refused C1", 1),
    (b"add 10.0.0.2:53\0", 1, "refused C1", 1),
    (b"add 10.0.0.2:53\r\r\n", 1, "refused C1", 1),
    (b"add 10.0.0.2:53 # a comment\n", 1, "refused C1", 1),
    (b"# one\n\n show", 3, "refused C1", 1),
    (b"show\n", 1, "refused C1", 1),
    (b"sweep\n", 1, "refused C1", 1),
    (b"all 1\nadd 10.0.0.2:53\n", 1, "refused C1", 1),
    (b"at 0 add 10.0.0.2:53\n", 1, "refused C1", 1),
    (
        b"add 10.0.0.2:53\n\n# again\nadd 10.0.0.2:53\nadd",
        4,
        "refused G2",
        1,
    ),
    (
        b"filter 10.0.0.2:53 1 expr udp dst port 53 or\r\n",
        1,
        "refused P1 18",
        45,
    ),
    (
        b"\r\nselector 10.0.0.2:53 asm ld #1; foo\r\n",
        2,
        "refused A1 2",
        32,
    ),
    (b"selector 10.0.0.2:53 asm ld #1", 1, "refused V10", 26),
    (b"filter 10.0.0.2:53 1 asm ret #0\n", 1, "refused G1", 26),
];

// The line that is refused, and why.
fn refusal_of(rt: &impl Abort, alloc: Global, text: &[u8]) -> (u32, Reason) {
    match rules(alloc, text) {
        Err(
            RulesFault::Refused {
                line: Some(line),
                reason,
            },
        ) => (line, reason),
        _ => panic!(rt; "not refused at a line: {text:?}"),
    }
}

#[test]
fn files_are_refused_at_a_line(rt: HostRuntime) {
    for (text, number, why, column) in &REFUSED {
        let (line, reason) = refusal_of(&rt, rt.alloc(), text);
        let found = format!(in rt.alloc(); "{reason}").expect(&rt, "memory");
        let is_wanted = line == *number
            && found.as_str() == *why
            && fault_column(line_at(text, line), reason) == *column;
        assert!(rt; is_wanted, "{text:?}");
    }
}

const NUMBERED: [(u32, &[u8]); 5] = [
    (1, b"one"),
    (2, b""),
    (3, b"\rthree"),
    (4, b"four"),
    (5, b""),
];

#[test]
fn lines_by_number(rt: HostRuntime) {
    for (number, line) in NUMBERED {
        assert!(rt;
            line_at(b"one\n\r\n\rthree\r\nfour", number) == line,
            "{number}"
        );
    }
}

// Whether the whole file is refused, with this text.
fn is_refused(rt: &impl Abort, alloc: Global, text: &[u8], why: &str) -> bool {
    match rules(alloc, text) {
        Err(RulesFault::Refused { line: None, reason }) => {
            let found = format!(in alloc; "{reason}").expect(rt, "memory");
            found.as_str() == why
        }
        _ => false,
    }
}

fn is_made(alloc: Global, text: &[u8]) -> bool {
    rules(alloc, text).is_ok()
}

fn append(rt: &impl Abort, text: &mut Vec<u8>, line: &[u8]) {
    text.extend_from_slice(line).expect(rt, "memory");
}

const LONGEST: usize = 16_777_216;

#[test]
fn longest_file(rt: HostRuntime) {
    let mut text = vec![in rt.alloc(); b'#'; LONGEST].expect(&rt, "memory");
    assert!(rt; is_made(rt.alloc(), &text));
    append(&rt, &mut text, b"#");
    assert!(rt; is_refused(&rt, rt.alloc(), &text, "refused C2"));
}

// Comments do not count; the last line is one too many, and is not looked at.
#[test]
fn most_lines(rt: HostRuntime) {
    let mut text = Vec::new(rt.alloc());
    for _ in 0..32_767 {
        append(
            &rt,
            &mut text,
            b"add 10.0.0.2:53\n# none\nremove 10.0.0.2:53\n",
        );
    }
    append(&rt, &mut text, b"add 10.0.0.2:53");
    assert!(rt; is_made(rt.alloc(), &text));
    append(&rt, &mut text, b"\nx");
    assert!(rt; is_refused(&rt, rt.alloc(), &text, "refused C2"));
}

// Lines that add 33 groups of 64 members.
fn put_groups(rt: &impl Abort, alloc: Global, text: &mut Vec<u8>) {
    for group in 1..34u32 {
        let line = format!(in alloc; "add 10.0.0.{group}:53\n").expect(rt, "memory");
        append(rt, text, line.as_bytes());
        for member in 0..64u32 {
            let line = format!(in alloc; "join 10.0.0.{group}:53 {member} 127.0.0.1:9001\n").expect(
                rt, "memory",
            );
            append(rt, text, line.as_bytes());
        }
    }
}

// They are charged 2 + 33 * 4 + 2112 * 4 = 8582.
#[test]
fn charge_of_the_last_configuration(rt: HostRuntime) {
    let mut text = Vec::new(rt.alloc());
    put_groups(&rt, rt.alloc(), &mut text);
    assert!(rt; is_refused(&rt, rt.alloc(), &text, "refused B1"));
    append(&rt, &mut text, b"remove 10.0.0.1:53\nremove 10.0.0.2:53\n");
    let config = rules(rt.alloc(), &text).expect(&rt, "a configuration");
    assert!(rt; config.charge() == 2 + 31 * 4 + 1984 * 4);
}
