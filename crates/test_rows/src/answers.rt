//! Rows of expressions on packets: the outcome of the evaluator, and of the compiled program.

ghost use Rattle.std.specs.Prelude.{◌≤◌, length};
ghost use Rattle.bpf_verify.specs.Program.{IsProgram};

use bpf_machine::{MAX_PACKET, run};
use bpf_verify::Program;
use filter_compile::{ACCEPTED, compile};
use filter_parse::parse;
use filter_tree::Expr;
use std::alloc::Global;
use std::io;

// 29 bytes of UDP over IPv4 from 10.0.0.1:5000 to 10.0.0.2:53, with one byte of payload.
const SAMPLE_PACKET: [u8; 29] = [
    0x45, 0x00, 0x00, 0x1d, 0x00, 0x00, 0x00, 0x00, 0x40, 0x11, 0x00, 0x00, 0x0a, 0x00, 0x00, 0x01,
    0x0a, 0x00, 0x00, 0x02, 0x13, 0x88, 0x00, 0x35, 0x00, 0x09, 0x00, 0x00, 0x61,
];

// Places of the sample packet and a byte at each: as it is; version and length, protocol, fragment, ports.
const BYTES: [(usize, u8); 10] = [
    (0, 0x45),
    (0, 0x65),
    (0, 0x46),
    (9, 6),
    (9, 1),
    (9, 132),
    (7, 1),
    (6, 0x20),
    (15, 9),
    (23, 99),
];

fn packet_with(place: usize, byte: u8) -> [u8; 29] {
    let mut packet = SAMPLE_PACKET;
    if let Some(changed) = packet.get_mut(place) {
        *changed = byte;
    }
    packet
}

fn ends_with(program: &Program<Global>, packet: &[u8], value: u32) -> bool {
    if packet.len() > MAX_PACKET {
        return false;
    }
    let mut words = program.words();
    let count = words.len();
    run(&mut words, 0, count, packet).value == value
}

// `y` if both accept the packet, `n` if neither does, `?` if the program does not end as the evaluator says.
fn answer(tree: &Expr<Global>, program: &Program<Global>, packet: &[u8]) -> char {
    let accepts = tree.accepts(packet);
    if !ends_with(program, packet, if accepts { ACCEPTED } else { 0 }) {
        '?'
    } else if accepts {
        'y'
    } else {
        'n'
    }
}

// The answers on the packet's beginnings of 0 bytes, of 1, and so on to all 29.
fn put_answers(
    text: &mut String,
    tree: &Expr<Global>,
    program: &Program<Global>,
    packet: &[u8; 29],
) -> io::Result<()> {
    for len in 0..30 {
        text.push(answer(tree, program, &packet[..len]))?;
    }
    Ok(())
}

fn describe_answers(
    alloc: Global,
    tree: &Expr<Global>,
    changes: &[(usize, u8)],
) -> io::Result<String> {
    match compile(alloc, tree) {
        Ok(program) => {
            let mut text = String::new(alloc);
            for (place, byte) in changes {
                text.push_str(if text.is_empty() { "" } else { " " })?;
                put_answers(&mut text, tree, &program, &packet_with(*place, *byte))?;
            }
            Ok(text)
        }
        Err(fault) => Ok(format!(in alloc; "{fault:?}")?),
    }
}

fn describe(alloc: Global, expression: &str, changes: &[(usize, u8)]) -> io::Result<String> {
    match parse(alloc, expression.as_bytes()) {
        Ok(tree) => describe_answers(alloc, &tree, changes),
        Err(fault) => Ok(format!(in alloc; "{fault:?}")?),
    }
}

/// `prefixes TEXT`: 30 letters, one for each beginning of the sample packet.
pub fn describe_prefixes(alloc: Global, expression: &str) -> io::Result<String> {
    describe(alloc, expression, &BYTES[..1])
}

/// `alike TEXT`: whether the compiled program ends as the evaluator says on each beginning of ten packets.
pub fn describe_alike(alloc: Global, expression: &str) -> io::Result<String> {
    let answers = describe(alloc, expression, &BYTES)?;
    if answers.len() == 309 && !answers.as_bytes().contains(&b'?') {
        Ok(String::from_str(alloc, "alike")?)
    } else {
        Ok(answers)
    }
}
