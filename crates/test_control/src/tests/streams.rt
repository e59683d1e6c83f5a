//! Inputs over readers, outputs over writers, and the bytes of packets in lines.

ghost use Rattle.std.specs.Prelude.{◌≡◌, ◌≤◌, IfOk, take};
ghost use Rattle.std.specs.Io.KnownBytes.{Appends};
ghost use Rattle.dispatch.specs.Device.{CountsFailure};
ghost use Rattle.control.specs.Streams.{TakesFront};

use control::{FromRead, Input, Output, PacketLine, ToWrite, read_packet_line, replay};
use dispatch::Failed;
use std::alloc::Global;
use std::io;
use std::io::{ErrorKind, Read, Write};
use std::process::Abort;

// The result of a step of a device: it gives or takes at most this many bytes, or fails.
#[derive(Clone, Copy)]
enum Step {
    Moves(usize),
    Fails(ErrorKind),
}

// A reader or a writer that makes its steps in turn. After the last it moves nothing.
#[derive(Drop)]
struct InSteps<'a> {
    steps: &'a [Step],
    at: usize,
    bytes: Vec<u8>,
}

fn in_steps(alloc: Global, steps: &[Step]) -> InSteps<'_> {
    InSteps {
        steps,
        at: 0,
        bytes: Vec::new(alloc),
    }
}

impl InSteps<'_> {
    fn next(&mut self, len: usize) -> io::Result<usize>
        ensures { IfOk result (λ size. size ≤ len) }
    {
        let Some(step) = self.steps.get(self.at) else {
            return Ok(0);
        };
        self.at = self.at.saturating_add(1);
        match *step {
            Step::Moves(most) => Ok(most.min(len)),
            Step::Fails(kind) => Err(io::Error::from(kind)),
        }
    }
}

// It gives the letter x.
impl Read for InSteps<'_> {
    fn read(&mut self, buf: &mut [u8]) -> io::Result<usize> {
        let size = self.next(buf.len())?;
        buf[..size].fill(b'x');
        Ok(size)
    }
}

impl Write for InSteps<'_> {
    fn write(&mut self, buf: &[u8]) -> io::Result<usize> {
        let size = self.next(buf.len())?;
        match self.bytes.extend_from_slice(&buf[..size]) {
            Ok(()) => Ok(size),
            Err(_) => Err(io::Error::from(ErrorKind::OutOfMemory)),
        }
    }

    fn flush(&mut self) -> io::Result<()> {
        Ok(())
    }
}

const STEPS: [Step; 7] = [
    Step::Moves(1),
    Step::Fails(ErrorKind::Interrupted),
    Step::Moves(2),
    Step::Fails(ErrorKind::BrokenPipe),
    Step::Moves(9),
    Step::Moves(0),
    Step::Fails(ErrorKind::WouldBlock),
];

// The result of each read of a slice into four bytes, and the bytes after it.
const READ: [(usize, &[u8; 4]); 4] = [(4, b"show"), (4, b"\nswe"), (2, b"epwe"), (0, b"epwe")];

#[test]
fn reads_of_a_slice(rt: HostRuntime) {
    let mut input = FromRead::new(b"show\nsweep".as_slice());
    let mut buf = [0; 4];
    for (answer, bytes) in &READ {
        assert!(rt; input.read(&mut buf) == Ok(*answer));
        assert!(rt; buf == **bytes);
    }
}

const READS: [Result<usize, Failed>; 7] = [
    Err(Failed),
    Ok(2),
    Err(Failed),
    Ok(4),
    Ok(0),
    Err(Failed),
    Ok(0),
];

// An interrupted read or write is a failure as others are.
#[test]
fn reads_that_fail(rt: HostRuntime) {
    let mut input = FromRead::new(in_steps(rt.alloc(), &STEPS));
    let mut buf = [0; 4];
    assert!(rt; input.read(&mut []) == Ok(0));
    for answer in &READS {
        assert!(rt; input.read(&mut buf) == *answer);
    }
}

const WRITES: [Result<usize, Failed>; 8] = [
    Ok(1),
    Err(Failed),
    Ok(2),
    Err(Failed),
    Ok(4),
    Err(Failed),
    Err(Failed),
    Err(Failed),
];

#[test]
fn writes_that_fail(rt: HostRuntime) {
    let mut writer = in_steps(rt.alloc(), &STEPS);
    let mut output = ToWrite::new(&mut writer);
    assert!(rt; output.write(b"") == Ok(0));
    for answer in &WRITES {
        assert!(rt; output.write(b"abcd") == *answer);
    }
    assert!(rt; output.into_inner().bytes.as_slice() == b"aababcd".as_slice());
}

const FIRST_END: [Step; 3] = [
    Step::Moves(4),
    Step::Moves(0),
    Step::Fails(ErrorKind::BrokenPipe),
];

// The reads after the end would fail.
#[test]
fn first_end_ends_the_script(rt: HostRuntime) {
    let mut input = FromRead::new(in_steps(rt.alloc(), &FIRST_END));
    let mut replies = Vec::new(rt.alloc());
    let mut output = ToWrite::new(&mut replies);
    let answer = replay(rt.alloc(), &mut input, &mut output);
    let _ = output.into_inner();
    assert!(rt; answer == Ok(()));
    assert!(rt; replies.as_slice() == b"refused C1\n".as_slice());
}

fn write_once<O: Output>(output: &mut O, bytes: &[u8]) -> Result<usize, Failed>
    ensures device_failed { CountsFailure result (O.state output.old).failures (O.state output.new).failures }
    ensures takes_front { TakesFront (O.state output.new).failures (O.state output.old).taken (O.state output.new).taken result bytes.now }
    ensures rest_kept { O.rest output.new ≡ O.rest output.old }
{
    output.write(bytes)
}

// The contents of a writer are known after an output over it was written to.
fn write_through<W: Write>(writer: &mut W, bytes: &[u8]) -> Result<usize, Failed>
    ensures { IfOk result (λ size. Appends (W.contents writer.old) (W.contents writer.new) (take size bytes.now)) }
{
    let mut output = ToWrite::new(writer);
    let answer = write_once(&mut output, bytes);
    let _ = output.into_inner();
    answer
}

// Bytes that are written where three have room, and the results.
const WRITTEN: [(&[u8], Result<usize, Failed>); 3] = [
    (b"ok", Ok(2)),
    (b"no", Ok(1)),
    (b"no", Err(Failed)),
];

#[test]
fn writes_reach_the_writer(rt: HostRuntime) {
    let mut held = [0; 3];
    let mut rest = held.as_mut_slice();
    for (bytes, answer) in &WRITTEN {
        assert!(rt; write_through(&mut rest, bytes) == *answer);
    }
    assert!(rt; held == *b"okn");
}

// A line, and the packet in it.
const PACKETS: [(&[u8], &[u8]); 3] = [
    (b"packet ", b""),
    (b"packet 4500", b"\x45\x00"),
    (b"packet 0aF9Bc", b"\x0a\xf9\xbc"),
];

const NO_PACKETS: [&[u8]; 9] = [
    b"",
    b"packet",
    b"packet 0",
    b"packet 450",
    b"packet 4g",
    b"packet  45",
    b"packet 45 ",
    b"Packet 45",
    b"show",
];

// Lengths of a line of hexadecimal digits, and whether it is a packet that is too long. A longer line is no line.
const TOO_LONG: [(usize, bool); 4] = [
    (131_079, true),
    (262_143, true),
    (262_144, false),
    (262_145, false),
];

fn is_read_as(rt: &impl Abort, alloc: Global, text: &[u8], packet: &[u8]) -> bool {
    match read_packet_line(alloc, text).expect(rt, "memory") {
        Some(PacketLine::Packet(bytes)) => bytes.as_slice() == packet,
        _ => false,
    }
}

fn is_too_long(rt: &impl Abort, alloc: Global, text: &[u8], is_wanted: bool) -> bool {
    match read_packet_line(alloc, text).expect(rt, "memory") {
        Some(PacketLine::TooLong) => is_wanted,
        Some(PacketLine::Packet(_)) => false,
        None => !is_wanted,
    }
}

// A line of this many bytes whose digits are all 8.
fn line_of(rt: &impl Abort, alloc: Global, len: usize) -> Vec<u8> {
    let mut text = Vec::from_slice(alloc, b"packet ").expect(rt, "memory");
    text.resize(len, b'8').expect(rt, "memory");
    text
}

#[test]
fn packets_of_lines(rt: HostRuntime) {
    for (text, packet) in &PACKETS {
        assert!(rt; is_read_as(&rt, rt.alloc(), text, packet));
    }
    let packet = vec![in rt.alloc(); 0x88u8; 65_535].expect(&rt, "memory");
    assert!(rt; is_read_as(&rt, rt.alloc(), &line_of(&rt, rt.alloc(), 131_077), &packet));
    for (len, is_wanted) in &TOO_LONG {
        let text = line_of(&rt, rt.alloc(), *len);
        assert!(rt; is_too_long(&rt, rt.alloc(), &text, *is_wanted));
    }
}

#[test]
fn other_lines_have_no_packet(rt: HostRuntime) {
    for text in &NO_PACKETS {
        let line = read_packet_line(rt.alloc(), text).expect(&rt, "memory");
        assert!(rt; line.is_none());
    }
}
