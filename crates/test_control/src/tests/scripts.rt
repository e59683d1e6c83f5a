//! Scripts over readers that give a few bytes at a time, over devices that fail, and as a contract sees them.

ghost use Rattle.std.specs.Prelude.{◌≡◌, ◌++◌, List, OnOk, ℕ};
ghost use Rattle.control.specs.Script.{IsScriptText};

use control::{FromRead, ReplayFault, ToWrite, replay};
use std::alloc::Global;
use std::io;
use std::io::{ErrorKind, Read, Write};
use std::process::Abort;

// A reader that gives a limited number of bytes at a time, and at a place of them fails.
#[derive(Drop)]
struct Pieces<'a> {
    bytes: &'a [u8],
    at: usize,
    most: usize,
    fails_at: Option<usize>,
}

fn in_pieces(bytes: &[u8], most: usize) -> Pieces<'_> {
    Pieces {
        bytes,
        at: 0,
        most,
        fails_at: None,
    }
}

impl Read for Pieces<'_> {
    fn read(&mut self, buf: &mut [u8]) -> io::Result<usize> {
        let end = self.fails_at.unwrap_or(self.bytes.len());
        let left = self.bytes.get(self.at..end).unwrap_or(&[]);
        if left.is_empty() && self.fails_at.is_some() {
            return Err(io::Error::from(ErrorKind::BrokenPipe));
        }
        let size = left.len().min(buf.len()).min(self.most);
        buf[..size].copy_from_slice(&left[..size]);
        self.at = self.at.saturating_add(size);
        Ok(size)
    }
}

// A writer that has room for a number of bytes, and takes at most three at a time. Past that it fails, or writes 0
// bytes.
#[derive(Drop)]
struct Room {
    bytes: Vec<u8>,
    room: usize,
    fails: bool,
}

fn room_for(alloc: Global, room: usize, fails: bool) -> Room {
    Room {
        bytes: Vec::new(alloc),
        room,
        fails,
    }
}

impl Write for Room {
    fn write(&mut self, buf: &[u8]) -> io::Result<usize> {
        let size = buf.len().min(3).min(self.room);
        if size == 0 && self.fails {
            return Err(io::Error::from(ErrorKind::BrokenPipe));
        }
        self.room = self.room.saturating_sub(size);
        match self.bytes.extend_from_slice(&buf[..size]) {
            Ok(()) => Ok(size),
            Err(_) => Err(io::Error::from(ErrorKind::OutOfMemory)),
        }
    }

    fn flush(&mut self) -> io::Result<()> {
        Ok(())
    }
}

// Whether the bytes of a reader are replayed with this result, and these bytes are written.
fn is_replayed(
    alloc: Global,
    reader: Pieces<'_>,
    mut out: Room,
    wanted: Result<(), ReplayFault>,
    written: &[u8],
) -> bool {
    let mut output = ToWrite::new(&mut out);
    let answer = replay(alloc, &mut FromRead::new(reader), &mut output);
    let _ = output.into_inner();
    answer == wanted && out.bytes.as_slice() == written
}

// Bytes are replayed to bytes: the text of the script is appended.
fn replay_bytes(alloc: Global, script: &[u8], out: &mut Vec<u8>) -> Result<(), ReplayFault>
    ensures script_text { OnOk result ((text : List ℕ) × IsScriptText script.now text × (out.new.items ≡ out.old.items ++ text)) }
{
    let mut input = FromRead::new(script);
    let mut output = ToWrite::new(out);
    let answer = replay(alloc, &mut input, &mut output);
    let _ = output.into_inner();
    answer
}

fn expect(rt: &impl Abort, alloc: Global, script: &[u8], replies: &str) {
    for most in &[1, 7, usize::MAX] {
        let reader = in_pieces(script, *most);
        let out = room_for(alloc, usize::MAX, true);
        let is_told = is_replayed(alloc, reader, out, Ok(()), replies.as_bytes());
        assert!(rt; is_told, "{replies}");
    }
}

// Its packets are 29 bytes of UDP over IPv4, from 10.0.0.1:5000 to 10.0.0.2:53 with the payload `a`.
const SCRIPT: &str = "add 10.0.0.2:53\n\
    join 10.0.0.2:53 1 127.0.0.1:9001\n\
    join 10.0.0.2:53 2 127.0.0.1:9002\n\
    join 10.0.0.2:53 3 127.0.0.1:9003\n\
    packet 4500001d00000000401100000a0000010a000002138800350009000061\n\
    leave 10.0.0.2:53 1\n\
    leave 10.0.0.2:53 1\n\
    selector 10.0.0.2:53 asm ret #0\n\
    filter 10.0.0.2:53 3 expr udp and less 28\n\
    packet 4500001d00000000401100000a0000010a000002138800350009000061\n\
    show\n\
    sweep\n\
    sweep\n\
    \n";

const REPLIES: &str = "ok version 1\n\
    ok version 2\n\
    ok version 3\n\
    ok version 4\n\
    version 4 deliver 10.0.0.2:53 3 127.0.0.1:9003 29\n\
    ok version 5\n\
    refused G3\n\
    ok version 6\n\
    ok version 7\n\
    version 7 dropped 10.0.0.2:53 3\n\
    version 7 groups 1 members 2 charge 30\n\
    reclaimed 0 7\n\
    reclaimed 7 0\n\
    refused C1\n";

// No command changes or clears the filter of a locked member; the lock ends when the member leaves.
const SCRIPT_WITH_LOCKS: &str = "add 10.0.0.2:53\n\
    join 10.0.0.2:53 1 127.0.0.1:9001\n\
    filter 10.0.0.2:53 1 expr udp and less 28\n\
    lock 10.0.0.2:53 1\n\
    filter 10.0.0.2:53 1 none\n\
    filter 10.0.0.2:53 1 asm ret #1\n\
    filter 10.0.0.2:53 1 asm ld #1\n\
    lock 10.0.0.2:53 2\n\
    lock 10.0.0.2:53 1\n\
    packet 4500001d00000000401100000a0000010a000002138800350009000061\n\
    show\n\
    leave 10.0.0.2:53 1\n\
    join 10.0.0.2:53 1 127.0.0.1:9001\n\
    filter 10.0.0.2:53 1 none\n";

const REPLIES_WITH_LOCKS: &str = "ok version 1\n\
    ok version 2\n\
    ok version 3\n\
    ok version 4\n\
    refused G9\n\
    refused G9\n\
    refused V10\n\
    refused G3\n\
    ok version 5\n\
    version 5 dropped 10.0.0.2:53 1\n\
    version 5 groups 1 members 1 charge 25\n\
    ok version 6\n\
    ok version 7\n\
    refused G7\n";

// Blocks have one reply each. A first line that is no good takes no lines.
const SCRIPT_WITH_BLOCKS: &str = "all 2\n\
    add 10.0.0.2:53\n\
    join 10.0.0.2:53 1 127.0.0.1:9001\n\
    all 2\n\
    add 10.0.0.3:53\n\
    join 10.0.0.2:53 1 127.0.0.1:9002\n\
    all 02\n\
    at 1 all 1\n\
    leave 10.0.0.2:53 1\n\
    at 1 anew 0\n\
    packet 4500001d00000000401100000a0000010a000002138800350009000061\n\
    at 2 anew 0\n\
    all 2\n\
    packet 45\n\
    add 10.0.0.2:53\n\
    show\n";

const REPLIES_WITH_BLOCKS: &str = "ok version 1\n\
    refused G4 line 2\n\
    refused C1\n\
    ok version 2\n\
    refused M1 2\n\
    version 2 nomembers\n\
    ok version 3\n\
    refused C1 line 1\n\
    version 3 groups 0 members 0 charge 2\n";

// Scripts and their replies, whose ends the sessions have too, as one read brings them.
const IN_PIECES: [(&str, &str); 27] = [
    (SCRIPT, REPLIES),
    (SCRIPT_WITH_BLOCKS, REPLIES_WITH_BLOCKS),
    ("all 2\nshow\n\n", "refused C1 line 1\n"),
    ("all 2\nadd 10.0.0.2:53\nadd 10.0.0.3:53", "ok version 1\n"),
    ("all 2\nadd 10.0.0.2:53\n", "refused C1\n"),
    ("all 2\nadd 10.0.0.2:53", "refused C1\n"),
    ("all 3\nadd 10.0.0.2:53\n\n", "refused C1\n"),
    ("all 1\n", "refused C1\n"),
    ("all 1", "refused C1\n"),
    ("anew 0", "ok version 1\n"),
    ("", ""),
    ("show", "version 0 groups 0 members 0 charge 2\n"),
    ("show\n", "version 0 groups 0 members 0 charge 2\n"),
    ("show\r\n", "refused C1\n"),
    ("\n", "refused C1\n"),
    ("\n\nsweep", "refused C1\nrefused C1\nreclaimed 0 0\n"),
    ("sweep\n\0", "reclaimed 0 0\nrefused C1\n"),
    ("stop\ntotals\n", "refused C1\nrefused C1\n"),
    (SCRIPT_WITH_LOCKS, REPLIES_WITH_LOCKS),
    ("packet", "refused C1\n"),
    ("packet ", "version 0 malformed\n"),
    ("packet 4", "refused C1\n"),
    ("packet 4g", "refused C1\n"),
    ("packet  45", "refused C1\n"),
    ("Packet 45", "refused C1\n"),
    (
        "packet 4500001D00000000401100000a0000010a000002138800350009000061",
        "version 0 nogroup\n",
    ),
    (
        "add 10.0.0.2:53\npacket 4500001d00000000401100000a0000010a000002138800350009000061\nremove 10.0.0.2:53\n",
        "ok version 1\nversion 1 nomembers\nok version 2\n",
    ),
];

#[test]
fn script_replies_line_by_line(rt: HostRuntime) {
    for (script, replies) in &IN_PIECES {
        expect(&rt, rt.alloc(), script.as_bytes(), replies);
    }
}

#[test]
fn bytes_are_replayed_to_bytes(rt: HostRuntime) {
    let mut out = Vec::from_slice(rt.alloc(), b"> ").expect(&rt, "memory");
    assert!(rt; replay_bytes(rt.alloc(), b"show\nsweep", &mut out) == Ok(()));
    let wanted = b"> version 0 groups 0 members 0 charge 2\nreclaimed 0 0\n";
    assert!(rt; out.as_slice() == wanted.as_slice());
}

// The replies of this many first lines.
fn first_replies(lines: usize) -> &'static [u8] {
    let mut left = lines;
    for (i, byte) in REPLIES.as_bytes().iter().enumerate() {
        if left == 0 {
            return &REPLIES.as_bytes()[..i];
        }
        if *byte == b'\n' {
            left = left.saturating_sub(1);
        }
    }
    REPLIES.as_bytes()
}

// Each read fails in turn, also the one that would find the end: the output has the replies to the lines that were read
// whole.
fn expect_failed_reads(rt: &impl Abort, alloc: Global) {
    let script = SCRIPT.as_bytes();
    let mut lines = 0usize;
    for place in 0..=script.len() {
        let mut reader = in_pieces(script, 10);
        reader.fails_at = Some(place);
        let out = room_for(alloc, usize::MAX, true);
        let answer = Err(ReplayFault::ReadFailed);
        assert!(rt; is_replayed(alloc, reader, out, answer, first_replies(lines)));
        if script.get(place) == Some(&b'\n') {
            lines = lines.saturating_add(1);
        }
    }
}

// Each write fails in turn, or writes 0 bytes: a beginning of the replies.
fn expect_failed_writes(rt: &impl Abort, alloc: Global, fails: bool) {
    for room in 0..REPLIES.len() {
        let reader = in_pieces(SCRIPT.as_bytes(), 10);
        let out = room_for(alloc, room, fails);
        let answer = Err(ReplayFault::WriteFailed);
        assert!(rt; is_replayed(alloc, reader, out, answer, &REPLIES.as_bytes()[..room]));
    }
}

#[test]
fn script_over_failing_devices(rt: HostRuntime) {
    expect_failed_reads(&rt, rt.alloc());
    expect_failed_writes(&rt, rt.alloc(), true);
    expect_failed_writes(&rt, rt.alloc(), false);
}
