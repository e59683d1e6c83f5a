//! A wire in memory, and a printer of the numbers of requests that were not done.

ghost use Rattle.std.specs.Prelude.{◌≤◌, IfSome, length};

use command_line::Failure;
use command_streams::{CountedWriter, Input};
use control_client::{
    Came, Explains, InputLines, Lines, Peer, Places, Wire, WireFailed, tell, tell_change,
};
use ipv4_fields::Endpoint;
use std::alloc::Global;
use std::io;
use std::io::Write;
use std::process::Abort;

pub const SWITCH: Peer = Peer::Udp(Endpoint {
    address: 0x7f00_0001,
    port: 5301,
});

const ELSEWHERE: Peer = Peer::Udp(Endpoint {
    address: 0x7f00_0001,
    port: 5302,
});

// The result of a receive.
#[derive(Clone, Copy)]
pub enum Arrival {
    Answer(&'static str),
    Foreign(&'static str),
    Silence,
    Broken,
}

// It gives these in their order, and then nothing in time. The lines that are sent are in `sent`, each with an LF.
#[derive(Drop)]
pub struct MemoryWire {
    pub switch: Peer,
    pub left: &'static [Arrival],
    pub sent: Vec<u8>,
}

// Shows the number of a request, those of the lines of its block, and its reply.
#[derive(Drop)]
pub struct Numbers;

fn write_numbers<E: Write>(places: &Places<'_>, reply: &[u8], errs: &mut E) -> io::Result<()> {
    match places.head {
        None => write!(errs, "-")?,
        Some(head) => write!(errs, "{head}")?,
    }
    for line in places.lines {
        write!(errs, " {line}")?;
    }
    errs.write_all(b": ")?;
    errs.write_all(reply)?;
    errs.write_all(b"\n")
}

impl Explains for Numbers {
    ghost shows = { λ _ _ _. Unit {0} };

    fn show<E: Write>(&self, places: Places<'_>, reply: &[u8], errs: &mut E) {
        let _ = write_numbers(&places, reply, errs);
    }
}

fn put(from: Peer, text: &str, buf: &mut [u8]) -> Option<Came>
    ensures within { IfSome result (λ one. one.len ≤ length buf.new) }
{
    let len = text.len().min(buf.len());
    buf[..len].copy_from_slice(&text.as_bytes()[..len]);
    Some(Came { from, len })
}

impl Wire for MemoryWire {
    ghost use Rattle.std.specs.Prelude.{None};

    ghost log = { λ _. None };

    fn send(&mut self, _to: Peer, bytes: &[u8]) -> Result<(), WireFailed> {
        let whole = self.sent.extend_from_slice(bytes).is_ok()
            && self.sent.extend_from_slice(b"\n".as_slice()).is_ok();
        if whole { Ok(()) } else { Err(WireFailed) }
    }

    fn receive(&mut self, buf: &mut [u8]) -> Result<Option<Came>, WireFailed> {
        let Some((first, left)) = self.left.split_first() else {
            return Ok(None);
        };
        self.left = left;
        match *first {
            Arrival::Answer(text) => Ok(put(self.switch, text, buf)),
            Arrival::Foreign(text) => Ok(put(ELSEWHERE, text, buf)),
            Arrival::Silence => Ok(None),
            Arrival::Broken => Err(WireFailed),
        }
    }
}

/// How a request ended, the lines that were sent, and the text that was printed.
#[derive(Drop)]
pub struct Told {
    pub ended: Result<bool, Failure>,
    pub sent: Vec<u8>,
    pub printed: Vec<u8>,
}

impl Told {
    pub fn expect(&self, rt: &impl Abort, ended: Result<bool, Failure>, sent: &str, printed: &str) {
        assert!(rt; self.ended == ended, "{sent}");
        assert!(rt; self.sent.as_slice() == sent.as_bytes(), "{sent}");
        assert!(rt; self.printed.as_slice() == printed.as_bytes(), "{printed}");
    }
}

fn new_wire(alloc: Global, switch: Peer, left: &'static [Arrival]) -> MemoryWire {
    MemoryWire {
        switch,
        left,
        sent: Vec::new(alloc),
    }
}

/// Sends the lines to a switch over a wire in memory. Returns how that ended, and the lines that were sent.
pub fn told_into<L: Lines, W: Write, E: Write>(
    alloc: Global,
    switch: Peer,
    lines: &mut L,
    arrivals: &'static [Arrival],
    out: &mut W,
    errs: &mut E,
) -> (Result<bool, Failure>, Vec<u8>) {
    let mut wire = new_wire(alloc, switch, arrivals);
    let mut counted = CountedWriter::new(out);
    let ended = tell(
        alloc,
        lines,
        &mut wire,
        switch,
        &mut counted,
        errs,
        &Numbers,
    );
    let _ = counted.into_inner();
    let MemoryWire {
        switch: _,
        left: _,
        sent,
    } = wire;
    (ended, sent)
}

/// The same, and what was printed.
pub fn told_lines<L: Lines, E: Write>(
    alloc: Global,
    switch: Peer,
    lines: &mut L,
    arrivals: &'static [Arrival],
    errs: &mut E,
) -> Told {
    let mut printed = Vec::new(alloc);
    let (ended, sent) = told_into(alloc, switch, lines, arrivals, &mut printed, errs);
    Told {
        ended,
        sent,
        printed,
    }
}

/// The same as one change.
pub fn told_change<L: Lines, E: Write>(
    alloc: Global,
    lines: &mut L,
    arrivals: &'static [Arrival],
    errs: &mut E,
) -> Told {
    let mut wire = new_wire(alloc, SWITCH, arrivals);
    let mut printed = Vec::new(alloc);
    let mut out = CountedWriter::new(&mut printed);
    let ended = tell_change(alloc, lines, &mut wire, SWITCH, &mut out, errs, &Numbers);
    let _ = out.into_inner();
    let MemoryWire {
        switch: _,
        left: _,
        sent,
    } = wire;
    Told {
        ended,
        sent,
        printed,
    }
}

/// Sends the lines of an input, as `told_lines` does.
pub fn told_input<I: Input, E: Write>(
    alloc: Global,
    switch: Peer,
    input: &mut I,
    arrivals: &'static [Arrival],
    errs: &mut E,
) -> Told {
    let mut lines = InputLines::new(alloc, input);
    told_lines(alloc, switch, &mut lines, arrivals, errs)
}

/// The same as one change.
pub fn told_input_change<I: Input, E: Write>(
    alloc: Global,
    input: &mut I,
    arrivals: &'static [Arrival],
    errs: &mut E,
) -> Told {
    let mut lines = InputLines::new(alloc, input);
    told_change(alloc, &mut lines, arrivals, errs)
}

// It is sent these lines in their order, and gives the reply of each, or none in time. Another line is not sent.
#[derive(Drop)]
pub struct ScriptWire {
    pub lines: &'static [(&'static str, Option<&'static str>)],
    pub next: usize,
}

impl Wire for ScriptWire {
    ghost use Rattle.std.specs.Prelude.{None};

    ghost log = { λ _. None };

    fn send(&mut self, _to: Peer, bytes: &[u8]) -> Result<(), WireFailed> {
        match self.lines.get(self.next) {
            Some((line, _)) if line.as_bytes() == bytes => Ok(()),
            _ => Err(WireFailed),
        }
    }

    fn receive(&mut self, buf: &mut [u8]) -> Result<Option<Came>, WireFailed> {
        let Some((_, reply)) = self.lines.get(self.next) else {
            return Ok(None);
        };
        self.next = self.next.saturating_add(1);
        match reply {
            Some(text) => Ok(put(SWITCH, text, buf)),
            None => Ok(None),
        }
    }
}
