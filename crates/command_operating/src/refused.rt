//! How people are shown a request of `tell` that was not done (docs/COMMANDS.md, "tell").

ghost use Rattle.std.specs.Prelude.{◌≡◌, OnOk, take};
ghost use Rattle.std.specs.Io.KnownBytes.{Appends};
ghost use Rattle.command_explain.specs.Meaning.{cause_line, meaning_of};
ghost use Rattle.command_explain.specs.Shown.{shown_text};
ghost use Rattle.command_line.specs.Ending.{AppendsBeginning};
ghost use Rattle.command_operating.specs.RefusalLines.{Shows, number_at, number_of};

use command_explain::{SHOWN_LIMIT, cause_line, push_meaning, push_shown, shown_code};
use command_line::{Failure, write_whole};
use control_client::{Explains, Places};
use std::alloc::Global;
use std::io::Write;

/// Shows what the codes of replies mean.
#[derive(Clone, Copy, Drop)]
pub(crate) struct Meanings {
    pub(crate) alloc: Global,
}

// The number at a place, from 1; if there is none, the other one.
fn number_at(other: Option<u64>, numbers: &[u64], mut place: u64) -> Option<u64>
    ensures { result ≡ number_at other numbers.now place }
{
    let mut left = numbers;
    while let [number, rest @ ..] = left {
        if place < 1 {
            return other;
        }
        if place == 1 {
            return Some(*number);
        }
        left = rest;
        place -= 1;
    }
    other
}

// The number of the line that a reply is about.
fn number_of(places: Places<'_>, place: Option<u64>) -> Option<u64>
    ensures { result ≡ number_of places.entry.head places.entry.lines.now place }
{
    match place {
        None => places.head,
        Some(place) => number_at(places.head, places.lines, place),
    }
}

/// Writes a text, and flushes it.
pub(crate) fn write_flushed<E: Write>(text: &[u8], errs: &mut E) -> Result<(), Failure>
    ensures written { OnOk result (Appends (E.contents errs.old) (E.contents errs.new) text.now) }
    ensures beginning { AppendsBeginning (E.contents errs.old) (E.contents errs.new) text.now }
{
    write_whole(text, errs)?;
    match errs.flush() {
        Ok(()) => Ok(()),
        Err(_) => Err(Failure::WriteFailed),
    }
}

// Writes the line about a cause.
fn write_cause<E: Write>(
    alloc: Global,
    number: Option<u64>,
    cause: &[u8],
    errs: &mut E,
) -> Result<(), Failure>
    ensures written { OnOk result (Appends (E.contents errs.old) (E.contents errs.new) (cause_line number cause.now)) }
    ensures beginning { AppendsBeginning (E.contents errs.old) (E.contents errs.new) (cause_line number cause.now) }
{
    let line = cause_line(alloc, number, cause)?;
    write_flushed(&line, errs)
}

// Writes what a code means.
fn write_meaning<E: Write>(
    alloc: Global,
    number: Option<u64>,
    code: &str,
    errs: &mut E,
) -> Result<(), Failure>
    ensures written { OnOk result (Appends (E.contents errs.old) (E.contents errs.new) (cause_line number (meaning_of code.now))) }
    ensures beginning { AppendsBeginning (E.contents errs.old) (E.contents errs.new) (cause_line number (meaning_of code.now)) }
{
    let mut cause = Vec::new(alloc);
    push_meaning(&mut cause, code)?;
    write_cause(alloc, number, &cause, errs)
}

// A beginning of a reply.
fn front_of(reply: &[u8]) -> &[u8]
    ensures { result.now ≡ take SHOWN_LIMIT reply.now }
{
    if reply.len() <= SHOWN_LIMIT {
        return reply;
    }
    &reply[..SHOWN_LIMIT]
}

// Writes a beginning of a reply.
fn write_reply<E: Write>(
    alloc: Global,
    number: Option<u64>,
    reply: &[u8],
    errs: &mut E,
) -> Result<(), Failure>
    ensures written { OnOk result (Appends (E.contents errs.old) (E.contents errs.new) (cause_line number (shown_text (take SHOWN_LIMIT reply.now)))) }
    ensures beginning { AppendsBeginning (E.contents errs.old) (E.contents errs.new) (cause_line number (shown_text (take SHOWN_LIMIT reply.now))) }
{
    let mut cause = Vec::new(alloc);
    push_shown(&mut cause, front_of(reply))?;
    write_cause(alloc, number, &cause, errs)
}

impl Explains for Meanings {
    ghost shows = { Shows };

    fn show<E: Write>(&self, places: Places<'_>, reply: &[u8], errs: &mut E) {
        match shown_code(reply) {
            Some(shown) => {
                let number = number_of(places, shown.line);
                let _ = write_meaning(self.alloc, number, shown.code, errs);
            }
            None => {
                let _ = write_reply(self.alloc, places.head, reply, errs);
            }
        }
    }
}
