//! The command `tell`: control lines to a running switch (docs/COMMANDS.md, "tell").

ghost use Rattle.std.specs.Prelude.{◌≡◌, ◌≢◌, ◌⊎◌, IfErr, IfOk, Some, [], false, map, string_bytes};
ghost use Rattle.std.specs.List.{list_any};
ghost use Rattle.command_line.specs.ControlAddress.{IsNoControlAddress};
ghost use Rattle.command_streams.specs.Endings.{EndsByOneCause};
ghost use Rattle.command_streams.specs.Failures.{InputFails, OutputFails};
ghost use Rattle.control_client.specs.Lines.{LinesFail};
ghost use Rattle.command_operating.specs.Telling.{EndsInTellFailure, StopsTelling, TellFails, Tells, WritesReplies, has_space, is_one_line, is_whole, joined, lines_of_words, lines_told};
ghost use Rattle.command_operating.specs.Telling.{IsToldRefusal};
ghost use Rattle.control_client.specs.Wire.{peer_of};
ghost use Rattle.control_line.specs.Answer.{numbered};

use crate::refuse_address;
use crate::refused::Meanings;
use crate::reporting::report;
use command_line::{ControlAddress, Failure, Status};
use command_streams::{CountedWrite, Input};
use control_client::{
    InputLines, Lines, Reach, WordLines, tell_change_over_socket, tell_over_socket,
};
use std::alloc::{AllocError, Global};
use std::cell::Cell;
use std::io::Write;
use std::net::Net;
use std::time::Clock;

// Sends lines, all as one change or not.
fn tell_lines<R: Net + Clock, L: Lines, W: CountedWrite, E: Write>(
    rt: &R,
    alloc: Global,
    way: (Reach<'_>, bool),
    lines: &mut L,
    out: &mut W,
    errs: &mut E,
) -> Result<bool, Failure>
    ensures told { IfOk result (Tells way.entry.1 (peer_of way.entry.0.address) (L.coming lines.old)
        (W.contents out.old) (W.contents out.new) (E.contents errs.old) (E.contents errs.new)) }
    ensures untold { IfOk result (λ refused. refused ≡ false → errs.new ≡ errs.old) }
    ensures stopped { IfErr result (λ fault. StopsTelling way.entry.1 fault (peer_of way.entry.0.address) (L.coming lines.old)
        (W.contents out.old) (W.contents out.new) (E.contents errs.old) (E.contents errs.new)) }
    ensures device_failed { OutputFails result (W.failures out.old) (W.failures out.new) }
    ensures input_failed { LinesFail result (L.failures lines.old) (L.failures lines.new) }
{
    let (reach, all) = way;
    let meanings = Meanings { alloc };
    if all {
        return tell_change_over_socket(rt, alloc, reach, lines, out, errs, &meanings);
    }
    tell_over_socket(rt, alloc, reach, lines, out, errs, &meanings)
}

fn has_space(word: &str) -> bool
    ensures { result ≡ has_space word.now }
{
    let mut left = word.as_bytes();
    while let [byte, rest @ ..] = left {
        if *byte == b' ' {
            return true;
        }
        left = rest;
    }
    false
}

// Tests whether a word has a space.
fn any_has_space(words: &[&str]) -> bool
    ensures { result ≡ list_any has_space (map (λ word. word.now) words.now) }
{
    let mut left = words;
    while let [word, rest @ ..] = left {
        if has_space(word) {
            return true;
        }
        left = rest;
    }
    false
}

// Tests whether a word alone is a line.
fn is_whole(word: &str) -> bool
    ensures { result ≡ is_whole word.now }
{
    word == "show" || word == "sweep" || word == "stop" || word == "totals"
}

// Tests whether words are one line.
fn is_one_line(words: &[&str]) -> bool
    ensures { result ≡ is_one_line (map (λ word. word.now) words.now) }
{
    match words {
        [] => false,
        [first, ..] => !is_whole(first) && !any_has_space(words),
    }
}

// Joins words, with a space between each two.
fn joined(alloc: Global, words: &[&str]) -> Result<String, AllocError>
    ensures { IfOk result (λ line. string_bytes line ≡ joined (map (λ word. word.now) words.now)) }
{
    let mut line = String::new(alloc);
    let [first, rest @ ..] = words else {
        return Ok(line);
    };
    line.push_str(first)?;
    let mut left = rest;
    while let [word, more @ ..] = left {
        line.push_str(" ")?;
        line.push_str(word)?;
        left = more;
    }
    Ok(line)
}

// Sends words: as one line, or a line each.
fn tell_words<R: Net + Clock, W: CountedWrite, E: Write>(
    rt: &R,
    alloc: Global,
    way: (Reach<'_>, bool),
    words: &[&str],
    out: &mut W,
    errs: &mut E,
) -> Result<bool, Failure>
    ensures told { IfOk result (Tells way.entry.1 (peer_of way.entry.0.address) (Some (numbered 1 (lines_of_words (map (λ word. word.now) words.now))))
        (W.contents out.old) (W.contents out.new) (E.contents errs.old) (E.contents errs.new)) }
    ensures untold { IfOk result (λ refused. refused ≡ false → errs.new ≡ errs.old) }
    ensures stopped { IfErr result (λ fault. StopsTelling way.entry.1 fault (peer_of way.entry.0.address)
        (Some (numbered 1 (lines_of_words (map (λ word. word.now) words.now))))
        (W.contents out.old) (W.contents out.new) (E.contents errs.old) (E.contents errs.new)) }
    ensures device_failed { OutputFails result (W.failures out.old) (W.failures out.new) }
    ensures never_unread { IfErr result (λ fault. fault ≢ Failure.ReadFailed) }
{
    if !is_one_line(words) {
        return tell_lines(rt, alloc, way, &mut WordLines::new(words), out, errs);
    }
    let line = joined(alloc, words)?;
    let lines = [line.as_str()];
    tell_lines(rt, alloc, way, &mut WordLines::new(&lines), out, errs)
}

// Sends the words, or if there are none the lines of the input.
fn tell_words_or_input<R: Net + Clock, I: Input, W: CountedWrite, E: Write>(
    rt: &R,
    alloc: Global,
    way: (Reach<'_>, bool),
    words: &[&str],
    input: &mut I,
    out: &mut W,
    errs: &mut E,
) -> Result<bool, Failure>
    ensures told { IfOk result (Tells way.entry.1 (peer_of way.entry.0.address)
        (lines_told (map (λ word. word.now) words.now) (I.state input.old).coming)
        (W.contents out.old) (W.contents out.new) (E.contents errs.old) (E.contents errs.new)) }
    ensures untold { IfOk result (λ refused. refused ≡ false → errs.new ≡ errs.old) }
    ensures stopped { IfErr result (λ fault. StopsTelling way.entry.1 fault (peer_of way.entry.0.address)
        (lines_told (map (λ word. word.now) words.now) (I.state input.old).coming)
        (W.contents out.old) (W.contents out.new) (E.contents errs.old) (E.contents errs.new)) }
    ensures device_failed { OutputFails result (W.failures out.old) (W.failures out.new) }
    ensures never_unread { IfErr result (λ fault. map (λ word. word.now) words.now ≢ [] → fault ≢ Failure.ReadFailed) }
    ensures input_failed { InputFails result (I.state input.old).failures (I.state input.new).failures }
    ensures input_kept { map (λ word. word.now) words.now ≢ [] → input.new ≡ input.old }
{
    if !words.is_empty() {
        return tell_words(rt, alloc, way, words, out, errs);
    }
    let mut lines = InputLines::new(alloc, input);
    let told = tell_lines(rt, alloc, way, &mut lines, out, errs);
    let _ = lines.into_inner();
    told
}

/// Runs `tell` with the text of the switch's address, the seconds for a reply, and whether all lines are one change. The lines are
/// those of the words, or those of the input if there are no words. Words leave the input unread.
pub fn run_tell<R: Net + Clock, I: Input, W: CountedWrite, E: Write>(
    rt: &R,
    alloc: Global,
    switch: (&str, u64, bool),
    words: &[&str],
    input: &mut I,
    out: &mut W,
    errs: &mut E,
) -> Status
    ensures done { result ≡ Status.Done
        → WritesReplies switch.entry.0.now switch.entry.2 (map (λ word. word.now) words.now) (I.state input.old).coming
        (W.contents out.old) (W.contents out.new) (E.contents errs.old) (E.contents errs.new) false }
    ensures refused { result ≡ Status.Refused
        → IsToldRefusal switch.entry.0.now switch.entry.2 (map (λ word. word.now) words.now) (I.state input.old).coming
        (W.contents out.old) (W.contents out.new) (E.contents errs.old) (E.contents errs.new) }
    ensures no_errors { (result ≡ Status.Done) ⊎ ((result ≡ Status.Refused) × IsNoControlAddress switch.entry.0.now) → errs.new ≡ errs.old }
    ensures never_misused { result ≡ Status.Misused → ⊥ }
    ensures failed { result ≡ Status.Failed
        → EndsInTellFailure switch.entry.0.now switch.entry.2 (map (λ word. word.now) words.now) (I.state input.old).coming
        (W.contents out.old) (W.contents out.new) (E.contents errs.old) (E.contents errs.new) }
    ensures device_failed { EndsByOneCause (TellFails switch.entry.0.now switch.entry.2 (map (λ word. word.now) words.now) (I.state input.old).coming
        (W.contents out.old) (W.contents out.new) (E.contents errs.old) (E.contents errs.new)) result
        (I.state input.old).failures (I.state input.new).failures (W.failures out.old) (W.failures out.new) }
    ensures input_kept { map (λ word. word.now) words.now ≢ [] → input.new ≡ input.old }
{
    let (control, seconds, all) = switch;
    let Some(address) = ControlAddress::from_text(control) else {
        return refuse_address(out, errs);
    };
    let trouble = Cell::new(None);
    let reach = Reach {
        address,
        seconds,
        trouble: &trouble,
    };
    match tell_words_or_input(rt, alloc, (reach, all), words, input, out, errs) {
        Ok(false) => Status::Done,
        Ok(true) => Status::Refused,
        Err(fault) => report(alloc, fault, control, reach, errs),
    }
}
