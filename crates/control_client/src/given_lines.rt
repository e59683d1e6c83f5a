//! The lines to send: those of a script, or words that are a line each (docs/COMMANDS.md, "tell").

ghost use Rattle.std.specs.Prelude.{◌≡◌, ◌⊎◌, IfErr, IfOk, List, Option, Some, map, ℕ};
ghost use Rattle.command_streams.specs.Failures.{FailuresValue, InputFails};
ghost use Rattle.control_client.specs.Lines.{GivesNext, GivesNumbered, LinesFail, lines_known, script_after, script_known};
ghost use Rattle.control_line.specs.Answer.{NumberedLine, numbered};
ghost use Rattle.control_line.specs.Rules.{without_return};
ghost use Rattle.control_client.specs.body.Unread.{left_of};

use crate::unread::Unread;
use command_line::Failure;
use command_streams::Input;
use control_line::{is_skipped, without_return};
use std::alloc::Global;
use std::marker::Model;

/// A source of lines.
pub trait Lines {
    /// The lines to come, with their numbers.
    ghost coming: { Self → Option (List NumberedLine) };

    /// How many reads of its input failed, and the name of the input's borrow.
    ghost failures: { Self → FailuresValue };

    /// Replaces the contents of `line` by the next line, without LF, and returns its number. Returns `None` if there is none.
    fn next(&mut self, line: &mut Vec<u8>) -> Result<Option<u64>, Failure>
        ensures next_line { IfOk result (GivesNumbered (coming self.old) (coming self.new) line.new.items) }
        ensures faults { IfErr result (λ fault. (fault ≡ Failure.ReadFailed) ⊎ (fault ≡ Failure.OutOfMemory)) }
        ensures device_failed { LinesFail result (failures self.old) (failures self.new) };
}

/// The lines of a script that are no comments. LF ends a line, and bytes after the last LF are a line too. A line that a rules file
/// skips is skipped, and the CR at the end of a line is dropped. The number of a line counts all lines from 1; of 2^64 lines the last
/// has no number, and ends them as if memory were refused. A line takes as much memory as it has bytes. It ends by `into_inner`.
#[derive(Drop)]
pub struct InputLines<'a, I: Input> {
    input: &'a mut I,
    unread: Unread,
    // How many lines were read.
    read: u64,
}

impl<'a, I: Input> Model for InputLines<'a, I> {
    ghost use Rattle.control_client.specs.Lines.{InputLinesValue, script_after};
    ghost use Rattle.control_client.specs.body.Unread.{left_of};

    ghost Value = { InputLinesValue };

    ghost view = { λ lines. record {
      coming = script_after lines.read (left_of lines.unread (I.state lines.input.now).coming);
      failures = record { count = (I.state lines.input.now).failures; borrow = lines.input.ghost_name };
    } };
}

impl<'a, I: Input> InputLines<'a, I> {
    /// Borrows the input, of which no byte was read.
    pub fn new(alloc: Global, input: &'a mut I) -> InputLines<'a, I>
        ensures lines { result ≡ record {
          coming = script_known (I.state input.old).coming;
          failures = record { count = (I.state input.old).failures; borrow = input.entry.ghost_name };
        } }
    {
        InputLines {
            input,
            unread: Unread::new(alloc),
            read: 0,
        }
    }

    /// Returns the input, of which bytes may have been read that no line has.
    pub fn into_inner(self) -> &'a mut I
        ensures same_reference { result.ghost_name ≡ self.entry.failures.borrow }
        ensures failures { (I.state result.now).failures ≡ self.entry.failures.count }
    {
        let InputLines {
            input,
            unread: _,
            read: _,
        } = self;
        input
    }
}

// Replaces the contents of `line` by the next line of an input, without LF. Returns false if there is none.
fn read_line<I: Input>(
    input: &mut I,
    unread: &mut Unread,
    line: &mut Vec<u8>,
) -> Result<bool, Failure>
    ensures next_line { IfOk result (GivesNext (lines_known (left_of unread.old (I.state input.old).coming))
        (lines_known (left_of unread.new (I.state input.new).coming)) line.new.items) }
    ensures faults { IfErr result (λ fault. (fault ≡ Failure.ReadFailed) ⊎ (fault ≡ Failure.OutOfMemory)) }
    ensures device_failed { InputFails result (I.state input.old).failures (I.state input.new).failures }
{
    line.clear();
    loop {
        let ended = unread.take_line(line)?;
        if ended {
            return Ok(true);
        }
        if !unread.fill(input)? {
            return Ok(!line.is_empty());
        }
    }
}

// Takes the CR off the end, if there is one.
fn drop_return(line: &mut Vec<u8>)
    ensures { line.new.items ≡ without_return line.old.items }
{
    let len = without_return(line.as_slice()).len();
    line.truncate(len);
}

// Replaces the contents of `line` by the next line that is sent, and returns its number. Returns `None` if there is none. `read`
// counts the lines that were read.
fn read_told<I: Input>(
    input: &mut I,
    unread: &mut Unread,
    read: &mut u64,
    line: &mut Vec<u8>,
) -> Result<Option<u64>, Failure>
    ensures next_line { IfOk result (GivesNumbered (script_after read.old (left_of unread.old (I.state input.old).coming))
        (script_after read.new (left_of unread.new (I.state input.new).coming)) line.new.items) }
    ensures faults { IfErr result (λ fault. (fault ≡ Failure.ReadFailed) ⊎ (fault ≡ Failure.OutOfMemory)) }
    ensures device_failed { InputFails result (I.state input.old).failures (I.state input.new).failures }
{
    for _line in 0..u64::MAX {
        if !read_line(input, unread, line)? {
            return Ok(None);
        }
        let Some(number) = read.checked_add(1) else {
            return Err(Failure::OutOfMemory);
        };
        *read = number;
        if !is_skipped(line.as_slice()) {
            drop_return(line);
            return Ok(Some(number));
        }
    }
    Err(Failure::OutOfMemory)
}

impl<I: Input> Lines for InputLines<'_, I> {
    ghost coming = { λ lines. lines.coming };

    ghost failures = { λ lines. lines.failures };

    fn next(&mut self, line: &mut Vec<u8>) -> Result<Option<u64>, Failure> {
        read_told(self.input, &mut self.unread, &mut self.read, line)
    }
}

/// Words that are a line each. Their numbers count from 1.
#[derive(Drop)]
pub struct WordLines<'a> {
    words: &'a [&'a str],
    given: usize,
}

impl<'a> Model for WordLines<'a> {
    ghost use Rattle.std.specs.Prelude.{List, drop, map, suc};
    ghost use Rattle.control_line.specs.Answer.{NumberedLine, numbered};

    ghost Value = { List NumberedLine };

    ghost view = { λ lines. numbered (suc lines.given) (map (λ word. word.now) (drop lines.given lines.words.now)) };
}

impl<'a> WordLines<'a> {
    pub fn new(words: &'a [&'a str]) -> WordLines<'a>
        ensures lines { result ≡ numbered 1 (map (λ word. word.now) words.now) }
    {
        WordLines { words, given: 0 }
    }
}

impl Lines for WordLines<'_> {
    ghost coming = { λ lines. Some lines };

    ghost failures = { λ _. record { count = 0; borrow = 0 } };

    fn next(&mut self, line: &mut Vec<u8>) -> Result<Option<u64>, Failure> {
        let Some(word) = self.words.get(self.given) else {
            return Ok(None);
        };
        line.clear();
        line.extend_from_slice(word.as_bytes())?;
        self.given += 1;
        Ok(Some(self.given as u64))
    }
}
