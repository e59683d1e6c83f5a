//! The column of a line's fault, for people (docs/COMMANDS.md, "Rules files").

ghost use Rattle.std.specs.Prelude.{◌≡◌, ◌+◌, ◌≤◌, List, MatchOption, length, option_map, ℕ};
ghost use Rattle.control_line.specs.Answer.{program_in};
ghost use Rattle.control_line.specs.Column.{HasProgramText, bytes_in, column_in, place_in, place_of_line};
ghost use Rattle.member_group.specs.Over.{command_over};
ghost use Rattle.control_line.specs.body.Reading.{source_of};

use crate::reason::Reason;
use crate::request::{ProgramText, read_change};
use filter_program::TextFault;
use member_group::Command;

fn bytes_of<'a>(text: ProgramText<'a>) -> &'a [u8]
    ensures { result.now ≡ bytes_in (source_of text.entry) }
{
    match text {
        ProgramText::Assembly(text) => text,
        ProgramText::Expression(text) => text,
    }
}

// The text of the program of a command that has one.
fn program_text<'a>(command: Command<ProgramText<'a>>) -> Option<&'a [u8]>
    ensures { option_map (λ text. text.now) result ≡ option_map bytes_in (program_in (command_over source_of command.entry)) }
{
    match command {
        Command::SetSelector { program, .. } => Some(bytes_of(program)),
        Command::SetFilter { program, .. } => Some(bytes_of(program)),
        Command::AddGroup { .. } => None,
        Command::RemoveGroup { .. } => None,
        Command::Join { .. } => None,
        Command::Leave { .. } => None,
        Command::ClearSelector { .. } => None,
        Command::ClearFilter { .. } => None,
        Command::LockFilter { .. } => None,
    }
}

// The text of the program in a line that has one.
fn text_in(line: &[u8]) -> Option<&[u8]>
    ensures { MatchOption result ((text : List ℕ) → HasProgramText line.now text → ⊥) (λ text. HasProgramText line.now text.now) }
{
    match read_change(line) {
        Some(command) => program_text(command),
        None => None,
    }
}

// The place where a line of assembly text begins. Lines are counted from 1; LF or `;` ends one.
fn part_from(text: &[u8], part: usize) -> usize
    ensures place { result ≡ place_of_line part text.now }
    ensures within { result ≤ length text.now }
{
    let mut left = part;
    for (place, byte) in text.iter().enumerate() {
        if left <= 1 {
            return place;
        }
        if *byte == b'\n' || *byte == b';' {
            left -= 1;
        }
    }
    text.len()
}

// The place in the text of a program for which it is refused; its first byte, if the refusal has none.
fn place_in(text: &[u8], reason: Reason) -> usize
    ensures { result ≡ place_in text.now reason }
{
    match reason {
        Reason::Text(TextFault::Expression(fault)) => fault.code().place.unwrap_or(0),
        Reason::Text(TextFault::Assembly(fault)) => {
            part_from(text, fault.code().place.unwrap_or(0))
        }
        _ => 0,
    }
}

/// Returns the column for people: the byte of a line, from 1, for which the line is refused. The column is one past the line's end if
/// something is missing there.
///
/// For a fault of an expression, the column is the place of the fault. For a fault of assembly text, it is the first byte of the line
/// of that text. For other refusals, it is the first byte of the program's text if the line has one, else 1.
pub fn fault_column(line: &[u8], reason: Reason) -> usize
    ensures of_text { (text : List ℕ) → HasProgramText line.now text → result ≡ column_in line.now text reason }
    ensures of_no_text { ((text : List ℕ) → HasProgramText line.now text → ⊥) → result ≡ 1 }
    ensures from_one { 1 ≤ result }
    ensures within { result ≤ length line.now + 1 }
{
    let Some(text) = text_in(line) else {
        return 1;
    };
    let start = line.len().saturating_sub(text.len());
    let place = start.saturating_add(place_in(text, reason));
    if place < line.len() {
        place + 1
    } else {
        line.len() + 1
    }
}
