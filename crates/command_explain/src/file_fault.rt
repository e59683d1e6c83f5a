//! The text for people about a file that is refused: the place, the meaning of the code, and the line
//! (docs/COMMANDS.md, "Rules files").

ghost use Rattle.std.specs.Prelude.{◌≡◌, ◌≤◌, IfOk, length};
ghost use Rattle.command_explain.specs.Meaning.{file_line};

use crate::meaning::push_meaning;
use crate::shown::push_shown;
use std::alloc::{AllocError, Global};

/// The most bytes of a line that are shown.
pub const SHOWN_LIMIT: usize = 256;

/// The place of a file's fault.
#[derive(Clone, Copy)]
pub struct FaultPlace<'a> {
    /// The name of the file.
    pub file: &'a str,
    /// The number of the line, from 1.
    pub number: u32,
    /// The byte of the line, from 1; one past its end if something is missing there.
    pub column: usize,
    /// The line.
    pub line: &'a [u8],
}

// Returns the start of the shown part of a line. The place is in the part's middle if there is more on both sides.
fn shown_from(len: usize, place: usize) -> usize
    requires { place ≤ len }
    ensures before { result ≤ place }
{
    if len <= SHOWN_LIMIT || place <= SHOWN_LIMIT / 2 {
        return 0;
    }
    let latest = len - SHOWN_LIMIT;
    let middle = place - SHOWN_LIMIT / 2;
    if middle < latest { middle } else { latest }
}

// Returns the end of the shown part of a line.
fn shown_to(len: usize, from: usize) -> usize
    requires { from ≤ len }
    ensures start { from ≤ result }
    ensures within { result ≤ len }
{
    if len - from <= SHOWN_LIMIT {
        len
    } else {
        from + SHOWN_LIMIT
    }
}

// Appends the line, cut to `SHOWN_LIMIT` bytes round the place, and a caret under the place.
fn push_line(text: &mut Vec<u8>, place: FaultPlace<'_>) -> Result<(), AllocError> {
    let line = place.line;
    let column = place.column.saturating_sub(1);
    let at = if column < line.len() {
        column
    } else {
        line.len()
    };
    let from = shown_from(line.len(), at);
    let to = shown_to(line.len(), from);
    // A place past the shown part has its caret after that part.
    let at = if at < to { at } else { to };
    let begin = text.len();
    push_shown(text, &line[from..at])?;
    let width = text.len().saturating_sub(begin);
    push_shown(text, &line[at..to])?;
    text.extend_from_slice(b"\n".as_slice())?;
    for _space in 0..width {
        text.extend_from_slice(b" ".as_slice())?;
    }
    text.extend_from_slice(b"^\n".as_slice())
}

/// Returns the text for people about a line that is refused: `FILE:LINE:COLUMN: CODE: MEANING`, the line, and a caret under the
/// place.
///
/// The code is without its place, such as `P1`. The line is cut to `SHOWN_LIMIT` bytes round the place; a byte outside 0x20 to 0x7e
/// is shown as `\xNN`. Each line of the text ends with LF.
pub fn line_fault_text(
    alloc: Global,
    place: FaultPlace<'_>,
    code: &str,
) -> Result<Vec<u8>, AllocError> {
    let mut text = Vec::new(alloc);
    text.extend_from_slice(place.file.as_bytes())?;
    let (number, column) = (place.number, place.column);
    let numbers = format!(in alloc; ":{number}:{column}: ")?;
    text.extend_from_slice(numbers.as_bytes())?;
    push_meaning(&mut text, code)?;
    text.extend_from_slice(b"\n".as_slice())?;
    push_line(&mut text, place)?;
    Ok(text)
}

/// Returns the text for people about a file that is refused for no line: `FILE: CODE: MEANING`.
pub fn file_fault_text(alloc: Global, file: &str, code: &str) -> Result<Vec<u8>, AllocError>
    ensures { IfOk result (λ text. text.items ≡ file_line file.now code.now) }
{
    let mut text = Vec::new(alloc);
    text.extend_from_slice(file.as_bytes())?;
    text.extend_from_slice(b": ".as_slice())?;
    push_meaning(&mut text, code)?;
    text.extend_from_slice(b"\n".as_slice())?;
    Ok(text)
}
