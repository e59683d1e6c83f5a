//! The lines of a text, and the contents of each (docs/MACHINE.md, "Assembly text").

ghost use Rattle.std.specs.Prelude.{◌≡◌, ◌∷◌, ◌++◌, ◌≤◌, MatchResult, None, Some, is_some, length, map};
ghost use Rattle.std.specs.Option.{option_map};
ghost use Rattle.bpf_asm.specs.declared.fault.AsmFault.TheVariants.{OutOfMemory};
ghost use Rattle.bpf_asm.specs.Line.{ends_line, lines_of};
ghost use Rattle.bpf_asm.specs.body.Reading.{forms_fault, line, lines_read, read_line, rest_in, tokens_of};
ghost use Rattle.bpf_asm.specs.body.View.{UnlessMemory, left_len, line_begun, line_of, lines_left, one_or_none};

use crate::fault::AsmFault;
use crate::statement::{Statement, read_statement};
use crate::token::{Token, after_mark, first_token};
use std::alloc::Allocator;

#[derive(Clone, Copy)]
pub(crate) struct Line<'a> {
    pub(crate) label: Option<&'a [u8]>,
    pub(crate) statement: Option<Statement<'a>>,
}

fn ends_line(b: u8) -> bool
    ensures { result ≡ ends_line b }
{
    b == b'\n' || b == b';'
}

/// Cuts the first line off a text. Returns the line and the rest, or `None` for the rest if it was the last line.
pub(crate) fn first_line(text: &[u8]) -> (&[u8], Option<&[u8]>)
    ensures lines { lines_of text.now ≡ result.0.now ∷ lines_left result.1 }
    ensures shorter { left_len result.1 ≤ length text.now }
{
    for (i, b) in text.iter().enumerate() {
        if ends_line(*b) {
            return (&text[..i], Some(&text[i + 1..]));
        }
    }
    (text, None)
}

// The beginning of a line: its label, and its mnemonic with the bytes after it.
#[derive(Clone, Copy)]
struct Heading<'a> {
    label: Option<&'a [u8]>,
    mnemonic: Option<(&'a [u8], &'a [u8])>,
}

// Reads the beginning of a line with a label; `behind` follows the colon.
#[tactic(auto, unfolding(crate::specs::body::Reading::rest_in))]
fn labelled<'a>(name: &'a [u8], behind: &'a [u8]) -> Option<Heading<'a>>
    ensures { line_begun result ≡ option_map (λ statement. line (Some name.entry.now) statement) (rest_in (tokens_of behind.entry.now)) }
{
    let label = Some(name);
    match first_token(behind) {
        None => Some(Heading {
            label,
            mnemonic: None,
        }),
        Some((Token::Word(name), rest)) => Some(Heading {
            label,
            mnemonic: Some((name, rest)),
        }),
        _ => None,
    }
}

#[tactic(auto, unfolding(crate::specs::body::Reading::read_line, crate::specs::body::Reading::line_in))]
fn read_heading(line: &[u8]) -> Option<Heading<'_>>
    ensures { line_begun result ≡ read_line line.now }
{
    match first_token(line) {
        None => Some(Heading {
            label: None,
            mnemonic: None,
        }),
        Some((Token::Word(name), rest)) => match after_mark(rest, b':') {
            Some(rest) => labelled(name, rest),
            None => Some(Heading {
                label: None,
                mnemonic: Some((name, rest)),
            }),
        },
        _ => None,
    }
}

// Reads a line and appends it, or returns `false` if it is in no form. Lines with and without an instruction are each appended as
// soon as they are made: a line is large, so it is moved as seldom as possible.
fn push_line<'a, A: Allocator>(
    lines: &mut Vec<Line<'a>, A>,
    bytes: &'a [u8],
) -> Result<bool, AsmFault>
    ensures { MatchResult result
        (λ in_form. (in_form ≡ is_some (read_line bytes.entry.now))
        × (map line_of lines.new.items ≡ map line_of lines.old.items ++ one_or_none (read_line bytes.entry.now)))
        (λ fault. fault ≡ OutOfMemory) }
{
    let Some(heading) = read_heading(bytes) else {
        return Ok(false);
    };
    let label = heading.label;
    let Some((name, rest)) = heading.mnemonic else {
        let statement = None;
        lines.push(Line { label, statement })?;
        return Ok(true);
    };
    let Some(statement) = read_statement(name, rest) else {
        return Ok(false);
    };
    let statement = Some(statement);
    lines.push(Line { label, statement })?;
    Ok(true)
}

/// Reads the lines of a text, or reports the first line that is in no form.
/// The reason: docs/INTERNALS.md, "The lines of an assembly are kept".
pub(crate) fn read_lines<A: Allocator>(alloc: A, text: &[u8]) -> Result<Vec<Line<'_>, A>, AsmFault>
    ensures { MatchResult result
        (λ lines. (map line_of lines.items ≡ lines_read text.now) × (forms_fault 1 (lines_of text.now) ≡ None))
        (λ fault. UnlessMemory fault (forms_fault 1 (lines_of text.now))) }
{
    let mut lines = Vec::new(alloc);
    let mut number = 1;
    let mut left = Some(text);
    while let Some(coming) = left {
        let (bytes, rest) = first_line(coming);
        if !push_line(&mut lines, bytes)? {
            return Err(AsmFault::Syntax { line: number });
        }
        number += 1;
        left = rest;
    }
    Ok(lines)
}
