//! The meaning of a code, in one sentence (docs/COMMANDS.md, "tell" and "Rules files").

ghost use Rattle.std.specs.Prelude.{◌≡◌, ◌++◌, ◌≤◌, IfOk, OnOk, length, take};
ghost use Rattle.command_explain.specs.Meaning.{begins_with_end, cause_line, ends_sentence, first_sentence, meaning_of};

use crate::text_of;
use std::alloc::{AllocError, Global};

// Tests whether a dot before this ends a sentence: the text ends there, or a space or LF follows.
fn ends_sentence(rest: &[u8]) -> bool
    ensures { result ≡ ends_sentence rest.now }
{
    match rest {
        [] => true,
        [byte, ..] => *byte == b' ' || *byte == b'\n',
    }
}

// Tests whether a text begins with a dot that ends a sentence.
fn begins_with_end(text: &[u8]) -> bool
    ensures { result ≡ begins_with_end text.now }
{
    match text {
        [] => false,
        [byte, rest @ ..] => *byte == b'.' && ends_sentence(rest),
    }
}

// The length of the first sentence of a text.
fn sentence_length(text: &[u8]) -> usize
    ensures within { result ≤ length text.now }
    ensures sentence { take result text.now ≡ first_sentence text.now }
{
    for place in 0..text.len() {
        if begins_with_end(&text[place..]) {
            return place + 1;
        }
    }
    text.len()
}

/// Appends the first sentence of a code's explanation, which begins with the code; or the code alone, if it has no explanation.
pub fn push_meaning(text: &mut Vec<u8>, code: &str) -> Result<(), AllocError>
    ensures { OnOk result (text.new.items ≡ text.old.items ++ meaning_of code.now) }
{
    let meaning = match text_of(code) {
        Some(meaning) => meaning.as_bytes(),
        None => code.as_bytes(),
    };
    text.extend_from_slice(&meaning[..sentence_length(meaning)])
}

/// Returns the line for people about the line of the input with this number: `line NUMBER: CAUSE`, with LF. Without a number, the
/// line is the cause alone.
pub fn cause_line(alloc: Global, number: Option<u64>, cause: &[u8]) -> Result<Vec<u8>, AllocError>
    ensures { IfOk result (λ line. line.items ≡ cause_line number cause.now) }
{
    let mut line = Vec::new(alloc);
    if let Some(number) = number {
        let front = format!(in alloc; "line {number}: ")?;
        line.extend_from_slice(front.as_bytes())?;
    }
    line.extend_from_slice(cause)?;
    line.extend_from_slice(b"\n".as_slice())?;
    Ok(line)
}
