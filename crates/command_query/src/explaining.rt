//! The command `explain`: what a code means (docs/COMMANDS.md, "explain").

ghost use Rattle.std.specs.Prelude.{◌≡◌, IfErr, IfOk, map};
ghost use Rattle.control_line.specs.Request.{spaced};
ghost use Rattle.command_query.specs.CommandResult.{IsExplainAnswer};
ghost use Rattle.command_query.specs.Query.{IsRefusalOfCode};
ghost use Rattle.command_query.specs.body.Stop.{IsStopBy};

use crate::command_result::CommandResult;
use crate::stop::Stop;
use command_explain::{explanation, shown_code};
use control_line::Reason;
use std::alloc::{AllocError, Global};

// The words as one text, with a space between each two.
fn join_words(alloc: Global, words: &[&str]) -> Result<Vec<u8>, AllocError>
    ensures { IfOk result (λ text. text.items ≡ spaced (map (λ word. word.now) words.now)) }
{
    let mut text = Vec::new(alloc);
    let [first, rest @ ..] = words else {
        return Ok(text);
    };
    text.extend_from_slice(first.as_bytes())?;
    let mut left = rest;
    while let [word, rest @ ..] = left {
        text.extend_from_slice(b" ".as_slice())?;
        text.extend_from_slice(word.as_bytes())?;
        left = rest;
    }
    Ok(text)
}

fn explain_text(text: &[u8]) -> Result<CommandResult, Stop>
    ensures answer { IfOk result (IsExplainAnswer text.now) }
    ensures refused { IfErr result (IsStopBy (IsRefusalOfCode text.now)) }
{
    let Some(shown) = shown_code(text) else {
        return Err(Stop::Refused(Reason::BadForm));
    };
    let Some(text) = explanation(shown.code) else {
        unreachable!();
    };
    Ok(CommandResult::Explained { text })
}

/// Finds the explanation of the code that the words show, as one text. A text that shows none is refused.
pub fn explain(alloc: Global, words: &[&str]) -> Result<CommandResult, Stop>
    ensures answer { IfOk result (IsExplainAnswer (spaced (map (λ word. word.now) words.now))) }
    ensures refused { IfErr result (IsStopBy (IsRefusalOfCode (spaced (map (λ word. word.now) words.now)))) }
{
    let text = join_words(alloc, words)?;
    explain_text(&text)
}
