//! Operands as they are written after a mnemonic (docs/MACHINE.md, "Assembly text").

ghost use Rattle.std.specs.Prelude.{◌≡◌, codes};
ghost use Rattle.std.specs.Option.{option_map};
ghost use Rattle.bpf_asm.specs.body.Reading.{after_number, bracket_in, closed_in, form_in, header_in, marked_in, named_in, tokens_of};
ghost use Rattle.bpf_asm.specs.body.View.{form_of};

use crate::mnemonic::is_name;
use crate::token::{Token, after_mark, first_token};

#[derive(Clone, Copy)]
pub(crate) enum Form<'a> {
    Nothing,
    Absolute(u32),
    Indexed(u32),
    Constant(u32),
    Cell(u32),
    Header(u32),
    Skip(u32),
    Name(&'a [u8]),
}

#[tactic(auto, unfolding(crate::specs::body::Reading::after_number))]
fn after_number(line: &[u8]) -> Option<(u32, &[u8])>
    ensures { option_map (λ found. (found.0, tokens_of found.1.now)) result ≡ after_number (tokens_of line.now) }
{
    match first_token(line) {
        Some((Token::Number(n), rest)) => Some((n, rest)),
        _ => None,
    }
}

// `k]`
#[tactic(auto, unfolding(crate::specs::body::Reading::closed_in))]
fn closed(line: &[u8]) -> Option<(u32, &[u8])>
    ensures { option_map (λ found. (found.0, tokens_of found.1.now)) result ≡ closed_in (tokens_of line.now) }
{
    let Some((k, rest)) = after_number(line) else {
        return None;
    };
    match after_mark(rest, b']') {
        Some(rest) => Some((k, rest)),
        None => None,
    }
}

// `k]` or `x+k]`, after `[`
#[tactic(auto, unfolding(crate::specs::body::Reading::bracket_in, crate::specs::body::Reading::closed_in, crate::specs::body::Reading::after_number, crate::specs::body::Reading::after_word))]
fn bracket(line: &[u8]) -> Option<(Form<'_>, &[u8])>
    ensures { option_map (λ found. (form_of found.0, tokens_of found.1.now)) result ≡ bracket_in (tokens_of line.now) }
{
    match first_token(line) {
        Some((Token::Number(k), rest)) => match after_mark(rest, b']') {
            Some(rest) => Some((Form::Absolute(k), rest)),
            None => None,
        },
        Some((Token::Word(name), rest)) if is_name(name, "x") => {
            let Some(rest) = after_mark(rest, b'+') else {
                return None;
            };
            match closed(rest) {
                Some((k, rest)) => Some((Form::Indexed(k), rest)),
                None => None,
            }
        }
        _ => None,
    }
}

// `*([k]&0xf)`, after a number that must be 4
#[tactic(auto, unfolding(crate::specs::body::Reading::header_in))]
fn header(four: u32, line: &[u8]) -> Option<(Form<'_>, &[u8])>
    ensures { option_map (λ found. (form_of found.0, tokens_of found.1.now)) result ≡ header_in four (tokens_of line.now) }
{
    let Some(rest) = after_mark(line, b'*') else {
        return None;
    };
    let Some(rest) = after_mark(rest, b'(') else {
        return None;
    };
    let Some(rest) = after_mark(rest, b'[') else {
        return None;
    };
    let Some((k, rest)) = closed(rest) else {
        return None;
    };
    let Some(rest) = after_mark(rest, b'&') else {
        return None;
    };
    let Some((mask, rest)) = after_number(rest) else {
        return None;
    };
    let Some(rest) = after_mark(rest, b')') else {
        return None;
    };
    if four == 4 && mask == 15 {
        Some((Form::Header(k), rest))
    } else {
        None
    }
}

// A word: `M` before `[k]`, or a name alone.
#[tactic(auto, unfolding(crate::specs::body::Reading::named_in))]
fn named<'a>(name: &'a [u8], line: &'a [u8]) -> Option<(Form<'a>, &'a [u8])>
    ensures { option_map (λ found. (form_of found.0, tokens_of found.1.now)) result ≡ named_in name.now (tokens_of line.now) }
{
    match after_mark(line, b'[') {
        Some(rest) => {
            if !is_name(name, "M") {
                return None;
            }
            match closed(rest) {
                Some((k, rest)) => Some((Form::Cell(k), rest)),
                None => None,
            }
        }
        None => Some((Form::Name(name), line)),
    }
}

#[tactic(auto, unfolding(crate::specs::body::Reading::marked_in))]
fn marked(mark: u8, line: &[u8]) -> Option<(Form<'_>, &[u8])>
    ensures { option_map (λ found. (form_of found.0, tokens_of found.1.now)) result ≡ marked_in mark (tokens_of line.now) }
{
    if mark == b'[' {
        return bracket(line);
    }
    let Some((k, rest)) = after_number(line) else {
        return None;
    };
    match mark {
        b'#' => Some((Form::Constant(k), rest)),
        b'+' => Some((Form::Skip(k), rest)),
        _ => None,
    }
}

/// Reads the operand at the front of a line, and returns it with the rest. A label of a jump is an operand too.
#[tactic(auto, unfolding(crate::specs::body::Reading::form_in))]
pub(crate) fn operand_form(line: &[u8]) -> Option<(Form<'_>, &[u8])>
    ensures { option_map (λ found. (form_of found.0, tokens_of found.1.now)) result ≡ form_in (tokens_of line.now) }
{
    match first_token(line) {
        None => Some((Form::Nothing, line)),
        Some((Token::Word(name), rest)) => named(name, rest),
        Some((Token::Number(n), rest)) => header(n, rest),
        Some((Token::Mark(mark), rest)) => marked(mark, rest),
        Some((Token::Stray, _)) => None,
    }
}
