//! The tokens of a line (docs/MACHINE.md, "Assembly text").

ghost use Rattle.std.specs.Prelude.{◌≡◌, ◌∷◌, ◌≤◌, IsTrue, MatchOption, [], drop, length, take};
ghost use Rattle.std.specs.List.{prefix_len};
ghost use Rattle.std.specs.Option.{option_map};
ghost use Rattle.bpf_asm.specs.body.Reading.{after_mark, is_end, number_of, number_token, tokens_of};
ghost use Rattle.bpf_asm.specs.Token.{begins_word, is_gap, is_in_word, is_mark};
ghost use Rattle.bpf_asm.specs.body.View.{is_of, token_of};

use crate::number::number_of;

#[derive(Clone, Copy)]
pub(crate) enum Token<'a> {
    Word(&'a [u8]),
    Number(u32),
    Mark(u8),
    // A number that is misspelt or too great, or a byte of no token.
    Stray,
}

// A kind of bytes that runs are made of.
#[derive(Clone, Copy)]
enum Kind {
    Gap,
    Word,
    Number,
}

#[inline(always)]
fn is_gap(b: u8) -> bool
    ensures { result ≡ is_gap b }
{
    b == b' ' || b == b'\t'
}

#[inline(always)]
fn is_mark(b: u8) -> bool
    ensures { result ≡ is_mark b }
{
    matches!(
        b,
        b'[' | b']' | b'(' | b')' | b'#' | b'+' | b'*' | b'&' | b',' | b':'
    )
}

// The entry of a byte is the byte itself if it may occur in a word, else a comma.
static IN_WORDS: [u8; 256] = *b"\
    ,,,,,,,,,,,,,,,,,,,,,,,,,,,,,,,,\
    ,,,,,,,,,,,,,,,,0123456789,,,,,,\
    ,ABCDEFGHIJKLMNOPQRSTUVWXYZ,,,,_\
    ,abcdefghijklmnopqrstuvwxyz,,,,,\
    ,,,,,,,,,,,,,,,,,,,,,,,,,,,,,,,,\
    ,,,,,,,,,,,,,,,,,,,,,,,,,,,,,,,,\
    ,,,,,,,,,,,,,,,,,,,,,,,,,,,,,,,,\
    ,,,,,,,,,,,,,,,,,,,,,,,,,,,,,,,,";

#[inline(always)]
fn is_in_word(b: u8) -> bool
    ensures { result ≡ is_in_word b }
{
    IN_WORDS[b as usize] != b','
}

#[inline(always)]
fn begins_word(b: u8) -> bool
    ensures { result ≡ begins_word b }
{
    is_in_word(b) && !b.is_ascii_digit()
}

#[inline(always)]
fn is_of(kind: Kind, b: u8) -> bool
    ensures { result ≡ is_of kind b }
{
    match kind {
        Kind::Gap => is_gap(b),
        Kind::Word => is_in_word(b),
        Kind::Number => is_in_word(b) && b != b'_',
    }
}

#[inline(always)]
fn run_len(kind: Kind, text: &[u8]) -> usize
    ensures len { result ≡ prefix_len (is_of kind) text.now }
    ensures within { result ≤ length text.now }
{
    for (i, b) in text.iter().enumerate() {
        if !is_of(kind, *b) {
            return i;
        }
    }
    text.len()
}

#[inline(always)]
fn longest_run(kind: Kind, text: &[u8]) -> (&[u8], &[u8])
    ensures run { result.0.now ≡ take (prefix_len (is_of kind) text.now) text.now }
    ensures rest { result.1.now ≡ drop (prefix_len (is_of kind) text.now) text.now }
{
    let len = run_len(kind, text);
    (&text[..len], &text[len..])
}

fn number_token(run: &[u8]) -> Token<'_>
    ensures { token_of result ≡ number_token (number_of run.now) }
{
    match number_of(run) {
        Some(n) => Token::Number(n),
        None => Token::Stray,
    }
}

#[inline(always)]
fn behind_gap(line: &[u8]) -> &[u8]
    ensures { result.now ≡ drop (prefix_len is_gap line.now) line.now }
{
    longest_run(Kind::Gap, line).1
}

/// Tests whether a line has no token.
#[inline(always)]
pub(crate) fn is_blank(line: &[u8]) -> bool
    ensures { result ≡ is_end (tokens_of line.now) }
{
    behind_gap(line).is_empty()
}

/// Returns the rest of a line after a mark, if the mark is the line's first token.
#[inline(always)]
pub(crate) fn after_mark(line: &[u8], mark: u8) -> Option<&[u8]>
    requires { IsTrue (is_mark mark) }
    ensures { option_map (λ rest. tokens_of rest.now) result ≡ after_mark mark (tokens_of line.now) }
{
    let line = behind_gap(line);
    let b = *line.first()?;
    if b == mark { Some(&line[1..]) } else { None }
}

/// Reads the first token of a line. Returns the token and the rest of the line, or `None` if only gaps are left.
#[inline(always)]
pub(crate) fn first_token(line: &[u8]) -> Option<(Token<'_>, &[u8])>
    ensures { MatchOption result (tokens_of line.now ≡ []) (λ found. tokens_of line.now ≡ token_of found.0 ∷ tokens_of found.1.now) }
{
    let line = behind_gap(line);
    let b = *line.first()?;
    if begins_word(b) {
        let (name, rest) = longest_run(Kind::Word, line);
        return Some((Token::Word(name), rest));
    }
    if b.is_ascii_digit() {
        let (run, rest) = longest_run(Kind::Number, line);
        return Some((number_token(run), rest));
    }
    let rest = &line[1..];
    if is_mark(b) {
        return Some((Token::Mark(b), rest));
    }
    Some((Token::Stray, rest))
}
