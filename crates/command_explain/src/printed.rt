//! A code as the program prints it, with the words and numbers around it: `refused P1 17`, `failed E3`, `C1 line 3`
//! (docs/COMMANDS.md, "Failures" and "Refusals").

ghost use Rattle.std.specs.Prelude.{◌≡◌, ◌≢◌, ◌<◌, ◌^◌, ◌++◌, ◌↔◌, Contains, IfSome, IsTrue, List, MatchOption, Option, decimal, ℕ};
ghost use Rattle.ipv4_fields.specs.Cut.{Lacks};
ghost use Rattle.command_explain.specs.Explanation.{codes_explained};
ghost use Rattle.command_explain.specs.Printed.{Front, IsNumber, ShowsCode, front_text, line_text, number_text};
ghost use Rattle.command_explain.specs.body.Word.{BeginsSmall, IsAfterWord, IsPlain};

use crate::explanation;
use ipv4_fields::split_at;
use std::str::from_utf8;

/// A code that a text shows.
#[derive(Clone, Copy)]
pub struct ShownCode<'a> {
    /// The code, a part of the text: a text that `explanation` explains.
    pub code: &'a str,
    /// The number after `line`, if there is one.
    pub line: Option<u64>,
}

// Cuts this text off the front.
fn strip<'a>(text: &'a [u8], front: &str) -> Option<&'a [u8]>
    ensures { MatchOption result ((rest : List ℕ) → text.now ≢ front.now ++ rest) (λ rest. text.now ≡ front.now ++ rest.now) }
{
    text.strip_prefix(front.as_bytes())
}

// Cuts a text before its first space.
fn cut_word(text: &[u8]) -> (&[u8], &[u8])
    ensures whole { text.now ≡ result.0.now ++ result.1.now }
    ensures lacks { Lacks 32 result.0.now }
    ensures after { IsAfterWord result.1.now }
{
    match split_at(b' ', text) {
        None => text.split_at(text.len()),
        Some((word, _rest)) => text.split_at(word.len()),
    }
}

// Tests whether a number may be written so, if the bytes are digits.
fn is_plain(field: &[u8]) -> bool
    ensures { IsTrue result ↔ IsPlain field.now }
{
    !field.is_empty() && field[0] != b'+' && (field.len() == 1 || field[0] != b'0')
}

/// Reads a number, decimal, without leading zeros and below 2^64.
pub fn number_of(field: &[u8]) -> Option<u64>
    ensures { MatchOption result ((n : ℕ) → n < 2 ^ 64 → field.now ≢ decimal n) (λ n. field.now ≡ decimal n) }
{
    if !is_plain(field) {
        return None;
    }
    let Ok(digits) = from_utf8(field) else {
        return None;
    };
    digits.parse::<u64>().ok()
}

// Reads ` line NUMBER`, or nothing.
fn read_line(text: &[u8]) -> Option<Option<u64>>
    ensures { MatchOption result
        ((line : Option ℕ) → IsNumber line → text.now ≢ line_text line)
        (λ line. IsNumber line × (text.now ≡ line_text line)) }
{
    if text.is_empty() {
        return Some(None);
    }
    let number = strip(text, " line ")?;
    Some(Some(number_of(number)?))
}

// Reads what follows a code: a number or none, and a line or none.
fn read_numbers(text: &[u8]) -> Option<Option<u64>>
    ensures { MatchOption result
        ((number line : Option ℕ) → IsNumber number → IsNumber line → text.now ≢ number_text number ++ line_text line)
        (λ line. IsNumber line × ((number : Option ℕ) × IsNumber number × (text.now ≡ number_text number ++ line_text line))) }
{
    if let Some(line) = read_line(text) {
        return Some(line);
    }
    let (number, rest) = cut_word(strip(text, " ")?);
    number_of(number)?;
    read_line(rest)
}

// Cuts `refused ` or `failed ` off the front, if it is there.
fn without_front(text: &[u8]) -> &[u8]
    ensures cut { (front : Front) × (text.now ≡ front_text front ++ result.now) }
    ensures only { (front : Front) (rest : List ℕ) → (BeginsSmall rest → ⊥) → text.now ≡ front_text front ++ rest → result.now ≡ rest }
{
    if let Some(rest) = strip(text, "refused ") {
        return rest;
    }
    strip(text, "failed ").unwrap_or(text)
}

// The word, if it is a code.
fn known_code(word: &[u8]) -> Option<&str>
    ensures { MatchOption result (Contains codes_explained word.now → ⊥) (λ code. (code.now ≡ word.now) × Contains codes_explained word.now) }
{
    let Ok(code) = from_utf8(word) else {
        return None;
    };
    explanation(code)?;
    Some(code)
}

/// Reads a code with what the program prints around it: `refused ` or `failed ` before it, a number after it, and
/// ` line ` with a number.
///
/// Each of these may be left out. Numbers are decimal, without leading zeros and below 2^64.
pub fn shown_code(text: &[u8]) -> Option<ShownCode<'_>>
    ensures shown_exactly { MatchOption result
        ((code : List ℕ) (line : Option ℕ) → ShowsCode text.now code line → ⊥)
        (λ shown. ShowsCode text.now shown.code.now shown.line) }
    ensures shown_only { IfSome result (λ shown. (code : List ℕ) (line : Option ℕ) → ShowsCode text.now code line → (code ≡ shown.code.now) × (line ≡ shown.line)) }
{
    let (word, rest) = cut_word(without_front(text));
    let code = known_code(word)?;
    let line = read_numbers(rest)?;
    Some(ShownCode { code, line })
}
