//! How a request begins: the version that it is for, and the first line of a block (docs/COMMANDS.md, "Control lines").

ghost use Rattle.std.specs.Prelude.{◌≡◌, ◌≢◌, ◌≤◌, ◌++◌, ◌↔◌, IsTrue, List, MatchOption, Some, decimal, length, ℕ};
ghost use Rattle.std.specs.Str.Parse.{AllDigits, digits_value};
ghost use Rattle.versions.specs.declared.layout.TheConstants.{LAST_NUMBER};
ghost use Rattle.ipv4_fields.specs.Cut.{Lacks};
ghost use Rattle.control_line.specs.Block.{EndsLine, HasHead, IsCountFor, IsHead, head_text, start_text, version_prefix};
ghost use Rattle.control_line.specs.body.Heads.{IsPlainNumber};
ghost use Rattle.control_line.specs.declared.head.Head.{Head as HeadValue};
ghost use Rattle.control_line.specs.declared.head.Start.{Start as StartValue};

use crate::MOST_LINES;
use crate::request::is_word;
use ipv4_fields::{read_number, split_at};
use memchr::memchr;
use versions::LAST_NUMBER;

/// The configuration that the lines of a block change.
#[derive(Clone, Copy, Debug, PartialEq, Eq)]
pub enum Start {
    /// The current one: `all`.
    Current,
    /// The one without groups: `anew`.
    Empty,
}

/// The first line of a block.
#[derive(Clone, Copy, Debug, PartialEq, Eq)]
pub struct Head {
    /// The version that the block is for, if it is for one only.
    pub version: Option<u64>,
    pub start: Start,
    /// How many lines follow.
    pub count: u32,
}

// The most digits of a version: 2^48 has fifteen.
const VERSION_DIGITS: usize = 15;

fn is_plain(field: &[u8]) -> bool
    ensures { IsTrue result ↔ IsPlainNumber field.now }
{
    !field.is_empty() && field.len() <= VERSION_DIGITS && (field.len() == 1 || field[0] != b'0')
}

// The number that few digits write, `None` if a byte is no digit.
fn number_of(field: &[u8]) -> Option<u64>
    requires { length field.now ≤ VERSION_DIGITS }
    ensures { MatchOption result (AllDigits 10 field.now → ⊥) (λ n. AllDigits 10 field.now × (n ≡ digits_value 10 field.now)) }
{
    let mut number = 0;
    for byte in field {
        let digit = byte.wrapping_sub(b'0');
        if digit > 9 {
            return None;
        }
        number = number * 10 + u64::from(digit);
    }
    Some(number)
}

/// Reads the number of a version, decimal and without leading zeros.
pub fn read_version(field: &[u8]) -> Option<u64>
    ensures { MatchOption result
        ((version : ℕ) → version ≤ LAST_NUMBER → field.now ≢ decimal version)
        (λ version. (version ≤ LAST_NUMBER) × (field.now ≡ decimal version)) }
{
    if !is_plain(field) {
        return None;
    }
    let version = number_of(field)?;
    if version > LAST_NUMBER {
        return None;
    }
    Some(version)
}

/// Cuts `at V ` from the front of a request.
pub(crate) fn split_version(text: &[u8]) -> Option<(u64, &[u8])>
    ensures { MatchOption result
        ((version : ℕ) (rest : List ℕ) → version ≤ LAST_NUMBER → text.now ≢ version_prefix (Some version) ++ rest)
        (λ parts. (parts.0 ≤ LAST_NUMBER) × (text.now ≡ version_prefix (Some parts.0) ++ parts.1.now)) }
{
    let (word, fields) = split_at(b' ', text)?;
    if !is_word(word, "at") {
        return None;
    }
    let (version, rest) = split_at(b' ', fields)?;
    Some((read_version(version)?, rest))
}

// Reads `all N` or `anew N`.
fn read_start(line: &[u8]) -> Option<(Start, u32)>
    ensures { MatchOption result
        ((start : StartValue) (count : ℕ) → IsCountFor start count → line.now ≢ start_text start ++ decimal count)
        (λ parts. IsCountFor parts.0 parts.1 × (line.now ≡ start_text parts.0 ++ decimal parts.1)) }
{
    let (word, number) = split_at(b' ', line)?;
    let count = read_number(MOST_LINES, number)?;
    if is_word(word, "anew") {
        return Some((Start::Empty, count));
    }
    if is_word(word, "all") && count > 0 {
        return Some((Start::Current, count));
    }
    None
}

/// Reads the first line of a block, which is without its LF.
pub fn read_head(line: &[u8]) -> Option<Head>
    ensures { MatchOption result
        ((head : HeadValue) → IsHead head → line.now ≢ head_text head)
        (λ head. IsHead head × (line.now ≡ head_text head)) }
{
    match split_version(line) {
        None => {
            let (start, count) = read_start(line)?;
            Some(Head {
                version: None,
                start,
                count,
            })
        }
        Some((version, rest)) => {
            let (start, count) = read_start(rest)?;
            Some(Head {
                version: Some(version),
                start,
                count,
            })
        }
    }
}

/// Cuts a text before its first LF. The rest begins with the LF, or is empty.
pub(crate) fn cut_line(text: &[u8]) -> (&[u8], &[u8])
    ensures whole { text.now ≡ result.0.now ++ result.1.now }
    ensures lacks { Lacks 10 result.0.now }
    ensures ends_line { EndsLine result.1.now }
{
    let end = memchr(b'\n', text).unwrap_or(text.len());
    (&text[..end], &text[end..])
}

/// Cuts a request after the first line of a block. The rest begins with the LF, or is empty.
pub(crate) fn split_head(text: &[u8]) -> Option<(Head, &[u8])>
    ensures { MatchOption result
        ((head : HeadValue) (rest : List ℕ) → HasHead text.now head rest → ⊥)
        (λ parts. HasHead text.now parts.0 parts.1.now) }
{
    let (line, rest) = cut_line(text);
    Some((read_head(line)?, rest))
}
