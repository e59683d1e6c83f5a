//! Numbers and addresses as they are spelt (docs/EXPRESSIONS.md, "Tokens").

ghost use Rattle.std.specs.Prelude.{◌≡◌, ◌≤◌, ◌+◌, ◌*◌, ◌<◌, Some, None, MatchOption, drop, if◌then◌else◌, length, take};
ghost use Rattle.std.specs.Char.{digit_value, is_ascii_digit, is_ascii_hexdigit};
ghost use Rattle.std.specs.List.{list_all, list_any, prefix_len};
ghost use Rattle.filter_parse.specs.Token.{address_of, capped, first_dot, first_octet, is_decimal, is_dot, is_hexadecimal, number_or_address, number_token, octet_of, value_of};

use crate::token::{TOO_BIG, Token};

pub(crate) const DECIMAL: u64 = 10;

pub(crate) const HEXADECIMAL: u64 = 16;

fn digit_value(c: u8) -> u64
    ensures { result ≡ digit_value c }
{
    if c.is_ascii_digit() {
        u64::from(c - 48)
    } else if c.is_ascii_lowercase() {
        u64::from(c - 87)
    } else if c.is_ascii_uppercase() {
        u64::from(c - 55)
    } else {
        36
    }
}

pub(crate) fn value_of(base: u64, digits: &[u8]) -> u64
    requires more { 1 ≤ base }
    requires small { base ≤ 16 }
    ensures { result ≡ capped (value_of base digits.now) }
{
    let mut n = 0;
    for c in digits {
        n = (n * base + digit_value(*c)).min(TOO_BIG);
    }
    n
}

/// The digits that a text begins with: how many there are, and the number that they write, at most `TOO_BIG`.
pub(crate) struct Digits {
    pub(crate) len: usize,
    pub(crate) worth: u64,
}

/// Reads the hexadecimal digits that a text begins with, in one pass, as `leading_digits` does decimal ones.
#[inline(always)]
pub(crate) fn leading_hexadecimal(text: &[u8]) -> Digits
    ensures len { result.len ≡ prefix_len is_ascii_hexdigit text.now }
    ensures within { result.len ≤ length text.now }
    ensures worth { result.worth ≡ capped (value_of 16 (take result.len text.now)) }
{
    let mut len = 0;
    let mut worth = 0;
    while len < text.len() && text[len].is_ascii_hexdigit() {
        worth = (worth * HEXADECIMAL + digit_value(text[len])).min(TOO_BIG);
        len += 1;
    }
    Digits { len, worth }
}

/// Reads the decimal digits that a text begins with, in one pass.
#[inline(always)]
pub(crate) fn leading_digits(text: &[u8]) -> Digits
    ensures len { result.len ≡ prefix_len is_ascii_digit text.now }
    ensures within { result.len ≤ length text.now }
    ensures worth { result.worth ≡ capped (value_of 10 (take result.len text.now)) }
{
    let mut len = 0;
    let mut worth = 0;
    while len < text.len() && text[len].is_ascii_digit() {
        worth = (worth * DECIMAL + digit_value(text[len])).min(TOO_BIG);
        len += 1;
    }
    Digits { len, worth }
}

fn all_decimal(text: &[u8]) -> bool
    ensures { result ≡ list_all is_ascii_digit text.now }
{
    text.iter().all(|c| c.is_ascii_digit())
}

fn all_hexadecimal(text: &[u8]) -> bool
    ensures { result ≡ list_all is_ascii_hexdigit text.now }
{
    text.iter().all(|c| c.is_ascii_hexdigit())
}

fn is_decimal(text: &[u8]) -> bool
    ensures { result ≡ is_decimal text.now }
{
    match text {
        [] => false,
        [c] => c.is_ascii_digit(),
        [first, ..] => *first > b'0' && all_decimal(text),
    }
}

fn is_hexadecimal(text: &[u8]) -> bool
    ensures { result ≡ is_hexadecimal text.now }
{
    match text {
        [b'0', b'x', digits @ ..] => !digits.is_empty() && all_hexadecimal(digits),
        _ => false,
    }
}

fn number_token(text: &[u8]) -> Token
    ensures { result ≡ number_token text.now }
{
    if is_decimal(text) {
        Token::Number(value_of(DECIMAL, text))
    } else if is_hexadecimal(text) {
        Token::Number(value_of(HEXADECIMAL, &text[2..]))
    } else {
        Token::Stray
    }
}

fn octet_of(part: &[u8]) -> Option<u8>
    ensures { result ≡ octet_of part.now }
{
    if !is_decimal(part) {
        return None;
    }
    u8::try_from(value_of(DECIMAL, part)).ok()
}

fn first_dot(text: &[u8]) -> usize
    ensures { result ≡ first_dot text.now }
{
    text.iter().take_while(|c| **c != b'.').count()
}

fn has_dot(text: &[u8]) -> bool
    ensures { result ≡ list_any is_dot text.now }
{
    text.contains(&b'.')
}

fn first_octet(text: &[u8]) -> Option<(u8, &[u8])>
    ensures { MatchOption result
        (first_octet text.now ≡ None)
        (λ found. first_octet text.now ≡ Some (found.0, found.1.now)) }
{
    let dot = first_dot(text);
    if dot == text.len() {
        return None;
    }
    let octet = octet_of(&text[..dot])?;
    Some((octet, &text[dot + 1..]))
}

fn address_of(text: &[u8]) -> Option<u32>
    ensures { result ≡ address_of text.now }
{
    let (a, text) = first_octet(text)?;
    let (b, text) = first_octet(text)?;
    let (c, text) = first_octet(text)?;
    let d = octet_of(text)?;
    Some(u32::from_be_bytes([a, b, c, d]))
}

pub(crate) fn number_or_address(text: &[u8]) -> Token
    ensures { result ≡ number_or_address text.now }
{
    if has_dot(text) {
        Token::Address(match address_of(text) {
            Some(address) => u64::from(address),
            None => TOO_BIG,
        })
    } else {
        number_token(text)
    }
}
