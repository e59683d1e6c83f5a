//! Splitting a text into its tokens (docs/EXPRESSIONS.md, "Tokens").

ghost use Rattle.std.specs.Prelude.{◌≡◌, ◌≤◌, ◌+◌, ◌∷◌, ◌<◌, IfSome, IsTrue, MatchOption, [], drop, length};
ghost use Rattle.std.specs.List.{prefix_len};
ghost use Rattle.filter_parse.specs.Token.{begins_word, is_blank, is_number_part, is_word_part};
ghost use Rattle.filter_parse.specs.body.Number.{begins_hexadecimal, ends_number, is_plain, number_lexeme};
ghost use Rattle.filter_parse.specs.body.Scan.{lexeme, sign_lexeme, tokens_from};

use crate::number::{Digits, leading_digits, leading_hexadecimal, number_or_address};
use crate::sign::{pair_sign, sign, word_token};
use crate::token::{Lexeme, Token};

/// A token, the place of its first byte, and the place after its last.
pub(crate) struct Found {
    pub(crate) token: Token,
    pub(crate) place: usize,
    pub(crate) end: usize,
}

fn is_blank(c: u8) -> bool
    ensures { result ≡ is_blank c }
{
    c == b' ' || c == b'\t'
}

fn begins_word(c: u8) -> bool
    ensures { result ≡ begins_word c }
{
    c.is_ascii_alphabetic() || c == b'_'
}

fn is_word_part(c: u8) -> bool
    ensures { result ≡ is_word_part c }
{
    c.is_ascii_alphanumeric() || c == b'_'
}

fn is_number_part(c: u8) -> bool
    ensures { result ≡ is_number_part c }
{
    c.is_ascii_alphanumeric() || c == b'.'
}

fn word_len(text: &[u8]) -> usize
    ensures len { result ≡ prefix_len is_word_part text.now }
    ensures within { result ≤ length text.now }
{
    text.iter().take_while(|c| is_word_part(**c)).count()
}

fn number_len(text: &[u8]) -> usize
    ensures len { result ≡ prefix_len is_number_part text.now }
    ensures within { result ≤ length text.now }
{
    text.iter().take_while(|c| is_number_part(**c)).count()
}

// Tests whether digits have no leading zero, except for `0` alone.
fn is_plain(digits: &[u8]) -> bool
    ensures { result ≡ is_plain digits.now }
{
    match digits {
        [] => false,
        [_] => true,
        [first, ..] => *first > b'0',
    }
}

fn ends_number(rest: &[u8]) -> bool
    ensures { result ≡ ends_number rest.now }
{
    match rest {
        [] => true,
        [c, ..] => !is_number_part(*c),
    }
}

fn number_lexeme(text: &[u8]) -> Lexeme
    ensures { result ≡ number_lexeme text.now }
{
    let Digits { len, worth } = leading_digits(text);
    if is_plain(&text[..len]) && ends_number(&text[len..]) {
        return Lexeme {
            token: Token::Number(worth),
            len,
        };
    }
    rare_number_lexeme(text)
}

fn begins_hexadecimal(text: &[u8]) -> bool
    ensures exact { result ≡ begins_hexadecimal text.now }
    ensures room { IsTrue result → 2 ≤ length text.now }
{
    match text {
        [b'0', b'x', ..] => true,
        _ => false,
    }
}

// A hexadecimal number, or a token that digits alone do not decide.
#[inline(never)]
fn rare_number_lexeme(text: &[u8]) -> Lexeme
    ensures { result ≡ number_lexeme text.now }
{
    if begins_hexadecimal(text) {
        let rest = &text[2..];
        let Digits { len, worth } = leading_hexadecimal(rest);
        if len > 0 && ends_number(&rest[len..]) {
            return Lexeme {
                token: Token::Number(worth),
                len: len + 2,
            };
        }
    }
    other_number_lexeme(text)
}

// An address, or a malformed number.
fn other_number_lexeme(text: &[u8]) -> Lexeme
    ensures { result ≡ number_lexeme text.now }
{
    let len = number_len(text);
    Lexeme {
        token: number_or_address(&text[..len]),
        len,
    }
}

fn sign_lexeme(c: u8, rest: &[u8]) -> Lexeme
    ensures { result ≡ sign_lexeme c rest.now }
{
    if let Some(d) = rest.first()
        && let Some(token) = pair_sign(c, *d)
    {
        return Lexeme { token, len: 2 };
    }
    Lexeme {
        token: sign(c),
        len: 1,
    }
}

fn lexeme(text: &[u8], c: u8, rest: &[u8]) -> Lexeme
    requires { text.now ≡ c ∷ rest.now }
    ensures { result ≡ lexeme c rest.now }
{
    if begins_word(c) {
        let len = word_len(text);
        Lexeme {
            token: word_token(&text[..len]),
            len,
        }
    } else if c.is_ascii_digit() {
        number_lexeme(text)
    } else {
        sign_lexeme(c, rest)
    }
}

/// Finds the next token of a text, at a place or after the blanks there.
#[inline(always)]
pub(crate) fn next_token(text: &[u8], at: usize) -> Option<Found>
    requires { at ≤ length text.now }
    ensures found { MatchOption result
        (tokens_from 0 at (drop at text.now) ≡ [])
        (λ found. tokens_from 0 at (drop at text.now)
        ≡ record { token = found.token; place = found.place } ∷ tokens_from 0 found.end (drop found.end text.now)) }
    ensures within { IfSome result (λ found. found.end ≤ length text.now) }
    ensures forward { IfSome result (λ found. at < found.end) }
{
    let mut place = at;
    while let [c, rest @ ..] = &text[place..] {
        if !is_blank(*c) {
            let Lexeme { token, len } = lexeme(&text[place..], *c, rest);
            let end = place + len;
            return Some(Found { token, place, end });
        }
        place += 1;
    }
    None
}
