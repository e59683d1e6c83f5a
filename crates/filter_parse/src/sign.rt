//! The words and signs of the language (docs/EXPRESSIONS.md, "Tokens").

ghost use Rattle.std.specs.Prelude.{◌≡◌};
ghost use Rattle.std.specs.Str.{bytes_eq};
ghost use Rattle.filter_parse.specs.Token.{mark, name_token, pair_sign, qualifier_token, sign, word_token};

use crate::token::{Connective, Token};
use filter_tree::{Operator, Protocol, Relation};

fn is_spelt(word: &[u8], text: &str) -> bool
    ensures { result ≡ bytes_eq word.now text.now }
{
    word == text.as_bytes()
}

fn name_token(word: &[u8]) -> Option<Token>
    ensures { result ≡ name_token word.now }
{
    if is_spelt(word, "ip") {
        Some(Token::Named(Protocol::Ip))
    } else if is_spelt(word, "tcp") {
        Some(Token::Named(Protocol::Tcp))
    } else if is_spelt(word, "udp") {
        Some(Token::Named(Protocol::Udp))
    } else if is_spelt(word, "icmp") {
        Some(Token::Named(Protocol::Icmp))
    } else if is_spelt(word, "and") {
        Some(Token::Connects(Connective::And))
    } else if is_spelt(word, "or") {
        Some(Token::Connects(Connective::Or))
    } else if is_spelt(word, "not") {
        Some(Token::Not)
    } else if is_spelt(word, "len") {
        Some(Token::Length)
    } else {
        None
    }
}

fn qualifier_token(word: &[u8]) -> Token
    ensures { result ≡ qualifier_token word.now }
{
    if is_spelt(word, "src") {
        Token::Source
    } else if is_spelt(word, "dst") {
        Token::Destination
    } else if is_spelt(word, "proto") {
        Token::Proto
    } else if is_spelt(word, "host") {
        Token::Host
    } else if is_spelt(word, "net") {
        Token::Net
    } else if is_spelt(word, "port") {
        Token::Port
    } else if is_spelt(word, "portrange") {
        Token::PortRange
    } else if is_spelt(word, "less") {
        Token::Less
    } else if is_spelt(word, "greater") {
        Token::Greater
    } else {
        Token::Stray
    }
}

pub(crate) fn word_token(word: &[u8]) -> Token
    ensures { result ≡ word_token word.now }
{
    match name_token(word) {
        Some(token) => token,
        None => qualifier_token(word),
    }
}

pub(crate) fn pair_sign(c: u8, d: u8) -> Option<Token>
    ensures { result ≡ pair_sign c d }
{
    match (c, d) {
        (b'&', b'&') => Some(Token::Connects(Connective::AndSign)),
        (b'|', b'|') => Some(Token::Connects(Connective::OrSign)),
        (b'<', b'<') => Some(Token::Operates(Operator::ShiftLeft)),
        (b'>', b'>') => Some(Token::Operates(Operator::ShiftRight)),
        (b'>', b'=') => Some(Token::Compares(Relation::GreaterOrEqual)),
        (b'<', b'=') => Some(Token::Compares(Relation::LessOrEqual)),
        (b'=', b'=') => Some(Token::Compares(Relation::Equal)),
        (b'!', b'=') => Some(Token::Compares(Relation::NotEqual)),
        _ => None,
    }
}

fn mark(c: u8) -> Token
    ensures { result ≡ mark c }
{
    match c {
        b'(' => Token::Open,
        b')' => Token::Close,
        b'[' => Token::OpenIndex,
        b']' => Token::CloseIndex,
        b':' => Token::Colon,
        b'!' => Token::Not,
        _ => Token::Stray,
    }
}

pub(crate) fn sign(c: u8) -> Token
    ensures { result ≡ sign c }
{
    match c {
        b'/' => Token::Operates(Operator::Divide),
        b'+' => Token::Operates(Operator::Add),
        b'-' => Token::Operates(Operator::Subtract),
        b'*' => Token::Operates(Operator::Multiply),
        b'%' => Token::Operates(Operator::Modulo),
        b'&' => Token::Operates(Operator::And),
        b'|' => Token::Operates(Operator::Or),
        b'^' => Token::Operates(Operator::ExclusiveOr),
        b'<' => Token::Compares(Relation::Less),
        b'>' => Token::Compares(Relation::Greater),
        b'=' => Token::Compares(Relation::Equal),
        _ => mark(c),
    }
}
