//! Endpoints as texts, `a.b.c.d:p`: writing them, reading them, and reading the parts of such a text.

ghost use Rattle.std.specs.Prelude.{◌≡◌, ◌≢◌, ◌+◌, ◌≤◌, ◌<◌, ◌↔◌, IsTrue, MatchOption, List, ◌++◌, ◌∷◌, decimal, length, ℕ};
ghost use Rattle.ipv4_fields.specs.Endpoint.{IsEndpoint, endpoint_text};
ghost use Rattle.ipv4_fields.specs.Cut.{IsSplitAt, Lacks};
ghost use Rattle.std.specs.Str.Parse.{AllDigits, digits_value};
ghost use Rattle.ipv4_fields.specs.body.Number.{IsNoDigit, IsPlain};

use crate::endpoint::Endpoint;

/// Splits a text at the first separator in it.
pub fn split_at(separator: u8, text: &[u8]) -> Option<(&[u8], &[u8])>
    ensures { MatchOption result (Lacks separator text.now) (λ parts. IsSplitAt separator text.now parts.0.now parts.1.now) }
{
    for (i, byte) in text.iter().enumerate() {
        if *byte == separator {
            return Some((&text[..i], &text[i + 1..]));
        }
    }
    None
}

// The most digits of a number of 32 bits.
const NUMBER_LIMIT: usize = 10;

fn is_plain(field: &[u8]) -> bool
    ensures { IsTrue result ↔ IsPlain field.now }
{
    !field.is_empty() && field.len() <= NUMBER_LIMIT && (field.len() == 1 || field[0] != b'0')
}

// Returns the number that a few digits spell, `None` if a byte is not a digit.
#[inline(always)]
fn number_of(field: &[u8]) -> Option<u64>
    requires { length field.now ≤ NUMBER_LIMIT }
    ensures { MatchOption result (AllDigits 10 field.now → ⊥) (λ n. AllDigits 10 field.now × (n ≡ digits_value 10 field.now)) }
{
    let mut number = 0;
    for byte in field {
        let digit = byte.wrapping_sub(b'0');
        if digit > 9 {
            return None;
        }
        number = number * 10 + u64::from(digit);
    }
    Some(number)
}

/// Reads a number up to a limit, decimal and without leading zeros.
/// The reason: docs/INTERNALS.md, "A number is read by its digits".
pub fn read_number(limit: u32, field: &[u8]) -> Option<u32>
    ensures { MatchOption result
        ((n : ℕ) → n ≤ limit → field.now ≢ decimal n)
        (λ n. (n ≤ limit) × (field.now ≡ decimal n)) }
{
    if !is_plain(field) {
        return None;
    }
    let number = number_of(field)?;
    if number > u64::from(limit) {
        return None;
    }
    Some(number as u32)
}

// Reads a part of an address; returns it and the text after its separator.
fn read_part(separator: u8, text: &[u8]) -> Option<(u8, &[u8])>
    requires { IsNoDigit separator }
    ensures { MatchOption result
        ((n : ℕ) (rest : List ℕ) → n < 256 → text.now ≢ decimal n ++ separator ∷ rest)
        (λ part. (part.0 < 256) × (text.now ≡ decimal part.0 ++ separator ∷ part.1.now)) }
{
    let (part, rest) = split_at(separator, text)?;
    Some((read_number(255, part)? as u8, rest))
}

/// A text that is built piece by piece, up to a limit of its length.
pub trait TextBuffer {
    ghost text: { Self → List ℕ };

    ghost limit: { ℕ };

    /// Appends a text, for which there must be room.
    fn append(&mut self, piece: &str)
        requires room { length (text self.old) + length piece.now ≤ limit }
        ensures appended { text self.new ≡ text self.old ++ piece.now };

    /// Appends a number in decimal, for whose digits there must be room.
    fn append_number(&mut self, number: u64)
        requires room { length (text self.old) + length (decimal number) ≤ limit }
        ensures appended { text self.new ≡ text self.old ++ decimal number };
}

// The most digits of a byte and of a port.
const BYTE_LIMIT: usize = 3;

const PORT_LIMIT: usize = 5;

/// The most bytes of an endpoint's text.
pub const ENDPOINT_LIMIT: usize = 4 * (BYTE_LIMIT + 1) + PORT_LIMIT;

// Appends a part of an address and its separator.
fn append_part<T: TextBuffer>(text: &mut T, part: u8, separator: &str)
    requires room { length (T.text text.old) + BYTE_LIMIT + length separator.now ≤ T.limit }
    ensures appended { T.text text.new ≡ T.text text.old ++ (decimal part ++ separator.now) }
    ensures len { length (T.text text.new) ≤ length (T.text text.old) + BYTE_LIMIT + length separator.now }
{
    text.append_number(part as u64);
    text.append(separator);
}

impl Endpoint {
    /// Reads an endpoint, `a.b.c.d:p`, each number decimal and without leading zeros.
    pub fn from_text(text: &[u8]) -> Option<Endpoint>
        ensures { MatchOption result
            ((endpoint : Endpoint) → IsEndpoint endpoint → text.now ≢ endpoint_text endpoint)
            (λ endpoint. IsEndpoint endpoint × (text.now ≡ endpoint_text endpoint)) }
    {
        let (a, rest) = read_part(b'.', text)?;
        let (b, rest) = read_part(b'.', rest)?;
        let (c, rest) = read_part(b'.', rest)?;
        let (d, port) = read_part(b':', rest)?;
        Some(Endpoint {
            address: u32::from_be_bytes([a, b, c, d]),
            port: read_number(65535, port)? as u16,
        })
    }

    /// Appends the endpoint's text, for which there must be room.
    pub fn append_to<T: TextBuffer>(self, text: &mut T)
        requires room { length (T.text text.old) + ENDPOINT_LIMIT ≤ T.limit }
        ensures appended { T.text text.new ≡ T.text text.old ++ endpoint_text self }
        ensures len { length (T.text text.new) ≤ length (T.text text.old) + ENDPOINT_LIMIT }
    {
        let [a, b, c, d] = self.address.to_be_bytes();
        append_part(text, a, ".");
        append_part(text, b, ".");
        append_part(text, c, ".");
        append_part(text, d, ":");
        text.append_number(self.port as u64);
    }
}
