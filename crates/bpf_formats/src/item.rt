//! The items of a text, and the word of one item (docs/MACHINE.md, "Programs as numbers").

ghost use Rattle.std.specs.Prelude.{◌≡◌, ◌≢◌, ◌+◌, ◌*◌, ◌^◌, ◌<◌, ◌≤◌, ◌++◌, ◌∷◌, List, MatchOption, decimal, length, ℕ};
ghost use Rattle.bpf_insn.specs.Word.{word};
ghost use Rattle.bpf_formats.specs.Ddd.{SpellsFields};
ghost use Rattle.bpf_formats.specs.Hex.{SpellsDigits};
ghost use Rattle.bpf_formats.specs.Item.{ends_item, items_of};
ghost use Rattle.bpf_formats.specs.body.View.{items_left, left_len};

use ipv4_fields::{read_number, split_at};
use std::str::from_utf8;

fn ends_item(b: u8) -> bool
    ensures { result ≡ ends_item b }
{
    b == b'\n' || b == b','
}

/// Cuts the first item off a text. Returns the item and the rest, or `None` for the rest if it was the last item.
pub(crate) fn first_item(text: &[u8]) -> (&[u8], Option<&[u8]>)
    ensures items { items_of text.now ≡ result.0.now ∷ items_left result.1 }
    ensures shorter { left_len result.1 ≤ length text.now }
{
    for (i, b) in text.iter().enumerate() {
        if ends_item(*b) {
            return (&text[..i], Some(&text[i + 1..]));
        }
    }
    (text, None)
}

// Reads a field before a space. Returns the field and the text after the space.
fn read_field(limit: u32, text: &[u8]) -> Option<(u32, &[u8])>
    ensures { MatchOption result
        ((n : ℕ) (rest : List ℕ) → n ≤ limit → text.now ≢ decimal n ++ 32 ∷ rest)
        (λ field. (field.0 ≤ limit) × (text.now ≡ decimal field.0 ++ 32 ∷ field.1.now)) }
{
    let (field, rest) = split_at(b' ', text)?;
    Some((read_number(limit, field)?, rest))
}

fn word(code: u32, jt: u32, jf: u32, k: u32) -> u64
    requires code { code < 2 ^ 16 }
    requires jt { jt < 2 ^ 8 }
    requires jf { jf < 2 ^ 8 }
    ensures { result ≡ word code jt jf k }
{
    code as u64 * (1 << 48) + jt as u64 * (1 << 40) + jf as u64 * (1 << 32) + k as u64
}

/// Reads the word that an item spells by its four fields in decimal.
pub(crate) fn read_fields(item: &[u8]) -> Option<u64>
    ensures { MatchOption result ((word : ℕ) → SpellsFields item.now word → ⊥) (λ word. SpellsFields item.now word) }
{
    let (code, rest) = read_field(0xffff, item)?;
    let (jt, rest) = read_field(0xff, rest)?;
    let (jf, k) = read_field(0xff, rest)?;
    Some(word(code, jt, jf, read_number(0xffff_ffff, k)?))
}

/// Reads the word that an item spells by sixteen hexadecimal digits, of either case.
pub fn read_digits(item: &[u8]) -> Option<u64>
    ensures { MatchOption result ((word : ℕ) → SpellsDigits item.now word → ⊥) (λ word. SpellsDigits item.now word) }
{
    if item.len() != 16 || item[0] == b'+' {
        return None;
    }
    let Ok(digits) = from_utf8(item) else {
        return None;
    };
    u64::from_str_radix(digits, 16).ok()
}
