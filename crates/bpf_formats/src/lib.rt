//! Classic BPF programs as numbers, in the forms that other tools write and read (docs/MACHINE.md, "Programs as numbers").
//!
//! `read_ddd` reads what `tcpdump -ddd` prints, also on one line with commas, and `read_hex` words of sixteen hexadecimal
//! digits; `print_ddd` and `print_hex` write one spelling of a program, which is read back. `print_dd` writes what
//! `tcpdump -dd` prints, for programs in C. All take any allocator. `read_digits` reads one word.
#![tactic(auto)]

ghost use Rattle.std.specs.Prelude.{◌≡◌, ◌⊎◌, Err, IfErr, IfOk, IsOk, List, ℕ};
ghost use Rattle.bpf_formats.specs.Ddd.{IsDdd};
ghost use Rattle.bpf_formats.specs.Fault.{HasOneMeaning, IsFaultOfDdd, IsFaultOfHex};
ghost use Rattle.bpf_formats.specs.Hex.{IsHex};

mod fault;
mod item;
mod printing;
mod reading;

pub use bpf_verify::OutOfMemory;
pub use fault::FormatFault;
use ipv4_fields::read_number;
use item::first_item;
pub use item::read_digits;
pub use printing::{print_dd, print_ddd, print_hex};
use reading::{Form, read_words};
use std::alloc::Allocator;

fn ddd_words<A: Allocator>(alloc: A, text: &[u8]) -> Result<Vec<u64, A>, FormatFault>
    ensures reads { IfOk result (λ words. IsDdd text.now words.items) }
    ensures fault { IfErr result (λ fault. (fault ≡ FormatFault.OutOfMemory) ⊎ IsFaultOfDdd text.now fault) }
{
    let (first, rest) = first_item(text);
    let Some(count) = read_number(0xffff_ffff, first) else {
        return Err(FormatFault::Syntax { line: 1 });
    };
    let words = read_words(alloc, Form::Decimal, rest, 2)?;
    if words.len() != count as usize {
        return Err(FormatFault::Count);
    }
    Ok(words)
}

/// Reads words in decimal. The words need not be a program: `bpf_verify` checks that.
///
/// `Err` is the first line out of form, of the count or of a word, else `Count`.
pub fn read_ddd<A: Allocator>(alloc: A, text: &[u8]) -> Result<Vec<u64, A>, FormatFault>
    ensures reads { IfOk result (λ words. IsDdd text.now words.items) }
    ensures fault { IfErr result (λ fault. (fault ≡ FormatFault.OutOfMemory) ⊎ IsFaultOfDdd text.now fault) }
    ensures refuses_no_ddd { (words : List ℕ) → IsDdd text.now words → IsOk result ⊎ (result ≡ Err FormatFault.OutOfMemory) }
{
    ddd_words(alloc, text)
}

fn hex_words<A: Allocator>(alloc: A, text: &[u8]) -> Result<Vec<u64, A>, FormatFault>
    ensures reads { IfOk result (λ words. IsHex text.now words.items) }
    ensures fault { IfErr result (λ fault. (fault ≡ FormatFault.OutOfMemory) ⊎ IsFaultOfHex text.now fault) }
{
    read_words(alloc, Form::Hexadecimal, Some(text), 1)
}

/// Reads words in hexadecimal. The words need not be a program: `bpf_verify` checks that.
///
/// `Err` is the first line out of form.
pub fn read_hex<A: Allocator>(alloc: A, text: &[u8]) -> Result<Vec<u64, A>, FormatFault>
    ensures reads { IfOk result (λ words. IsHex text.now words.items) }
    ensures fault { IfErr result (λ fault. (fault ≡ FormatFault.OutOfMemory) ⊎ IsFaultOfHex text.now fault) }
    ensures refuses_no_hex { (words : List ℕ) → IsHex text.now words → IsOk result ⊎ (result ≡ Err FormatFault.OutOfMemory) }
{
    hex_words(alloc, text)
}

/// Law: in each form a text has at most one list of words and at most one fault, and never both. It runs nothing.
pub fn one_meaning()
    ensures ddd { HasOneMeaning IsDdd IsFaultOfDdd }
    ensures hex { HasOneMeaning IsHex IsFaultOfHex }
{}
