//! How a program is printed (docs/MACHINE.md, "Programs as numbers").

ghost use Rattle.std.specs.Prelude.{◌≡◌, ◌^◌, ◌<◌, ◌++◌, IfOk, OnOk, slice_index, string_bytes, ℕ};
ghost use Rattle.std.specs.List.{flat_map};
ghost use Rattle.bpf_insn.specs.Word.{code_of, constant_of, false_jump_of, true_jump_of};
ghost use Rattle.bpf_formats.specs.Ddd.{IsDdd, ddd_line, ddd_text};
ghost use Rattle.bpf_formats.specs.Hex.{IsHex, hex_digits, hex_line, hex_text};
ghost use Rattle.bpf_formats.specs.Initialiser.{dd_line, dd_text};
ghost use Rattle.bpf_formats.specs.body.View.{line_of};

use bpf_verify::{OutOfMemory, Program};
use std::alloc::Allocator;

// How a word is written.
#[derive(Clone, Copy)]
enum Layout {
    Fields,
    Digits,
    Initialiser,
}

fn fields(word: u64) -> (u16, u8, u8, u32)
    ensures code { result.0 ≡ code_of word }
    ensures jt { result.1 ≡ true_jump_of word }
    ensures jf { result.2 ≡ false_jump_of word }
    ensures k { result.3 ≡ constant_of word }
{
    (
        (word >> 48) as u16,
        ((word >> 40) & 0xff) as u8,
        ((word >> 32) & 0xff) as u8,
        (word & 0xffff_ffff) as u32,
    )
}

// The last `count` hexadecimal digits.
#[tactic(auto, using(crate::proofs::DigitLemmas::hex_digits_more))]
fn push_digits<A: Allocator>(text: &mut String<A>, count: u32, n: u64) -> Result<(), OutOfMemory>
    ensures { OnOk result (string_bytes text.new ≡ string_bytes text.old ++ hex_digits count n) }
{
    if count == 0 {
        return Ok(());
    }
    push_digits(text, count - 1, n / 16)?;
    write!(text, "{:x}", n % 16)
}

fn push_fields<A: Allocator>(text: &mut String<A>, word: u64) -> Result<(), OutOfMemory>
    ensures { OnOk result (string_bytes text.new ≡ string_bytes text.old ++ ddd_line word) }
{
    let (code, jt, jf, k) = fields(word);
    write!(text, "{code} {jt} {jf} {k}\n")
}

fn push_hex<A: Allocator>(text: &mut String<A>, word: u64) -> Result<(), OutOfMemory>
    ensures { OnOk result (string_bytes text.new ≡ string_bytes text.old ++ hex_line word) }
{
    push_digits(text, 16, word)?;
    text.push_str("\n")
}

fn push_initialiser<A: Allocator>(text: &mut String<A>, word: u64) -> Result<(), OutOfMemory>
    ensures { OnOk result (string_bytes text.new ≡ string_bytes text.old ++ dd_line word) }
{
    let (code, jt, jf, k) = fields(word);
    write!(text, "{{ 0x{code:x}, {jt}, {jf}, 0x")?;
    push_digits(text, 8, k as u64)?;
    text.push_str(" },\n")
}

fn push_line<A: Allocator>(
    text: &mut String<A>,
    layout: Layout,
    word: u64,
) -> Result<(), OutOfMemory>
    ensures { OnOk result (string_bytes text.new ≡ string_bytes text.old ++ line_of layout word) }
{
    match layout {
        Layout::Fields => push_fields(text, word),
        Layout::Digits => push_hex(text, word),
        Layout::Initialiser => push_initialiser(text, word),
    }
}

fn push_lines<A: Allocator>(
    text: &mut String<A>,
    layout: Layout,
    words: &[u64],
) -> Result<(), OutOfMemory>
    ensures lines { OnOk result (string_bytes text.new ≡ string_bytes text.old ++ flat_map (line_of layout) words.now) }
    ensures fits { (k : ℕ) → slice_index words.now k < 2 ^ 64 }
{
    for word in words {
        push_line(text, layout, *word)?;
    }
    Ok(())
}

/// Prints a program in memory of `alloc` as `tcpdump -ddd` does: the number of instructions, then `code jt jf k` a line,
/// in decimal. `read_ddd` reads it back.
pub fn print_ddd<A: Allocator, B: Allocator>(
    alloc: A,
    program: &Program<B>,
) -> Result<String<A>, OutOfMemory>
    ensures printed { IfOk result (λ text. string_bytes text ≡ ddd_text program.now.words) }
    ensures reads_back { IfOk result (λ text. IsDdd (string_bytes text) program.now.words) }
{
    let words = program.words();
    let count = words.len();
    let mut text = format!(in alloc; "{count}\n")?;
    push_lines(&mut text, Layout::Fields, words)?;
    Ok(text)
}

/// Prints a program in memory of `alloc` in hexadecimal: a word a line, each by sixteen digits in lower case. `read_hex`
/// reads it back.
pub fn print_hex<A: Allocator, B: Allocator>(
    alloc: A,
    program: &Program<B>,
) -> Result<String<A>, OutOfMemory>
    ensures printed { IfOk result (λ text. string_bytes text ≡ hex_text program.now.words) }
    ensures reads_back { IfOk result (λ text. IsHex (string_bytes text) program.now.words) }
{
    let mut text = String::new(alloc);
    push_lines(&mut text, Layout::Digits, program.words())?;
    Ok(text)
}

/// Prints a program in memory of `alloc` as `tcpdump -dd` does: an initialiser of a `struct sock_filter` in C a line.
pub fn print_dd<A: Allocator, B: Allocator>(
    alloc: A,
    program: &Program<B>,
) -> Result<String<A>, OutOfMemory>
    ensures { IfOk result (λ text. string_bytes text ≡ dd_text program.now.words) }
{
    let mut text = String::new(alloc);
    push_lines(&mut text, Layout::Initialiser, program.words())?;
    Ok(text)
}
