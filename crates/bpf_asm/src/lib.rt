//! The assembly text of classic BPF programs, both ways: bpf_asm's notation with labels (networking/filter.rst;
//! docs/MACHINE.md, "Assembly text").
//!
//! `assemble` reads a text of any length, exactly in the notation. `print` writes the one spelling of a program. `print_in_line`
//! does the same on one line. `assemble` reads both back. All take any allocator.
#![tactic(auto)]

ghost use Rattle.std.specs.Prelude.{◌≡◌, ◌⊎◌, Err, IfErr, IfOk, IsOk, List, ℕ};
ghost use Rattle.bpf_asm.specs.Assembly.{Assembles, HasNotBoth, HasOneFault, HasOneValue, IsFaultOrMemory};

mod fault;
mod label;
mod line;
mod mnemonic;
mod number;
mod operand;
mod printing;
mod statement;
mod target;
mod token;

pub use bpf_verify::OutOfMemory;
pub use fault::AsmFault;
pub use printing::{print, print_in_line};
use std::alloc::Allocator;

/// Assembles a text to words. The words need not be a program: `bpf_verify` checks that.
///
/// `Err` is the first line in no form, else the first line that defines a name again, else the first fault of a target. If both
/// targets of a line are at fault, the first one counts.
pub fn assemble<A: Allocator + Clone>(alloc: A, text: &[u8]) -> Result<Vec<u64, A>, AsmFault>
    ensures assembles { IfOk result (λ words. Assembles text.now words.items) }
    ensures fault { IfErr result (IsFaultOrMemory text.now) }
    ensures refuses_no_assembly { (words : List ℕ) → Assembles text.now words → IsOk result ⊎ (result ≡ Err AsmFault.OutOfMemory) }
{
    let lines = line::read_lines(alloc.clone()?, text)?;
    let labels = label::labels_of(alloc.clone()?, &lines)?;
    target::words_of(alloc, &labels, &lines)
}

/// Law: a text has at most one list of words and at most one fault, and never both. It runs nothing.
pub fn one_value()
    ensures one_value { HasOneValue }
    ensures one_fault { HasOneFault }
    ensures not_both { HasNotBoth }
{}
