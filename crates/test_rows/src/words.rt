//! Rows of instruction words.

use bpf_insn::Insn;
use std::alloc::Global;
use std::io;

// The instruction, its word, its bytes, and the instruction of its bytes.
fn describe_instruction(alloc: Global, insn: Insn) -> io::Result<String> {
    let word = insn.to_word();
    let bytes = insn.to_bytes();
    let again = Insn::from_bytes(bytes);
    Ok(format!(in alloc; "{insn:?} {word:016x} {bytes:?} {again:?}")?)
}

/// `word DIGITS`: the instruction of a word of sixteen hexadecimal digits, or the fault that it is none.
pub fn describe_word(alloc: Global, digits: &str) -> io::Result<String> {
    let Ok(word) = u64::from_str_radix(digits, 16) else {
        return Ok(String::from_str(alloc, "no word")?);
    };
    match Insn::from_word(word) {
        Ok(insn) => describe_instruction(alloc, insn),
        Err(fault) => Ok(format!(in alloc; "{fault:?}")?),
    }
}
