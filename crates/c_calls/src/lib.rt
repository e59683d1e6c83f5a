//! The calls for programs in C, on numbers and slices: the verifier, the machine, the assembler, the compiler of filter expressions and
//! the printer (docs/C.md). `c_library` gives each its name in C.
//!
//! No call keeps anything of what it is given, and none halts. Those that take memory return `NO_MEMORY` if it is refused.
#![tactic(auto)]

ghost use Rattle.std.specs.Prelude.{◌≡◌, ◌≤◌, ◌⊎◌, ◌↔◌, List, length, ℕ};
ghost use Rattle.bpf_verify.specs.Accepted.{IsAccepted};
ghost use Rattle.filter_tree.specs.Tree.{Tree};
ghost use Rattle.filter_program.specs.Fault.{IsAssemblyFault, IsExpressionFault};
ghost use Rattle.filter_program.specs.Program.{IsAssembledTo, IsCompilable, assembly, expression};
ghost use Rattle.filter_program.specs.declared.fault.TextFault.{TextFault};
ghost use Rattle.c_calls.specs.Answer.{AnswersPrinting, AnswersText, AnswersVerifying, HasProgram, no_memory, text_answer};
ghost use Rattle.c_calls.specs.Outcome.{AnswersRun};

mod answer;
mod buffer;
mod codes;
mod outcome;

pub use answer::Answer;
use bpf_verify::{Program, verify};
use buffer::{give, give_program};
pub use codes::{NO_MEMORY, NO_ROOM, PACKET_TOO_LONG};
use codes::{code_answer, text_answer};
use filter_program::{TextFault, assembled, compiled};
pub use outcome::{Outcome, run_words};
use std::alloc::Global;

/// Law: the codes that name no fault of words or of a text, as numbers. It runs nothing.
pub fn codes_as_numbers()
    ensures no_memory { NO_MEMORY ≡ 1 }
    ensures no_room { NO_ROOM ≡ 2 }
    ensures packet_too_long { PACKET_TOO_LONG ≡ 3 }
{}

/// Tests whether words are a program (`bpf_verify::verify`). Takes no memory.
pub fn verify_words(words: &[u64]) -> Answer
    ensures accepts_exactly { result.fault ≡ 0 ↔ IsAccepted words.now }
    ensures answer { AnswersVerifying words.now result }
{
    let mut list = words;
    match verify(&mut list, 0, words.len()) {
        Ok(()) => Answer::done(words.len() as u32, words.len()),
        Err(fault) => code_answer(fault.code()),
    }
}

/// Verifies words, and runs them on a packet if they are a program. There are no preconditions. Takes no memory.
///
/// If the packet has more than 65,535 bytes, returns `PACKET_TOO_LONG`, whatever the words are. Writes `outcome` only if there is
/// no fault.
pub fn run_checked(words: &[u64], packet: &[u8], outcome: &mut Outcome) -> Answer
    ensures answer { AnswersRun words.now packet.now outcome.old outcome.new result }
    ensures runs_exactly { result.fault ≡ 0 ↔ (IsAccepted words.now × (length packet.now ≤ 65535)) }
{
    if packet.len() > bpf_machine::MAX_PACKET {
        return Answer::refused(PACKET_TOO_LONG, 0);
    }
    let answer = verify_words(words);
    if answer.fault == 0 {
        *outcome = run_words(words, packet);
    }
    answer
}

/// Assembles a text to a program, in the caller's buffer (`filter_program::assembled`).
pub fn assemble_into(alloc: Global, text: &[u8], words: &mut [u64]) -> Answer
    ensures answer { AnswersText (assembly text.now) words.old words.new result }
    ensures every_program { (program : List ℕ) → IsAssembledTo text.now program → HasProgram result ⊎ (result ≡ no_memory) }
    ensures every_fault { (fault : TextFault) → IsAssemblyFault text.now fault → (result ≡ text_answer fault) ⊎ (result ≡ no_memory) }
{
    give_program(assembled(alloc, text), words)
}

/// Compiles a filter expression to a program, in the caller's buffer (`filter_program::compiled`).
pub fn compile_into(alloc: Global, text: &[u8], words: &mut [u64]) -> Answer
    ensures answer { AnswersText (expression text.now) words.old words.new result }
    ensures every_program { (tree : Tree) → IsCompilable text.now tree → HasProgram result ⊎ (result ≡ no_memory) }
    ensures every_fault { (fault : TextFault) → IsExpressionFault text.now fault → (result ≡ text_answer fault) ⊎ (result ≡ no_memory) }
{
    give_program(compiled(alloc, text), words)
}

/// Prints a program as assembly to the caller's buffer, without a 0 byte at its end (`bpf_asm::print`). If the words are no
/// program, returns their fault.
pub fn print_into(alloc: Global, words: &[u64], text: &mut [u8]) -> Answer
    ensures answer { AnswersPrinting words.now text.old text.new result }
    ensures every_program { IsAccepted words.now → HasProgram result ⊎ (result ≡ no_memory) }
{
    let Ok(copy) = Vec::from_slice(alloc, words) else {
        return text_answer(TextFault::OutOfMemory);
    };
    let program = match Program::new(copy) {
        Ok(program) => program,
        Err((fault, _words)) => return code_answer(fault.code()),
    };
    let charge = program.charge();
    match bpf_asm::print(alloc, &program) {
        Ok(printed) => give(printed.as_bytes(), charge, text),
        Err(_) => text_answer(TextFault::OutOfMemory),
    }
}
