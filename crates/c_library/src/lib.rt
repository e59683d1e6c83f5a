//! Classic BPF for programs in C: the calls of `c_calls` under their names in C (include/dswitch.h; docs/C.md).
//!
//! A slice is a pointer and a number of elements. No call keeps anything of what it is given, and none halts. Those that take memory
//! return `NO_MEMORY` if the C library refuses it.
#![tactic(auto)]

ghost use Rattle.std.specs.Prelude.{◌≡◌, ◌≤◌, ◌⊎◌, ◌↔◌, List, length, ℕ};
ghost use Rattle.bpf_verify.specs.Accepted.{IsAccepted};
ghost use Rattle.filter_tree.specs.Tree.{Tree};
ghost use Rattle.filter_program.specs.Fault.{IsAssemblyFault, IsExpressionFault};
ghost use Rattle.filter_program.specs.Program.{IsAssembledTo, IsCompilable, assembly, expression};
ghost use Rattle.filter_program.specs.declared.fault.TextFault.{TextFault};
ghost use Rattle.c_calls.specs.Answer.{AnswersPrinting, AnswersText, AnswersVerifying, HasProgram, no_memory, text_answer};
ghost use Rattle.c_calls.specs.Outcome.{AnswersRun, IsRun};

pub use c_calls::{Answer, NO_MEMORY, NO_ROOM, Outcome, PACKET_TOO_LONG, codes_as_numbers};
use c_calls::{assemble_into, compile_into, print_into, run_checked, run_words, verify_words};
use std::alloc::Global;

/// Tests whether words are a program (`bpf_verify::verify`). Takes no memory.
#[unsafe(no_mangle)]
pub extern "C" fn dswitch_verify(words: &[u64]) -> Answer
    ensures accepts_exactly { result.fault ≡ 0 ↔ IsAccepted words.now }
    ensures answer { AnswersVerifying words.now result }
{
    verify_words(words)
}

/// Runs a program on a packet (`bpf_machine::run`). The caller must ensure that the words are accepted, and that the packet has at
/// most 65,535 bytes. Takes no memory.
#[unsafe(no_mangle)]
pub extern "C" fn dswitch_run(words: &[u64], packet: &[u8]) -> Outcome
    requires accepted { IsAccepted words.now }
    requires packet { length packet.now ≤ 65535 }
    ensures run { IsRun words.now packet.now result }
    ensures within_length { result.steps ≤ length words.now }
{
    run_words(words, packet)
}

/// Verifies words, and runs them on a packet if they are a program. There are no preconditions. Takes no memory.
///
/// If the packet has more than 65,535 bytes, returns `PACKET_TOO_LONG`, whatever the words are. Writes `outcome` only if there is
/// no fault.
#[unsafe(no_mangle)]
pub extern "C" fn dswitch_run_checked(words: &[u64], packet: &[u8], outcome: &mut Outcome) -> Answer
    ensures answer { AnswersRun words.now packet.now outcome.old outcome.new result }
    ensures runs_exactly { result.fault ≡ 0 ↔ (IsAccepted words.now × (length packet.now ≤ 65535)) }
{
    run_checked(words, packet, outcome)
}

/// Assembles a text to a program, in the caller's buffer (`filter_program::assembled`).
#[unsafe(no_mangle)]
pub extern "C" fn dswitch_assemble(alloc: Global, text: &[u8], words: &mut [u64]) -> Answer
    ensures answer { AnswersText (assembly text.now) words.old words.new result }
    ensures every_program { (program : List ℕ) → IsAssembledTo text.now program → HasProgram result ⊎ (result ≡ no_memory) }
    ensures every_fault { (fault : TextFault) → IsAssemblyFault text.now fault → (result ≡ text_answer fault) ⊎ (result ≡ no_memory) }
{
    assemble_into(alloc, text, words)
}

/// Compiles a filter expression to a program, in the caller's buffer (`filter_program::compiled`).
#[unsafe(no_mangle)]
pub extern "C" fn dswitch_compile(alloc: Global, text: &[u8], words: &mut [u64]) -> Answer
    ensures answer { AnswersText (expression text.now) words.old words.new result }
    ensures every_program { (tree : Tree) → IsCompilable text.now tree → HasProgram result ⊎ (result ≡ no_memory) }
    ensures every_fault { (fault : TextFault) → IsExpressionFault text.now fault → (result ≡ text_answer fault) ⊎ (result ≡ no_memory) }
{
    compile_into(alloc, text, words)
}

/// Prints a program as assembly to the caller's buffer, without a 0 byte at its end (`bpf_asm::print`). If the words are no
/// program, returns their fault.
#[unsafe(no_mangle)]
pub extern "C" fn dswitch_print(alloc: Global, words: &[u64], text: &mut [u8]) -> Answer
    ensures answer { AnswersPrinting words.now text.old text.new result }
    ensures every_program { IsAccepted words.now → HasProgram result ⊎ (result ≡ no_memory) }
{
    print_into(alloc, words, text)
}
