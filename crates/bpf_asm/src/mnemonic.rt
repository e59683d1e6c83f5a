//! The mnemonics of operations and of conditional jumps (networking/filter.rst, "BPF engine and instruction set").

ghost use Rattle.std.specs.Prelude.{◌≡◌};
ghost use Rattle.std.specs.Str.{bytes_eq};
ghost use Rattle.bpf_asm.specs.body.Reading.{operation_of, test_of};

use bpf_insn::{Operation, Test};

/// Tests whether a word is this name.
#[inline(always)]
pub(crate) fn is_name(word: &[u8], name: &str) -> bool
    ensures { result ≡ bytes_eq word.now name.now }
{
    word == name.as_bytes()
}

#[tactic(auto, unfolding(crate::specs::body::Reading::operation_of))]
pub(crate) fn operation_of(name: &[u8]) -> Option<Operation>
    ensures { result ≡ operation_of name.now }
{
    if is_name(name, "add") {
        Some(Operation::Add)
    } else if is_name(name, "sub") {
        Some(Operation::Sub)
    } else if is_name(name, "mul") {
        Some(Operation::Mul)
    } else if is_name(name, "div") {
        Some(Operation::Div)
    } else if is_name(name, "or") {
        Some(Operation::Or)
    } else if is_name(name, "and") {
        Some(Operation::And)
    } else if is_name(name, "lsh") {
        Some(Operation::Lsh)
    } else if is_name(name, "rsh") {
        Some(Operation::Rsh)
    } else if is_name(name, "mod") {
        Some(Operation::Mod)
    } else if is_name(name, "xor") {
        Some(Operation::Xor)
    } else {
        None
    }
}

#[tactic(auto, unfolding(crate::specs::body::Reading::test_of))]
pub(crate) fn test_of(name: &[u8]) -> Option<Test>
    ensures { result ≡ test_of name.now }
{
    if is_name(name, "jeq") {
        Some(Test::Equal)
    } else if is_name(name, "jgt") {
        Some(Test::Greater)
    } else if is_name(name, "jge") {
        Some(Test::GreaterOrEqual)
    } else if is_name(name, "jset") {
        Some(Test::CommonBit)
    } else {
        None
    }
}
