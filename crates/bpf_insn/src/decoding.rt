//! From words and bytes to instructions.

ghost use Rattle.std.specs.Prelude.{◌≡◌, ◌==◌, ◌+◌, ◌↔◌, Err, IfOk, IsNone, IsOk, IsSome, Ok, Some};
ghost use Rattle.std.specs.Int.{from_be_bytes, to_be_bytes, w64};
ghost use Rattle.bpf_insn.specs.declared.instruction.Insn.TheVariants.{JumpIf};
ghost use Rattle.bpf_insn.specs.Table.{uses_of};
ghost use Rattle.bpf_insn.specs.Word.{IsInstructionWord, ReadsInstructionWords, code_of, constant_of, false_jump_of, instruction_of, true_jump_of, word_of};
ghost use Rattle.bpf_insn.specs.body.Decoded.{decoded_with, tested};

use crate::instruction::{Insn, Offsets, Operand, Operation, Size, Test, WordFault};

// The reason: docs/INTERNALS.md, "One table of instructions".
// An instruction of the table, and whether each field that it does not use is 0.
#[derive(Clone, Copy)]
struct Decoded {
    insn: Insn,
    unused_zero: bool,
}

#[inline(always)]
fn true_jump(word: u64) -> u8
    ensures { result ≡ true_jump_of word }
{
    ((word >> 40) & 0xff) as u8
}

#[inline(always)]
fn false_jump(word: u64) -> u8
    ensures { result ≡ false_jump_of word }
{
    ((word >> 32) & 0xff) as u8
}

#[inline(always)]
fn no_offsets(word: u64) -> bool
    ensures { result ≡ (true_jump_of word + false_jump_of word == 0) }
{
    (word >> 32) & 0xffff == 0
}

#[inline(always)]
fn jump_if(test: Test, operand: Operand, word: u64) -> Insn
    ensures { result ≡ JumpIf test operand (record { jt = true_jump_of word; jf = false_jump_of word }) }
{
    Insn::JumpIf(
        test,
        operand,
        Offsets {
            jt: true_jump(word),
            jf: false_jump(word),
        },
    )
}

#[inline(always)]
fn nothing(insn: Insn, word: u64, k: u32) -> Option<Decoded>
    ensures { result ≡ Some (record { insn = insn; unused_zero = (true_jump_of word + false_jump_of word + k == 0) }) }
{
    let unused_zero = no_offsets(word) && k == 0;
    Some(Decoded { insn, unused_zero })
}

#[inline(always)]
fn jumps(insn: Insn, k: u32) -> Option<Decoded>
    ensures { result ≡ Some (record { insn = insn; unused_zero = (k == 0) }) }
{
    Some(Decoded {
        insn,
        unused_zero: k == 0,
    })
}

#[inline(always)]
fn constant(insn: Insn, word: u64) -> Option<Decoded>
    ensures { result ≡ Some (record { insn = insn; unused_zero = (true_jump_of word + false_jump_of word == 0) }) }
{
    Some(Decoded {
        insn,
        unused_zero: no_offsets(word),
    })
}

#[inline(always)]
fn all(insn: Insn) -> Option<Decoded>
    ensures { result ≡ Some (record { insn = insn; unused_zero = (0 == 0) }) }
{
    Some(Decoded {
        insn,
        unused_zero: true,
    })
}

#[inline(always)]
#[tactic(auto, unfolding(crate::specs::Table::uses_of, crate::specs::Table::table))]
fn decode_fields(code: u16, word: u64, k: u32) -> Option<Decoded>
    ensures { result ≡ decoded_with (uses_of code) (true_jump_of word) (false_jump_of word) k }
{
    match code {
        0x20 => constant(Insn::LoadAbsolute(Size::Word, k), word),
        0x28 => constant(Insn::LoadAbsolute(Size::Half, k), word),
        0x30 => constant(Insn::LoadAbsolute(Size::Byte, k), word),
        0x40 => constant(Insn::LoadIndexed(Size::Word, k), word),
        0x48 => constant(Insn::LoadIndexed(Size::Half, k), word),
        0x50 => constant(Insn::LoadIndexed(Size::Byte, k), word),
        0x00 => constant(Insn::LoadConstant(k), word),
        0x60 => constant(Insn::LoadCell(k), word),
        0x80 => nothing(Insn::LoadLength, word, k),
        0x01 => constant(Insn::LoadXConstant(k), word),
        0x61 => constant(Insn::LoadXCell(k), word),
        0x81 => nothing(Insn::LoadXLength, word, k),
        0xb1 => constant(Insn::LoadXHeader(k), word),
        0x02 => constant(Insn::Store(k), word),
        0x03 => constant(Insn::StoreX(k), word),
        0x04 => constant(Insn::Alu(Operation::Add, Operand::K(k)), word),
        0x0c => nothing(Insn::Alu(Operation::Add, Operand::X), word, k),
        0x14 => constant(Insn::Alu(Operation::Sub, Operand::K(k)), word),
        0x1c => nothing(Insn::Alu(Operation::Sub, Operand::X), word, k),
        0x24 => constant(Insn::Alu(Operation::Mul, Operand::K(k)), word),
        0x2c => nothing(Insn::Alu(Operation::Mul, Operand::X), word, k),
        0x34 => constant(Insn::Alu(Operation::Div, Operand::K(k)), word),
        0x3c => nothing(Insn::Alu(Operation::Div, Operand::X), word, k),
        0x44 => constant(Insn::Alu(Operation::Or, Operand::K(k)), word),
        0x4c => nothing(Insn::Alu(Operation::Or, Operand::X), word, k),
        0x54 => constant(Insn::Alu(Operation::And, Operand::K(k)), word),
        0x5c => nothing(Insn::Alu(Operation::And, Operand::X), word, k),
        0x64 => constant(Insn::Alu(Operation::Lsh, Operand::K(k)), word),
        0x6c => nothing(Insn::Alu(Operation::Lsh, Operand::X), word, k),
        0x74 => constant(Insn::Alu(Operation::Rsh, Operand::K(k)), word),
        0x7c => nothing(Insn::Alu(Operation::Rsh, Operand::X), word, k),
        0x94 => constant(Insn::Alu(Operation::Mod, Operand::K(k)), word),
        0x9c => nothing(Insn::Alu(Operation::Mod, Operand::X), word, k),
        0xa4 => constant(Insn::Alu(Operation::Xor, Operand::K(k)), word),
        0xac => nothing(Insn::Alu(Operation::Xor, Operand::X), word, k),
        0x84 => nothing(Insn::Negate, word, k),
        0x07 => nothing(Insn::CopyToX, word, k),
        0x87 => nothing(Insn::CopyFromX, word, k),
        0x05 => constant(Insn::Jump(k), word),
        0x15 => all(jump_if(Test::Equal, Operand::K(k), word)),
        0x1d => jumps(jump_if(Test::Equal, Operand::X, word), k),
        0x25 => all(jump_if(Test::Greater, Operand::K(k), word)),
        0x2d => jumps(jump_if(Test::Greater, Operand::X, word), k),
        0x35 => all(jump_if(Test::GreaterOrEqual, Operand::K(k), word)),
        0x3d => jumps(jump_if(Test::GreaterOrEqual, Operand::X, word), k),
        0x45 => all(jump_if(Test::CommonBit, Operand::K(k), word)),
        0x4d => jumps(jump_if(Test::CommonBit, Operand::X, word), k),
        0x06 => constant(Insn::ReturnConstant(k), word),
        0x16 => nothing(Insn::ReturnA, word, k),
        _ => None,
    }
}

#[inline(always)]
fn decode(word: u64) -> Option<Decoded>
    ensures { result ≡ decoded_with (uses_of (code_of word)) (true_jump_of word) (false_jump_of word) (constant_of word) }
{
    decode_fields((word >> 48) as u16, word, (word & 0xffff_ffff) as u32)
}

#[inline(always)]
fn tested(decoded: Option<Decoded>) -> Result<Insn, WordFault>
    ensures { result ≡ tested decoded }
{
    match decoded {
        None => Err(WordFault::BadOpcode),
        Some(decoded) => {
            if decoded.unused_zero {
                Ok(decoded.insn)
            } else {
                Err(WordFault::StrayField)
            }
        }
    }
}

impl Insn {
    /// Decodes a word. `Err` is `BadOpcode` if no instruction has the word's code, else `StrayField` if a field that the
    /// instruction does not use is not 0 (docs/MACHINE.md, "Instruction words").
    #[inline(always)]
    pub fn from_word(word: u64) -> Result<Insn, WordFault>
        ensures instruction { result ≡ instruction_of word }
        ensures word_exact { IsOk result ↔ IsInstructionWord word }
        ensures word_round_trip { IfOk result (λ insn. word_of insn ≡ word) }

        ensures bad_opcode { (result ≡ Err WordFault.BadOpcode) ↔ IsNone (uses_of (code_of word)) }
        ensures stray_field { (result ≡ Err WordFault.StrayField) ↔ (IsSome (uses_of (code_of word)) × (¬ IsInstructionWord word)) }
    {
        tested(decode(word))
    }

    /// Decodes a word that is known to be an instruction's. Tests no field.
    #[inline(always)]
    pub fn from_instruction_word(word: u64) -> Insn
        requires { IsInstructionWord word }
        ensures { instruction_of word ≡ Ok result }
    {
        match decode(word) {
            Some(decoded) => decoded.insn,
            None => unreachable!(),
        }
    }

    /// Decodes eight bytes, read as a big-endian word, with the faults of `from_word`.
    pub fn from_bytes(bytes: [u8; 8]) -> Result<Insn, WordFault>
        ensures instruction { result ≡ instruction_of (from_be_bytes w64 bytes) }
        ensures bytes_round_trip { IfOk result (λ insn. to_be_bytes w64 (word_of insn) ≡ bytes) }
    {
        Insn::from_word(u64::from_be_bytes(bytes))
    }
}

/// Law: of all numbers, exactly the words of instructions are read as an instruction. It runs nothing.
pub fn instruction_words()
    ensures { ReadsInstructionWords }
{}
