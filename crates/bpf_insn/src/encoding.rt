//! From instructions to words and bytes.

ghost use Rattle.std.specs.Prelude.{◌≡◌, ◌*◌, ◌+◌, ◌<◌, ◌^◌, Ok};
ghost use Rattle.std.specs.Int.{from_be_bytes, to_be_bytes, w64};
ghost use Rattle.bpf_insn.specs.Word.{FieldsFit, absolute_code, indexed_code, instruction_of, operand_word, operation_code, test_code, word, word_of};

use crate::instruction::{Insn, Operand, Operation, Size, Test};

#[inline(always)]
fn word(code: u16, jt: u8, jf: u8, k: u32) -> u64
    ensures { result ≡ word code jt jf k }
{
    (code as u64) * (1 << 48) + (jt as u64) * (1 << 40) + (jf as u64) * (1 << 32) + k as u64
}

#[inline(always)]
#[tactic(auto, using(crate::proofs::WordLemmas::bytes_read_back))]
fn bytes(word: u64) -> [u8; 8]
    ensures bytes { result ≡ to_be_bytes w64 word }
    ensures read_back { from_be_bytes w64 result ≡ word }
{
    word.to_be_bytes()
}

#[inline(always)]
fn operand_word(code: u16, operand: Operand, jt: u8, jf: u8) -> u64
    requires { code < 2 ^ 15 }
    ensures { result ≡ operand_word code operand jt jf }
{
    match operand {
        Operand::K(k) => word(code, jt, jf, k),
        Operand::X => word(code + 8, jt, jf, 0),
    }
}

#[inline(always)]
fn absolute_code(size: Size) -> u16
    ensures { result ≡ absolute_code size }
{
    match size {
        Size::Word => 0x20,
        Size::Half => 0x28,
        Size::Byte => 0x30,
    }
}

#[inline(always)]
fn indexed_code(size: Size) -> u16
    ensures { result ≡ indexed_code size }
{
    match size {
        Size::Word => 0x40,
        Size::Half => 0x48,
        Size::Byte => 0x50,
    }
}

#[inline(always)]
fn operation_code(operation: Operation) -> u16
    ensures code { result ≡ operation_code operation }
    ensures below_x { result < 2 ^ 15 }
{
    match operation {
        Operation::Add => 0x04,
        Operation::Sub => 0x14,
        Operation::Mul => 0x24,
        Operation::Div => 0x34,
        Operation::Or => 0x44,
        Operation::And => 0x54,
        Operation::Lsh => 0x64,
        Operation::Rsh => 0x74,
        Operation::Mod => 0x94,
        Operation::Xor => 0xa4,
    }
}

#[inline(always)]
fn test_code(test: Test) -> u16
    ensures code { result ≡ test_code test }
    ensures below_x { result < 2 ^ 15 }
{
    match test {
        Test::Equal => 0x15,
        Test::Greater => 0x25,
        Test::GreaterOrEqual => 0x35,
        Test::CommonBit => 0x45,
    }
}

#[inline(always)]
fn fitting_word(insn: Insn) -> u64
    ensures word { result ≡ word_of insn }
    ensures fits { FieldsFit insn }
{
    match insn {
        Insn::LoadAbsolute(size, k) => word(absolute_code(size), 0, 0, k),
        Insn::LoadIndexed(size, k) => word(indexed_code(size), 0, 0, k),
        Insn::LoadConstant(k) => word(0x00, 0, 0, k),
        Insn::LoadCell(k) => word(0x60, 0, 0, k),
        Insn::LoadLength => word(0x80, 0, 0, 0),
        Insn::LoadXConstant(k) => word(0x01, 0, 0, k),
        Insn::LoadXCell(k) => word(0x61, 0, 0, k),
        Insn::LoadXLength => word(0x81, 0, 0, 0),
        Insn::LoadXHeader(k) => word(0xb1, 0, 0, k),
        Insn::Store(k) => word(0x02, 0, 0, k),
        Insn::StoreX(k) => word(0x03, 0, 0, k),
        Insn::Alu(operation, operand) => operand_word(operation_code(operation), operand, 0, 0),
        Insn::Negate => word(0x84, 0, 0, 0),
        Insn::CopyToX => word(0x07, 0, 0, 0),
        Insn::CopyFromX => word(0x87, 0, 0, 0),
        Insn::Jump(k) => word(0x05, 0, 0, k),
        Insn::JumpIf(test, operand, offsets) => {
            operand_word(test_code(test), operand, offsets.jt, offsets.jf)
        }
        Insn::ReturnConstant(k) => word(0x06, 0, 0, k),
        Insn::ReturnA => word(0x16, 0, 0, 0),
    }
}

impl Insn {
    /// Writes the instruction as a word: `code * 2^48 + jt * 2^40 + jf * 2^32 + k`, with 0 in each field that the instruction does
    /// not use. Inlined, so that the word of an instruction in the source is a constant.
    /// Why it is inlined: docs/INTERNALS.md, "A word is made where it is written".
    #[inline(always)]
    pub fn to_word(self) -> u64
        ensures word { result ≡ word_of self }
        ensures word_round_trip { instruction_of result ≡ Ok self }
    {
        fitting_word(self)
    }

    /// Writes the instruction as bytes: its word, big-endian.
    pub fn to_bytes(self) -> [u8; 8]
        ensures bytes { result ≡ to_be_bytes w64 (word_of self) }
        ensures bytes_round_trip { instruction_of (from_be_bytes w64 result) ≡ Ok self }
    {
        bytes(self.to_word())
    }
}
