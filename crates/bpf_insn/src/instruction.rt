//! The instructions (networking/filter.rst, "BPF engine and instruction set").

/// How many bytes a load from the packet takes.
#[derive(Clone, Copy, Debug, PartialEq, Eq)]
pub enum Size {
    /// Four bytes (`BPF_W`).
    Word,
    /// Two bytes (`BPF_H`).
    Half,
    /// One byte (`BPF_B`).
    Byte,
}

/// An operation on A and its operand. Sums, differences and products are modulo 2^32.
#[derive(Clone, Copy, Debug, PartialEq, Eq)]
pub enum Operation {
    Add,
    Sub,
    Mul,
    /// Division. If the operand is X and X is 0, the program ends with 0.
    Div,
    Or,
    And,
    /// Shift to the left. If the operand is X and X is 32 or more, the result is 0.
    Lsh,
    /// Shift to the right. If the operand is X and X is 32 or more, the result is 0.
    Rsh,
    /// Remainder. If the operand is X and X is 0, the program ends with 0.
    Mod,
    Xor,
}

/// The test of a conditional jump, on A and its operand as unsigned numbers.
#[derive(Clone, Copy, Debug, PartialEq, Eq)]
pub enum Test {
    /// They are equal (`BPF_JEQ`).
    Equal,
    /// A is greater (`BPF_JGT`).
    Greater,
    /// A is greater, or they are equal (`BPF_JGE`).
    GreaterOrEqual,
    /// They have a bit in common (`BPF_JSET`).
    CommonBit,
}

/// The second operand of an operation or a test.
#[derive(Clone, Copy, Debug, PartialEq, Eq)]
pub enum Operand {
    /// The instruction's constant (`BPF_K`).
    K(u32),
    /// The index register (`BPF_X`).
    X,
}

/// How many instructions a conditional jump skips, counted from the next one.
#[derive(Clone, Copy, Debug, PartialEq, Eq)]
pub struct Offsets {
    // In the order of their bytes in a word, so that one shift takes both out.
    /// If the test is false.
    pub jf: u8,
    /// If the test is true.
    pub jt: u8,
}

/// One instruction. The numbers are its constant, `k`.
#[derive(Clone, Copy, Debug, PartialEq, Eq)]
pub enum Insn {
    /// `ld [k]`, `ldh [k]`, `ldb [k]`: A becomes the big-endian number at place `k` of the packet. If the packet lacks one of the
    /// number's bytes, the program ends with 0.
    LoadAbsolute(Size, u32),
    /// `ld [x+k]`, `ldh [x+k]`, `ldb [x+k]`: the same at place X + `k`, an exact sum.
    LoadIndexed(Size, u32),
    /// `ld #k`: A becomes `k`.
    LoadConstant(u32),
    /// `ld M[k]`: A becomes the number of scratch cell `k`.
    LoadCell(u32),
    /// `ld len`: A becomes the packet's number of bytes.
    LoadLength,
    /// `ldx #k`: X becomes `k`.
    LoadXConstant(u32),
    /// `ldx M[k]`: X becomes the number of scratch cell `k`.
    LoadXCell(u32),
    /// `ldx len`: X becomes the packet's number of bytes.
    LoadXLength,
    /// `ldx 4*([k]&0xf)`: X becomes four times the low four bits of byte `k`, the length of an IPv4 header. If the packet lacks the
    /// byte, the program ends with 0.
    LoadXHeader(u32),
    /// `st M[k]`: scratch cell `k` becomes A.
    Store(u32),
    /// `stx M[k]`: scratch cell `k` becomes X.
    StoreX(u32),
    /// `add #k`, `add x` and the others: A becomes the operation's result.
    Alu(Operation, Operand),
    /// `neg`: A becomes its negative, modulo 2^32.
    Negate,
    /// `tax`: X becomes A.
    CopyToX,
    /// `txa`: A becomes X.
    CopyFromX,
    /// `ja +k`: skips `k` instructions.
    Jump(u32),
    /// `jeq #k,jt,jf` and the others: skips `jt` instructions if the test is true, else `jf`.
    JumpIf(Test, Operand, Offsets),
    /// `ret #k`: the program ends with `k`.
    ReturnConstant(u32),
    /// `ret a`: the program ends with A.
    ReturnA,
}

/// Why a word is no instruction.
#[derive(Clone, Copy, Debug, PartialEq, Eq)]
pub enum WordFault {
    /// I1: no instruction has the word's code.
    BadOpcode,
    /// I2: a field that the instruction does not use is not 0.
    StrayField,
}
