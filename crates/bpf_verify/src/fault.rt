//! Why words are no program.

ghost use Rattle.std.specs.Prelude.{◌≡◌};
ghost use Rattle.bpf_verify.specs.Code.{verify_code};

use fault_code::Code;

/// Why words are no program. `pc` is the place of an instruction, counted from 0.
#[derive(Clone, Copy, Debug, PartialEq, Eq)]
pub enum Fault {
    /// V1: there is no instruction.
    Empty,
    /// V2: there are more than `MAX_INSTRUCTIONS`.
    TooLong,
    /// V3: a code of no instruction.
    BadOpcode { pc: usize },
    /// V4: a field that the instruction does not use is not 0.
    StrayField { pc: usize },
    /// V5: a division by the constant 0.
    ZeroDivisor { pc: usize },
    /// V6: a shift by a constant of 32 or more.
    BadShift { pc: usize },
    /// V7: a scratch cell that the machine does not have.
    BadCell { pc: usize },
    /// V8: a jump target past the last instruction.
    JumpOutside { pc: usize },
    /// V9: an absolute load with a `k` of `ANCILLARY_FROM` or more.
    Ancillary { pc: usize },
    /// V10: the last instruction is no return.
    NoReturn,
    /// V11: a load of a scratch cell that some path reaches without a store of it.
    UnstoredCell { pc: usize },
}

impl Fault {
    /// Returns the code (docs/COMMANDS.md, "Refusals").
    pub fn code(self) -> Code
        ensures { result ≡ verify_code self }
    {
        match self {
            Fault::Empty => Code::plain('V', 1),
            Fault::TooLong => Code::plain('V', 2),
            Fault::BadOpcode { pc } => Code::at('V', 3, pc),
            Fault::StrayField { pc } => Code::at('V', 4, pc),
            Fault::ZeroDivisor { pc } => Code::at('V', 5, pc),
            Fault::BadShift { pc } => Code::at('V', 6, pc),
            Fault::BadCell { pc } => Code::at('V', 7, pc),
            Fault::JumpOutside { pc } => Code::at('V', 8, pc),
            Fault::Ancillary { pc } => Code::at('V', 9, pc),
            Fault::NoReturn => Code::plain('V', 10),
            Fault::UnstoredCell { pc } => Code::at('V', 11, pc),
        }
    }
}
