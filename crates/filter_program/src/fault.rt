//! Why no program is made of a text.

ghost use Rattle.std.specs.Prelude.{◌≡◌};
ghost use Rattle.filter_program.specs.Code.{text_code};
ghost use Rattle.filter_program.specs.Fault.{fault_of_assembly, fault_of_compiling, fault_of_expression};

use bpf_asm::AsmFault;
use bpf_verify::Fault;
use fault_code::Code;
use filter_compile::CompileFault;
use filter_parse::ParseFault;

/// Why no program is made of a text.
///
/// Every fault except `OutOfMemory` is a fault of the text: the faults of assembly, parsing and compiling in it are
/// never their own `OutOfMemory`.
#[derive(Clone, Copy, Debug, PartialEq, Eq)]
pub enum TextFault {
    /// The text is not assembly.
    Assembly(AsmFault),
    /// The words of the assembled text are not a program.
    Words(Fault),
    /// The text is not an expression.
    Expression(ParseFault),
    /// The expression cannot be compiled.
    Compiling(CompileFault),
    /// An allocation was refused.
    OutOfMemory,
}

impl TextFault {
    /// Returns the code (docs/COMMANDS.md, "Refusals"). Lack of memory is A6, whichever step it stopped.
    pub fn code(self) -> Code
        ensures { result ≡ text_code self }
    {
        match self {
            TextFault::Assembly(fault) => fault.code(),
            TextFault::Words(fault) => fault.code(),
            TextFault::Expression(fault) => fault.code(),
            TextFault::Compiling(fault) => fault.code(),
            TextFault::OutOfMemory => Code::plain('A', 6),
        }
    }
}

impl From<AsmFault> for TextFault {
    ghost from_gives = { λ fault text_fault. text_fault ≡ fault_of_assembly fault };

    fn from(fault: AsmFault) -> TextFault {
        match fault {
            AsmFault::OutOfMemory => TextFault::OutOfMemory,
            fault => TextFault::Assembly(fault),
        }
    }
}

impl From<ParseFault> for TextFault {
    ghost from_gives = { λ fault text_fault. text_fault ≡ fault_of_expression fault };

    fn from(fault: ParseFault) -> TextFault {
        match fault {
            ParseFault::OutOfMemory => TextFault::OutOfMemory,
            fault => TextFault::Expression(fault),
        }
    }
}

impl From<CompileFault> for TextFault {
    ghost from_gives = { λ fault text_fault. text_fault ≡ fault_of_compiling fault };

    fn from(fault: CompileFault) -> TextFault {
        match fault {
            CompileFault::OutOfMemory => TextFault::OutOfMemory,
            fault => TextFault::Compiling(fault),
        }
    }
}
