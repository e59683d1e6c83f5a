//! How a program is printed (docs/MACHINE.md, "How a program is printed").

ghost use Rattle.std.specs.Prelude.{◌≡◌, ◌++◌, ◌∷◌, [], IfOk, OnOk, codes, decimal, string_bytes};
ghost use Rattle.bpf_asm.specs.Assembly.{Assembles};
ghost use Rattle.bpf_asm.specs.Statement.{load_name, operation_name, test_name};
ghost use Rattle.bpf_asm.specs.Text.{IsPrintable, printed, printed_in_line, printed_insn, printed_operand};
ghost use Rattle.bpf_insn.specs.declared.instruction.Insn.TheVariants.{Alu, JumpIf};

use bpf_insn::{Insn, Offsets, Operand, Operation, Size, Test};
use bpf_verify::{OutOfMemory, Program};
use std::alloc::Allocator;

fn load_name(size: Size) -> &'static str
    ensures { result.now ≡ load_name size }
{
    match size {
        Size::Word => "ld",
        Size::Half => "ldh",
        Size::Byte => "ldb",
    }
}

fn operation_name(operation: Operation) -> &'static str
    ensures { result.now ≡ operation_name operation }
{
    match operation {
        Operation::Add => "add",
        Operation::Sub => "sub",
        Operation::Mul => "mul",
        Operation::Div => "div",
        Operation::Or => "or",
        Operation::And => "and",
        Operation::Lsh => "lsh",
        Operation::Rsh => "rsh",
        Operation::Mod => "mod",
        Operation::Xor => "xor",
    }
}

fn test_name(test: Test) -> &'static str
    ensures { result.now ≡ test_name test }
{
    match test {
        Test::Equal => "jeq",
        Test::Greater => "jgt",
        Test::GreaterOrEqual => "jge",
        Test::CommonBit => "jset",
    }
}

fn print_operand<A: Allocator>(text: &mut String<A>, operand: Operand) -> Result<(), OutOfMemory>
    ensures { OnOk result (string_bytes text.new ≡ string_bytes text.old ++ printed_operand operand) }
{
    match operand {
        Operand::K(k) => write!(text, "#{k}"),
        Operand::X => text.push_str("x"),
    }
}

// Prints a number after a text.
fn print_number<A: Allocator>(text: &mut String<A>, front: &str, k: u32) -> Result<(), OutOfMemory>
    ensures { OnOk result (string_bytes text.new ≡ string_bytes text.old ++ (front.now ++ decimal k)) }
{
    write!(text, "{front}{k}")
}

// Prints a number between two texts.
fn print_between<A: Allocator>(
    text: &mut String<A>,
    front: &str,
    k: u32,
    back: &str,
) -> Result<(), OutOfMemory>
    ensures { OnOk result (string_bytes text.new ≡ string_bytes text.old ++ (front.now ++ decimal k ++ back.now)) }
{
    write!(text, "{front}{k}{back}")
}

fn print_load<A: Allocator>(
    text: &mut String<A>,
    size: Size,
    front: &str,
    k: u32,
) -> Result<(), OutOfMemory>
    ensures { OnOk result (string_bytes text.new ≡ string_bytes text.old ++ (load_name size ++ (front.now ++ decimal k ++ codes "]"))) }
{
    let name = load_name(size);
    write!(text, "{name}{front}{k}]")
}

fn print_operation<A: Allocator>(
    text: &mut String<A>,
    operation: Operation,
    operand: Operand,
) -> Result<(), OutOfMemory>
    ensures { OnOk result (string_bytes text.new ≡ string_bytes text.old ++ printed_insn (Alu operation operand)) }
{
    let name = operation_name(operation);
    write!(text, "{name} ")?;
    print_operand(text, operand)
}

fn print_branch<A: Allocator>(
    text: &mut String<A>,
    test: Test,
    operand: Operand,
    offsets: Offsets,
) -> Result<(), OutOfMemory>
    ensures { OnOk result (string_bytes text.new ≡ string_bytes text.old ++ printed_insn (JumpIf test operand offsets)) }
{
    let (jt, jf) = (offsets.jt, offsets.jf);
    let name = test_name(test);
    write!(text, "{name} ")?;
    print_operand(text, operand)?;
    write!(text, ",{jt},{jf}")
}

fn print_insn<A: Allocator>(text: &mut String<A>, insn: Insn) -> Result<(), OutOfMemory>
    ensures { OnOk result (string_bytes text.new ≡ string_bytes text.old ++ printed_insn insn) }
{
    match insn {
        Insn::LoadAbsolute(size, k) => print_load(text, size, " [", k),
        Insn::LoadIndexed(size, k) => print_load(text, size, " [x+", k),
        Insn::LoadConstant(k) => print_number(text, "ld #", k),
        Insn::LoadCell(k) => print_between(text, "ld M[", k, "]"),
        Insn::LoadLength => text.push_str("ld len"),
        Insn::LoadXConstant(k) => print_number(text, "ldx #", k),
        Insn::LoadXCell(k) => print_between(text, "ldx M[", k, "]"),
        Insn::LoadXLength => text.push_str("ldx len"),
        Insn::LoadXHeader(k) => print_between(text, "ldx 4*([", k, "]&0xf)"),
        Insn::Store(k) => print_between(text, "st M[", k, "]"),
        Insn::StoreX(k) => print_between(text, "stx M[", k, "]"),
        Insn::Alu(operation, operand) => print_operation(text, operation, operand),
        Insn::Negate => text.push_str("neg"),
        Insn::CopyToX => text.push_str("tax"),
        Insn::CopyFromX => text.push_str("txa"),
        Insn::Jump(k) => print_number(text, "ja +", k),
        Insn::JumpIf(test, operand, offsets) => print_branch(text, test, operand, offsets),
        Insn::ReturnConstant(k) => print_number(text, "ret #", k),
        Insn::ReturnA => text.push_str("ret a"),
    }
}

/// Prints a program as a text in memory of `alloc`: one instruction on each line, numbers in decimal, jumps by numbers, and no
/// space but one after the mnemonic. A program has one spelling, and `assemble` reads it back.
pub fn print<A: Allocator, B: Allocator>(
    alloc: A,
    program: &Program<B>,
) -> Result<String<A>, OutOfMemory>
    ensures printed { IfOk result (λ text. string_bytes text ≡ printed program.now.words) }
    ensures reads_back { IfOk result (λ text. Assembles (string_bytes text) program.now.words) }
{
    let mut text = String::new(alloc);
    for word in program.words() {
        print_insn(&mut text, Insn::from_instruction_word(*word))?;
        text.push_str("\n")?;
    }
    Ok(text)
}

/// Prints a program on one line, as `print` does, but with `; ` between two instructions in place of LF after each.
pub fn print_in_line<A: Allocator, B: Allocator>(
    alloc: A,
    program: &Program<B>,
) -> Result<String<A>, OutOfMemory>
    ensures printed { IfOk result (λ text. string_bytes text ≡ printed_in_line program.now.words) }
    ensures reads_back { IfOk result (λ text. Assembles (string_bytes text) program.now.words) }
    ensures printable { IfOk result (λ text. IsPrintable (string_bytes text)) }
{
    let mut text = String::new(alloc);
    let Some((first, others)) = program.words().split_first() else {
        return Ok(text);
    };
    print_insn(&mut text, Insn::from_instruction_word(*first))?;
    for word in others {
        text.push_str("; ")?;
        print_insn(&mut text, Insn::from_instruction_word(*word))?;
    }
    Ok(text)
}
