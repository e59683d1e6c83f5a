//! The effect of one instruction.

ghost use Rattle.std.specs.Prelude.{◌≡◌, ◌≤◌, List, Ok, if◌then◌else◌, length, ℕ};
ghost use Rattle.bpf_insn.specs.declared.instruction.Insn.{Insn};
ghost use Rattle.bpf_insn.specs.Word.{instruction_of};
ghost use Rattle.bpf_machine.specs.declared.execute.Next.TheVariants.{Skip};
ghost use Rattle.bpf_verify.specs.body.Pass.{HasCell};
ghost use Rattle.bpf_machine.specs.body.ArrayMachine.{a_or_end, array_effect, x_or_end};
ghost use Rattle.bpf_machine.specs.body.Next.{effect_of};

use crate::MAX_PACKET;
use crate::arithmetic::{compute, negative, operand_value};
use crate::packet::{header_length, number};
use bpf_insn::{Insn, Offsets, Test};

/// The number of scratch cells, as a length.
pub const CELL_COUNT: usize = bpf_verify::CELLS as usize;

/// The next step after an instruction: the next instruction, the one after so many more, or the program's end.
#[derive(Clone, Copy)]
pub enum Next {
    GoOn,
    Skip(u32),
    End(u32),
}

/// The registers A and X.
/// The reason: docs/INTERNALS.md, "Scratch memory, registers and steps".
#[derive(Drop)]
pub struct Registers {
    pub a: u32,
    pub x: u32,
}

#[inline(always)]
fn load_a(machine: &mut Registers, loaded: Option<u32>) -> Next
    ensures effect { (cells : List ℕ) → effect_of result machine.new.a machine.new.x cells ≡ a_or_end loaded machine.old.x cells }
{
    match loaded {
        Some(number) => {
            machine.a = number;
            Next::GoOn
        }
        None => Next::End(0),
    }
}

#[inline(always)]
fn load_x(machine: &mut Registers, loaded: Option<u32>) -> Next
    ensures effect { (cells : List ℕ) → effect_of result machine.new.a machine.new.x cells ≡ x_or_end loaded machine.old.a cells }
{
    match loaded {
        Some(number) => {
            machine.x = number;
            Next::GoOn
        }
        None => Next::End(0),
    }
}

#[inline(always)]
fn skip(passed: bool, jt: u8, jf: u8) -> Next
    ensures { result ≡ Skip (if passed then jt else jf) }
{
    if passed {
        Next::Skip(jt as u32)
    } else {
        Next::Skip(jf as u32)
    }
}

#[inline(always)]
pub fn execute(
    machine: &mut Registers,
    cells: &mut [u32; CELL_COUNT],
    insn: Insn,
    packet: &[u8],
) -> Next
    requires packet { length packet.now ≤ MAX_PACKET }
    requires cell { HasCell insn }
    ensures effect { effect_of result machine.new.a machine.new.x cells.new ≡ array_effect insn machine.old.a machine.old.x cells.old packet.now }
    ensures cells { length cells.new ≡ CELL_COUNT }
{
    match insn {
        Insn::LoadAbsolute(size, k) => load_a(machine, number(packet, size, k as u64)),
        Insn::LoadIndexed(size, k) => {
            load_a(machine, number(packet, size, machine.x as u64 + k as u64))
        }
        Insn::LoadConstant(k) => load_a(machine, Some(k)),
        Insn::LoadCell(k) => load_a(machine, Some(cells[k as usize])),
        Insn::LoadLength => load_a(machine, Some(packet.len() as u32)),
        Insn::LoadXConstant(k) => load_x(machine, Some(k)),
        Insn::LoadXCell(k) => load_x(machine, Some(cells[k as usize])),
        Insn::LoadXLength => load_x(machine, Some(packet.len() as u32)),
        Insn::LoadXHeader(k) => load_x(machine, header_length(packet, k as u64)),
        Insn::Store(k) => {
            cells[k as usize] = machine.a;
            Next::GoOn
        }
        Insn::StoreX(k) => {
            cells[k as usize] = machine.x;
            Next::GoOn
        }
        Insn::Alu(operation, operand) => {
            let computed = compute(operation, machine.a, operand_value(operand, machine.x));
            load_a(machine, computed)
        }
        Insn::Negate => load_a(machine, Some(negative(machine.a))),
        Insn::CopyToX => load_x(machine, Some(machine.a)),
        Insn::CopyFromX => load_a(machine, Some(machine.x)),
        Insn::Jump(k) => Next::Skip(k),
        Insn::JumpIf(test, operand, Offsets { jt, jf }) => {
            let compared = operand_value(operand, machine.x);
            match test {
                Test::Equal => skip(machine.a == compared, jt, jf),
                Test::Greater => skip(machine.a > compared, jt, jf),
                Test::GreaterOrEqual => skip(machine.a >= compared, jt, jf),
                Test::CommonBit => skip(machine.a & compared != 0, jt, jf),
            }
        }
        Insn::ReturnConstant(k) => Next::End(k),
        Insn::ReturnA => Next::End(machine.a),
    }
}

/// The registers after an instruction, and the next step.
#[derive(Clone, Copy)]
pub struct Step {
    pub a: u32,
    pub x: u32,
    pub next: Next,
}

/// Executes the instruction of a word, as `execute` does. For words that are seldom run: the call is not inlined, and so leaves the
/// registers to the other words.
#[cold]
#[inline(never)]
pub fn step_apart(word: u64, a: u32, x: u32, cells: &mut [u32; CELL_COUNT], packet: &[u8]) -> Step
    requires packet { length packet.now ≤ MAX_PACKET }
    requires word { (insn : Insn) × (instruction_of word ≡ Ok insn) × HasCell insn }
    ensures effect { (insn : Insn) → instruction_of word ≡ Ok insn → effect_of result.next result.a result.x cells.new ≡ array_effect insn a x cells.old packet.now }
    ensures cells { length cells.new ≡ CELL_COUNT }
{
    let insn = Insn::from_instruction_word(word);
    let mut machine = Registers { a, x };
    let next = execute(&mut machine, cells, insn, packet);
    let Registers { a, x } = machine;
    Step { a, x, next }
}
