//! The checks of one instruction by itself.

ghost use Rattle.std.specs.Prelude.{◌≡◌, ◌<◌, ◌↔◌, IfErr, IfOk, IfSome, IsTrue, None, Ok, Some};
ghost use Rattle.bpf_insn.specs.declared.instruction.Insn.TheVariants.{ReturnConstant};
ghost use Rattle.bpf_insn.specs.Word.{constant_of, instruction_of};
ghost use Rattle.bpf_verify.specs.Path.{IsReturn};
ghost use Rattle.bpf_verify.specs.Accepted.{absolute_fault, cell_fault, divisor_fault, instruction_fault, operand_fault, shift_fault, word_fault};
ghost use Rattle.bpf_verify.specs.body.Pass.{IsFaultAt};

use crate::fault::Fault;
use crate::jumps::{check_target, check_targets};
use crate::{ANCILLARY_FROM, CELLS, MAX_INSTRUCTIONS};
use bpf_insn::{Insn, Operand, Operation, WordFault};

#[inline(always)]
fn check_absolute(k: u32, pc: usize) -> Option<Fault>
    ensures fault { result ≡ absolute_fault pc k }
    ensures fault_place { IfSome result (IsFaultAt pc) }
{
    if k < ANCILLARY_FROM {
        None
    } else {
        Some(Fault::Ancillary { pc })
    }
}

#[inline(always)]
fn check_cell(k: u32, pc: usize) -> Option<Fault>
    ensures fault { result ≡ cell_fault pc k }
    ensures fault_place { IfSome result (IsFaultAt pc) }
{
    if k < CELLS {
        None
    } else {
        Some(Fault::BadCell { pc })
    }
}

#[inline(always)]
fn check_divisor(k: u32, pc: usize) -> Option<Fault>
    ensures fault { result ≡ divisor_fault pc k }
    ensures fault_place { IfSome result (IsFaultAt pc) }
{
    if k == 0 {
        Some(Fault::ZeroDivisor { pc })
    } else {
        None
    }
}

#[inline(always)]
fn check_shift(k: u32, pc: usize) -> Option<Fault>
    ensures fault { result ≡ shift_fault pc k }
    ensures fault_place { IfSome result (IsFaultAt pc) }
{
    if k < u32::BITS {
        None
    } else {
        Some(Fault::BadShift { pc })
    }
}

#[inline(always)]
fn check_operand(operation: Operation, operand: Operand, pc: usize) -> Option<Fault>
    ensures fault { result ≡ operand_fault pc operation operand }
    ensures fault_place { IfSome result (IsFaultAt pc) }
{
    match operand {
        Operand::K(k) => match operation {
            Operation::Div => check_divisor(k, pc),
            Operation::Mod => check_divisor(k, pc),
            Operation::Lsh => check_shift(k, pc),
            Operation::Rsh => check_shift(k, pc),
            _ => None,
        },
        Operand::X => None,
    }
}

#[inline(always)]
fn check_instruction(insn: Insn, pc: usize, len: usize) -> Option<Fault>
    requires { pc < MAX_INSTRUCTIONS }
    ensures fault { result ≡ instruction_fault len pc insn }
    ensures fault_place { IfSome result (IsFaultAt pc) }
{
    match insn {
        Insn::LoadAbsolute(_, k) => check_absolute(k, pc),
        Insn::LoadCell(k) => check_cell(k, pc),
        Insn::LoadXCell(k) => check_cell(k, pc),
        Insn::Store(k) => check_cell(k, pc),
        Insn::StoreX(k) => check_cell(k, pc),
        Insn::Alu(operation, operand) => check_operand(operation, operand, pc),
        Insn::Jump(k) => check_target(pc, k, len),
        Insn::JumpIf(_, _, offsets) => check_targets(pc, offsets, len),
        _ => None,
    }
}

#[inline(always)]
pub fn check_word(word: u64, pc: usize, len: usize) -> Result<Insn, Fault>
    requires { pc < MAX_INSTRUCTIONS }
    ensures instruction { IfOk result (λ insn. instruction_of word ≡ Ok insn) }
    ensures faultless { IfOk result (λ insn. instruction_fault len pc insn ≡ None) }
    ensures fault { IfErr result (λ fault. word_fault len pc (instruction_of word) ≡ Some fault) }
    ensures fault_place { IfErr result (IsFaultAt pc) }
{
    match Insn::from_word(word) {
        Err(WordFault::BadOpcode) => Err(Fault::BadOpcode { pc }),
        Err(WordFault::StrayField) => Err(Fault::StrayField { pc }),
        Ok(insn) => match check_instruction(insn, pc, len) {
            Some(fault) => Err(fault),
            None => Ok(insn),
        },
    }
}

#[inline(always)]
pub fn is_return(insn: Insn) -> bool
    ensures { IsTrue result ↔ IsReturn insn }
{
    match insn {
        Insn::ReturnConstant(_) => true,
        Insn::ReturnA => true,
        _ => false,
    }
}

// Whether a word is a return of a constant whose fields are right. `false` says nothing.
#[inline(always)]
pub fn returns_constant(word: u64) -> bool
    ensures { IsTrue result → (instruction_of word ≡ Ok (ReturnConstant (constant_of word))) }
{
    word >> 32 == 0x0006_0000
}
