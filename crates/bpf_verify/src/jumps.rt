//! Conditional jumps, read from their words, and jump targets, as exact sums.

ghost use Rattle.std.specs.Prelude.{◌≡◌, ◌∷◌, ◌+◌, ◌<◌, [], IfSome, Some};
ghost use Rattle.bpf_insn.specs.Table.{uses_of};
ghost use Rattle.bpf_insn.specs.Word.{false_jump_of, true_jump_of};
ghost use Rattle.bpf_verify.specs.Accepted.{targets_fault};
ghost use Rattle.bpf_verify.specs.body.Pass.{IsFaultAt};
ghost use Rattle.bpf_verify.specs.body.Plain.{IsBranch, uses_constant_test, uses_x_test};

use crate::MAX_INSTRUCTIONS;
use crate::fault::Fault;
use bpf_insn::{Offsets, Test};

#[inline(always)]
fn constant_test(code: u16) -> Option<Test>
    ensures { IfSome result (λ test. uses_of code ≡ Some (uses_constant_test test)) }
{
    match code {
        0x15 => Some(Test::Equal),
        0x25 => Some(Test::Greater),
        0x35 => Some(Test::GreaterOrEqual),
        0x45 => Some(Test::CommonBit),
        _ => None,
    }
}

#[inline(always)]
fn x_test(code: u16) -> Option<Test>
    ensures { IfSome result (λ test. uses_of code ≡ Some (uses_x_test test)) }
{
    match code {
        0x1d => Some(Test::Equal),
        0x2d => Some(Test::Greater),
        0x3d => Some(Test::GreaterOrEqual),
        0x4d => Some(Test::CommonBit),
        _ => None,
    }
}

#[inline(always)]
fn offsets_of(word: u64) -> Offsets
    ensures { result ≡ record { jt = true_jump_of word; jf = false_jump_of word } }
{
    Offsets {
        jt: ((word >> 40) & 0xff) as u8,
        jf: ((word >> 32) & 0xff) as u8,
    }
}

// The offsets of a conditional jump whose fields are right. `None` says nothing.
#[inline(always)]
pub fn branch_of(word: u64) -> Option<Offsets>
    ensures { IfSome result (IsBranch word) }
{
    let code = (word >> 48) as u16;
    if let Some(_test) = constant_test(code) {
        return Some(offsets_of(word));
    }
    if let Some(_test) = x_test(code) {
        if word % (1 << 32) == 0 {
            return Some(offsets_of(word));
        }
    }
    None
}

#[inline(always)]
pub fn check_target(pc: usize, k: u32, len: usize) -> Option<Fault>
    requires { pc < MAX_INSTRUCTIONS }
    ensures fault { result ≡ targets_fault len pc ((pc + 1 + k) ∷ []) }
    ensures fault_place { IfSome result (IsFaultAt pc) }
{
    if pc + 1 + (k as usize) < len {
        None
    } else {
        Some(Fault::JumpOutside { pc })
    }
}

#[inline(always)]
pub fn check_targets(pc: usize, offsets: Offsets, len: usize) -> Option<Fault>
    requires { pc < MAX_INSTRUCTIONS }
    ensures fault { result ≡ targets_fault len pc ((pc + 1 + offsets.jt) ∷ (pc + 1 + offsets.jf) ∷ []) }
    ensures fault_place { IfSome result (IsFaultAt pc) }
{
    if pc + 1 + (offsets.jt as usize) < len && pc + 1 + (offsets.jf as usize) < len {
        None
    } else {
        Some(Fault::JumpOutside { pc })
    }
}
