//! Operations and tests on 32-bit numbers.

ghost use Rattle.std.specs.Prelude.{◌≡◌, ◌-◌, ◌*◌, ◌/◌, ◌%◌, ◌^◌, if◌then◌else◌, nat_lt};
ghost use Rattle.bpf_machine.specs.Meaning.{computed, operand_value};

use bpf_insn::{Operand, Operation};

#[inline(always)]
pub fn operand_value(operand: Operand, x: u32) -> u32
    ensures { result ≡ operand_value operand x }
{
    match operand {
        Operand::K(k) => k,
        Operand::X => x,
    }
}

#[inline(always)]
pub fn negative(a: u32) -> u32
    ensures { result ≡ (2 ^ 32 - a) % 2 ^ 32 }
{
    0u32.wrapping_sub(a)
}

#[inline(always)]
fn shifted_left(a: u32, count: u32) -> u32
    ensures { result ≡ (if nat_lt count 32 then a * 2 ^ count % 2 ^ 32 else 0) }
{
    if count < 32 { a << count } else { 0 }
}

#[inline(always)]
fn shifted_right(a: u32, count: u32) -> u32
    ensures { result ≡ (if nat_lt count 32 then a / 2 ^ count else 0) }
{
    if count < 32 { a >> count } else { 0 }
}

/// Computes an operation. Returns `None` for a division or a remainder by zero.
#[inline(always)]
pub fn compute(operation: Operation, a: u32, operand: u32) -> Option<u32>
    ensures { result ≡ computed operation a operand }
{
    match operation {
        Operation::Add => Some(a.wrapping_add(operand)),
        Operation::Sub => Some(a.wrapping_sub(operand)),
        Operation::Mul => Some(a.wrapping_mul(operand)),
        Operation::Div => a.checked_div(operand),
        Operation::Or => Some(a | operand),
        Operation::And => Some(a & operand),
        Operation::Lsh => Some(shifted_left(a, operand)),
        Operation::Rsh => Some(shifted_right(a, operand)),
        Operation::Mod => a.checked_rem(operand),
        Operation::Xor => Some(a ^ operand),
    }
}
