//! The code of an arithmetic expression (pcap-filter(7), "expr1 relop expr2"), which leaves the value in A.

ghost use Rattle.std.specs.Prelude.{◌≡◌, ◌+◌, ◌<◌, ◌≤◌, IfOk, IfSome, IsTrue, List, OnOk, ℕ};
ghost use Rattle.bpf_verify.specs.declared.TheConstants.{CELLS};
ghost use Rattle.filter_emit.specs.body.Straight.{Extends};
ghost use Rattle.filter_tree.specs.Arithmetic.{value_of_arith};
ghost use Rattle.filter_tree.specs.Measure.{cells_of_arith, weight_of_arith};
ghost use Rattle.filter_tree.specs.Tree.{accessor as accessor_tree, number};
ghost use Rattle.filter_tree.specs.View.{arith_tree_of};
ghost use Rattle.filter_compile.specs.body.Arithmetic.{Applies, DoesAs, IsDirect, IsTaken, Loads, LoadsAt, LoadsDirectly, ReadsAs, Restores, simple_value, weight_of_access};
ghost use Rattle.filter_compile.specs.body.Piece.{Computes, Pairs};

use crate::load::load_header;
use bpf_insn::{Insn, Operand, Operation};
use filter_emit::Code;
use filter_tree::{Arith, Operator, Protocol, Size};
use std::alloc::{AllocError, Allocator};

/// A right side that needs no code of its own.
#[derive(Clone, Copy)]
pub(crate) enum Simple {
    Number(u32),
    /// The packet's number of bytes.
    Length,
}

pub(crate) fn simple_of<B: Allocator>(arith: &Arith<B>) -> Option<Simple>
    ensures value { IfSome result (λ simple. (packet : List ℕ) → value_of_arith (arith_tree_of arith.now) packet ≡ simple_value simple packet) }
{
    match arith {
        Arith::Number(n) => Some(Simple::Number(*n)),
        Arith::Length => Some(Simple::Length),
        _ => None,
    }
}

fn operation(operator: Operator) -> Operation
    ensures { DoesAs operator result }
{
    match operator {
        Operator::Or => Operation::Or,
        Operator::ExclusiveOr => Operation::Xor,
        Operator::And => Operation::And,
        Operator::ShiftLeft => Operation::Lsh,
        Operator::ShiftRight => Operation::Rsh,
        Operator::Add => Operation::Add,
        Operator::Subtract => Operation::Sub,
        Operator::Multiply => Operation::Mul,
        Operator::Divide => Operation::Div,
        Operator::Modulo => Operation::Mod,
    }
}

fn size(size: Size) -> bpf_insn::Size
    ensures { ReadsAs size result }
{
    match size {
        Size::One => bpf_insn::Size::Byte,
        Size::Two => bpf_insn::Size::Half,
        Size::Four => bpf_insn::Size::Word,
    }
}

// Tests whether the verifier accepts an operation on a constant: a divisor is not 0, and a shift is below 32.
fn is_taken(operation: Operation, n: u32) -> bool
    ensures { IsTrue result → IsTaken operation n }
{
    match operation {
        Operation::Div => n != 0,
        Operation::Mod => n != 0,
        Operation::Lsh => n < 32,
        Operation::Rsh => n < 32,
        _ => true,
    }
}

// Each of these takes whether X has the header's length before its code, and returns whether X has it after the code.
fn apply_number<'a, A: Allocator>(
    code: &mut Code<'a, A>,
    operator: Operator,
    n: u32,
    held: bool,
) -> Result<bool, AllocError>
    ensures applies { IfOk result (λ after. Extends (Applies operator (λ packet. Some n) held after) 2 code.old code.new) }
{
    let operation = operation(operator);
    if is_taken(operation, n) {
        code.push(Insn::Alu(operation, Operand::K(n)))?;
        return Ok(held);
    }
    code.push(Insn::LoadXConstant(n))?;
    code.push(Insn::Alu(operation, Operand::X))?;
    Ok(false)
}

fn apply<'a, A: Allocator>(
    code: &mut Code<'a, A>,
    operator: Operator,
    right: Simple,
    held: bool,
) -> Result<bool, AllocError>
    ensures applies { IfOk result (λ after. Extends (Applies operator (simple_value right) held after) 2 code.old code.new) }
{
    match right {
        Simple::Number(n) => apply_number(code, operator, n, held),
        Simple::Length => {
            code.push(Insn::LoadXLength)?;
            code.push(Insn::Alu(operation(operator), Operand::X))?;
            Ok(false)
        }
    }
}

// The index of an accessor, if it is a number that a load can take.
fn direct_index<B: Allocator>(protocol: Protocol, index: &Arith<B>) -> Option<u32>
    ensures is { IfSome result (λ k. arith_tree_of index.now ≡ number k) }
    ensures direct { IfSome result (IsDirect protocol) }
{
    let Arith::Number(k) = index else {
        return None;
    };
    // With at most 60 bytes of header added, the sum is below 2^32.
    let most = match protocol {
        Protocol::Ip => (1 << 31) - 1,
        _ => u32::MAX - 60,
    };
    if *k <= most { Some(*k) } else { None }
}

// An accessor at a number.
fn load_directly<'a, A: Allocator>(
    code: &mut Code<'a, A>,
    protocol: Protocol,
    k: u32,
    bytes: Size,
    held: bool,
) -> Result<bool, AllocError>
    requires direct { IsDirect protocol k }
    ensures loads { IfOk result (λ after. Extends (LoadsDirectly protocol k bytes held after) 2 code.old code.new) }
{
    match protocol {
        Protocol::Ip => {
            code.push(Insn::LoadAbsolute(size(bytes), k))?;
            Ok(held)
        }
        _ => {
            load_header(code, held)?;
            code.push(Insn::LoadIndexed(size(bytes), k))?;
            Ok(true)
        }
    }
}

// Loads from the place in A, through X.
fn load_at<'a, A: Allocator>(code: &mut Code<'a, A>, bytes: Size) -> Result<(), AllocError>
    ensures loads { OnOk result (Extends (LoadsAt bytes) 2 code.old code.new) }
{
    code.push(Insn::CopyToX)?;
    code.push(Insn::LoadIndexed(size(bytes), 0))
}

// An accessor whose index is in A.
fn load<'a, A: Allocator>(
    code: &mut Code<'a, A>,
    protocol: Protocol,
    bytes: Size,
    held: bool,
) -> Result<(), AllocError>
    ensures loads { OnOk result (Extends (Loads protocol bytes held) (weight_of_access protocol) code.old code.new) }
{
    match protocol {
        Protocol::Ip => load_at(code, bytes),
        _ => {
            load_header(code, held)?;
            code.push(Insn::Alu(Operation::Add, Operand::X))?;
            load_at(code, bytes)
        }
    }
}

// Moves the value in A to X, and the saved value from the cell to A.
fn restore<'a, A: Allocator>(code: &mut Code<'a, A>, cell: u32) -> Result<(), AllocError>
    requires cell { cell < CELLS }
    ensures restores { OnOk result (Extends (Restores cell) 2 code.old code.new) }
{
    code.push(Insn::CopyToX)?;
    code.push(Insn::LoadCell(cell))
}

/// Writes the code of an arithmetic expression, which uses scratch cells from `level` on. If the right side of an
/// operation needs code of its own, the operation saves its left value in the cell of its level, and its right side
/// uses the next level.
#[cycle(arithmetic)]
pub(crate) fn arithmetic<'a, A: Allocator, B: Allocator>(
    code: &mut Code<'a, A>,
    arith: &Arith<B>,
    level: u32,
    held: bool,
) -> Result<bool, AllocError>
    requires cells { level + cells_of_arith (arith_tree_of arith.now) ≤ CELLS }
    ensures computes { IfOk result (λ after. Extends (Computes (λ packet a. value_of_arith (arith_tree_of arith.now) packet) held after level) (weight_of_arith (arith_tree_of arith.now)) code.old code.new) }
{
    match arith {
        Arith::Number(n) => {
            code.push(Insn::LoadConstant(*n))?;
            Ok(held)
        }
        Arith::Length => {
            code.push(Insn::LoadLength)?;
            Ok(held)
        }
        Arith::Accessor(protocol, index, bytes) => {
            accessor(code, *protocol, index, *bytes, level, held)
        }
        Arith::Operation(left, operator, right) => {
            let held = arithmetic(code, left, level, held)?;
            match simple_of(right) {
                Some(right) => apply(code, *operator, right, held),
                None => {
                    pair(code, right, level, held)?;
                    code.push(Insn::Alu(operation(*operator), Operand::X))?;
                    Ok(false)
                }
            }
        }
    }
}

#[cycle(arithmetic)]
fn accessor<'a, A: Allocator, B: Allocator>(
    code: &mut Code<'a, A>,
    protocol: Protocol,
    index: &Arith<B>,
    bytes: Size,
    level: u32,
    held: bool,
) -> Result<bool, AllocError>
    requires cells { level + cells_of_arith (arith_tree_of index.now) ≤ CELLS }
    ensures computes { IfOk result (λ after. Extends (Computes (λ packet a. value_of_arith (accessor_tree protocol (arith_tree_of index.now) bytes) packet) held after level) (weight_of_arith (accessor_tree protocol (arith_tree_of index.now) bytes)) code.old code.new) }
{
    match direct_index(protocol, index) {
        Some(k) => load_directly(code, protocol, k, bytes, held),
        None => {
            let held = arithmetic(code, index, level, held)?;
            load(code, protocol, bytes, held)?;
            Ok(false)
        }
    }
}

/// Writes the code of the right side of an operation. The code saves the left value, which is in A, in the cell of the
/// level; it leaves the left value in A and the right one in X.
#[cycle(arithmetic)]
pub(crate) fn pair<'a, A: Allocator, B: Allocator>(
    code: &mut Code<'a, A>,
    right: &Arith<B>,
    level: u32,
    held: bool,
) -> Result<(), AllocError>
    requires cells { level + 1 + cells_of_arith (arith_tree_of right.now) ≤ CELLS }
    ensures pairs { OnOk result (Extends (Pairs (value_of_arith (arith_tree_of right.now)) held level) (weight_of_arith (arith_tree_of right.now) + 3) code.old code.new) }
{
    code.push(Insn::Store(level))?;
    arithmetic(code, right, level + 1, held)?;
    restore(code, level)
}
