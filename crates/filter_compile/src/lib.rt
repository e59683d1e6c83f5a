//! The compiler of filter expressions (pcap-filter(7); docs/EXPRESSIONS.md, "Compiling"). It writes classic BPF
//! programs that accept exactly the packets on which the expressions are true.
#![tactic(auto)]

ghost use Rattle.std.specs.Prelude.{◌≡◌, ◌-◌, ◌<◌, ◌≤◌, Err, IfOk, OnOk, [], false, length, min, true, ◌↔◌};
ghost use Rattle.bpf_verify.specs.Accepted.{IsAccepted};
ghost use Rattle.bpf_verify.specs.declared.TheConstants.{CELLS, MAX_INSTRUCTIONS};
ghost use Rattle.filter_tree.specs.Measure.{cells_of, size_of};
ghost use Rattle.filter_tree.specs.View.{tree_of};
ghost use Rattle.filter_compile.specs.Answer.{AnswersFor, HasFarJumpsOnly, HasNoFarJump};
ghost use Rattle.filter_compile.specs.body.Program.{IsCompiledTo};
ghost use Rattle.filter_compile.specs.declared.fault.CompileFault.TheVariants.{CellsExceeded, TooLong};

mod arithmetic;
mod check;
mod ends;
mod expression;
mod fault;
mod front;
mod guard;
mod header;
mod load;
mod non_ipv4;
mod primitive;
mod relation;
mod sides;

use crate::expression::expression;
use bpf_insn::Insn;
use bpf_verify::{CELLS, MAX_INSTRUCTIONS, Program};
pub use fault::CompileFault;
use filter_emit::{Code, Label};
use filter_facts::Known;
use filter_tree::Expr;
use std::alloc::{AllocError, Allocator};

/// The value that a program returns when it accepts a packet: the whole packet is kept.
pub const ACCEPTED: u32 = 65_535;

/// Up to this size the program of an expression has only the jumps of tests, which reach the 255 instructions after the
/// next one.
pub const SHORT: u32 = 257;

/// Law: the constants, as numbers. It runs nothing.
pub fn limits_as_numbers()
    ensures accepted { ACCEPTED ≡ 65535 }
    ensures short { SHORT ≡ 257 }
{}

/// Compiles an expression to a program in the memory of `alloc`, charged by the expression's size.
///
/// On a packet the program returns `ACCEPTED` if the expression is true, and 0 if it is false or fails. The program has
/// no JA if the expression's size is at most `SHORT`.
///
/// Returns `CellsExceeded` if and only if the expression's cells, the most that its program uses, are above 16;
/// otherwise `TooLong` if and only if its size is above 4096. Both are found before any memory is taken. Returns
/// `OutOfMemory` if an allocation is refused. The lists of jumps are in memory of a clone of `alloc`, and are freed
/// before the call returns.
/// Why it is cloned: docs/INTERNALS.md, "The allocator of a program is cloned".
pub fn compile<A: Allocator, B: Allocator + Clone>(
    alloc: B,
    expr: &Expr<A>,
) -> Result<Program<B>, CompileFault>
    ensures cells_exceeded { (result ≡ Err CellsExceeded) ↔ (CELLS < cells_of (tree_of expr.now)) }
    ensures too_long { (result ≡ Err TooLong) ↔ ((cells_of (tree_of expr.now) ≤ CELLS) × (MAX_INSTRUCTIONS < size_of (tree_of expr.now))) }

    ensures answer { IfOk result (λ program. AnswersFor (tree_of expr.now) program.words) }
    ensures charge { IfOk result (λ program. program.charge ≡ size_of (tree_of expr.now)) }
    ensures within_size { IfOk result (λ program. length program.words ≤ size_of (tree_of expr.now)) }
    ensures far_jumps { IfOk result (λ program. HasFarJumpsOnly (size_of (tree_of expr.now)) program.words) }
    ensures no_far_jump { size_of (tree_of expr.now) ≤ SHORT → IfOk result (λ program. HasNoFarJump program.words) }
    ensures accepted { IfOk result (λ program. IsAccepted program.words) }
{
    let size = expr.size();
    within_limits(expr, size)?;
    Ok(program_of(alloc, expr, size)?)
}

fn within_limits<A: Allocator>(expr: &Expr<A>, size: u32) -> Result<(), CompileFault>
    requires size { size ≡ min (size_of (tree_of expr.now)) u32.MAX }
    ensures cells_exceeded { (result ≡ Err CellsExceeded) ↔ (CELLS < cells_of (tree_of expr.now)) }
    ensures too_long { (result ≡ Err TooLong) ↔ ((cells_of (tree_of expr.now) ≤ CELLS) × (MAX_INSTRUCTIONS < size_of (tree_of expr.now))) }
    ensures within { OnOk result ((cells_of (tree_of expr.now) ≤ CELLS) × (size_of (tree_of expr.now) ≤ MAX_INSTRUCTIONS)) }
{
    if exceeds_cells(expr, size) {
        return Err(CompileFault::CellsExceeded);
    }
    if size > MAX_INSTRUCTIONS as u32 {
        return Err(CompileFault::TooLong);
    }
    Ok(())
}

// Up to this size an expression uses fewer cells than exist.
const FEW: u32 = 64;

// The reason: docs/INTERNALS.md, "Cells are counted only in long expressions".
fn exceeds_cells<A: Allocator>(expr: &Expr<A>, size: u32) -> bool
    requires size { size ≡ min (size_of (tree_of expr.now)) u32.MAX }
    ensures exceeds { result ≡ true → CELLS < cells_of (tree_of expr.now) }
    ensures within { result ≡ false → cells_of (tree_of expr.now) ≤ CELLS }
{
    size > FEW && expr.cells() > CELLS
}

fn program_of<A: Allocator, B: Allocator + Clone>(
    alloc: B,
    expr: &Expr<A>,
    size: u32,
) -> Result<Program<B>, AllocError>
    requires size { size ≡ size_of (tree_of expr.now) }
    requires cells { cells_of (tree_of expr.now) ≤ CELLS }
    requires limit { size ≤ MAX_INSTRUCTIONS }
    ensures program { IfOk result (λ program. IsCompiledTo (tree_of expr.now) program.words) }
    ensures charge { IfOk result (λ program. program.charge ≡ size) }
{
    let lists = alloc.clone()?;
    let mut code = Code::with_room(alloc, &lists, size as usize)?;
    write_words(&mut code, expr, size)?;
    Ok(Program::charged(code.into_words(), size))
}

fn write_words<'a, A: Allocator, B: Allocator>(
    code: &mut Code<'a, A>,
    expr: &Expr<B>,
    size: u32,
) -> Result<(), AllocError>
    requires empty { code.old ≡ [] }
    requires size { size ≡ size_of (tree_of expr.now) }
    requires cells { cells_of (tree_of expr.now) ≤ CELLS }
    requires limit { size ≤ MAX_INSTRUCTIONS }
    ensures program { OnOk result (IsCompiledTo (tree_of expr.now) code.new) }
{
    let mut yes = code.label(size - 2);
    let mut no = code.label(size - 1);
    write_to_labels(code, expr, size, &mut yes, &mut no)
}

// Writes the code before the two labels, and the returns after them.
fn write_to_labels<'a, A: Allocator, B: Allocator>(
    code: &mut Code<'a, A>,
    expr: &Expr<B>,
    size: u32,
    yes: &mut Label<'a, A>,
    no: &mut Label<'a, A>,
) -> Result<(), AllocError>
    requires empty { code.old ≡ [] }
    requires size { size ≡ size_of (tree_of expr.now) }
    requires cells { cells_of (tree_of expr.now) ≤ CELLS }
    requires limit { size ≤ MAX_INSTRUCTIONS }
    requires yes_empty { yes.old.fixups ≡ [] }
    requires no_empty { no.old.fixups ≡ [] }
    requires yes_by { yes.old.by ≡ size - 2 }
    requires no_by { no.old.by ≡ size - 1 }
    ensures program { OnOk result (IsCompiledTo (tree_of expr.now) code.new) }
{
    expression(code, expr, Known::nothing(), size - 2, yes, no)?;
    code.bind(yes);
    code.push(Insn::ReturnConstant(ACCEPTED))?;
    code.bind(no);
    code.push(Insn::ReturnConstant(0))
}
