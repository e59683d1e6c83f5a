//! Which scratch cells are stored on every path. A set of cells has bit `k` for cell `k`.

ghost use Rattle.std.specs.Prelude.{◌≡◌, ◌∷◌, ◌+◌, ◌^◌, ◌<◌, ◌↔◌, [], IsTrue, bit_or, length};
ghost use Rattle.std.specs.Int.{bit_at};
ghost use Rattle.std.specs.List.{AllByRecursion};
ghost use Rattle.bpf_verify.specs.Path.{successors};
ghost use Rattle.bpf_verify.specs.body.Pass.{FindsCell, HasCell, NotesLoad, cells_after, joined, joined_at};

use crate::CELLS;
use bpf_insn::{Insn, Offsets};

#[inline(always)]
fn contains(cells: u16, k: u32) -> bool
    requires { k < CELLS }
    ensures { IsTrue result ↔ (bit_at cells k ≡ 1) }
{
    (cells >> k) & 1 == 1
}

#[inline(always)]
fn with(cells: u16, k: u32) -> u16
    requires { k < CELLS }
    ensures { result ≡ bit_or cells (2 ^ k) }
{
    cells | (1 << k)
}

#[inline(always)]
fn finds_cell(insn: Insn, before: u16) -> bool
    requires { HasCell insn }
    ensures { IsTrue result ↔ FindsCell insn before }
{
    match insn {
        Insn::LoadCell(k) => contains(before, k),
        Insn::LoadXCell(k) => contains(before, k),
        _ => true,
    }
}

#[inline(always)]
pub fn first_unstored(unstored: Option<usize>, insn: Insn, before: u16, pc: usize) -> Option<usize>
    requires { HasCell insn }
    ensures { NotesLoad unstored insn before pc result }
{
    match unstored {
        Some(place) => Some(place),
        None => {
            if finds_cell(insn, before) {
                None
            } else {
                Some(pc)
            }
        }
    }
}

#[inline(always)]
fn join(stored: &mut [u16], to: usize, after: u16)
    requires { to < length stored.old }
    ensures { stored.new ≡ joined after stored.old to }
{
    stored[to] &= after;
}

#[inline(always)]
pub fn join_targets(stored: &mut [u16], offsets: Offsets, after: u16, pc: usize)
    requires { (pc + 1 + offsets.jt < length stored.old) × (pc + 1 + offsets.jf < length stored.old) }
    ensures { stored.new ≡ joined_at after stored.old ((pc + 1 + offsets.jt) ∷ (pc + 1 + offsets.jf) ∷ []) }
{
    join(stored, pc + 1 + offsets.jt as usize, after);
    join(stored, pc + 1 + offsets.jf as usize, after);
}

#[inline(always)]
pub fn join_successors(stored: &mut [u16], insn: Insn, before: u16, pc: usize)
    requires cell { HasCell insn }
    requires inside { AllByRecursion (λ to. to < length stored.old) (successors insn pc) }
    ensures { stored.new ≡ joined_at (cells_after insn before) stored.old (successors insn pc) }
{
    match insn {
        Insn::ReturnConstant(_) => {}
        Insn::ReturnA => {}
        Insn::Jump(k) => join(stored, pc + 1 + k as usize, before),
        Insn::JumpIf(_, _, offsets) => join_targets(stored, offsets, before, pc),
        Insn::Store(k) => join(stored, pc + 1, with(before, k)),
        Insn::StoreX(k) => join(stored, pc + 1, with(before, k)),
        _ => join(stored, pc + 1, before),
    }
}
