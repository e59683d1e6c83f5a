//! Jump targets, and the words of a text whose labels are known (docs/MACHINE.md, "Assembly text").

ghost use Rattle.std.specs.Prelude.{◌≡◌, ◌+◌, ◌^◌, ◌<◌, ◌≤◌, IfErr, IfOk, MatchResult, Some, length, map};
ghost use Rattle.std.specs.Option.{option_map};
ghost use Rattle.bpf_asm.specs.Target.{IsCode, IsInsnOf, IsOffset, statement_fault, statements_of, target_fault, targets_fault};
ghost use Rattle.bpf_asm.specs.body.View.{AddsWord, UnlessMemory, distance_to, line_of, place_among, statement_of, target_of};

use crate::fault::AsmFault;
use crate::label::Labels;
use crate::line::Line;
use crate::statement::{Statement, Target};
use bpf_insn::{Insn, Offsets};
use std::alloc::Allocator;

// The greatest offsets of `ja` and of a conditional jump.
const FARTHEST: usize = 0xffff_ffff;

const FARTHEST_BRANCH: usize = 0xff;

// The position of an instruction: its place among the instructions, and its line.
#[derive(Clone, Copy)]
struct Position {
    pc: usize,
    line: usize,
}

fn distance(place: Option<usize>, at: Position) -> Result<usize, AsmFault>
    ensures { result ≡ distance_to at.pc at.line place }
{
    match place {
        None => Err(AsmFault::UnknownLabel { line: at.line }),
        Some(place) => {
            if place <= at.pc {
                Err(AsmFault::BackwardJump { line: at.line })
            } else {
                Ok(place - (at.pc + 1))
            }
        }
    }
}

fn offset_of<'a, A: Allocator>(
    labels: &Labels<'a, A>,
    at: Position,
    most: usize,
    target: Target<'a>,
) -> Result<usize, AsmFault>
    ensures { MatchResult result
        (λ offset. IsOffset (place_among labels.now.places) at.pc (target_of target.entry) offset × (offset ≤ most))
        (λ fault. target_fault (place_among labels.now.places) at.pc most at.line (target_of target.entry) ≡ Some fault) }
{
    let offset = match target {
        Target::Skips(k) => k as usize,
        Target::GoesTo(name) => match distance(labels.place(name), at) {
            Ok(offset) => offset,
            Err(fault) => return Err(fault),
        },
    };
    if offset > most {
        return Err(AsmFault::TooFar { line: at.line });
    }
    Ok(offset)
}

fn insn_of<'a, A: Allocator>(
    labels: &Labels<'a, A>,
    at: Position,
    statement: Statement<'a>,
) -> Result<Insn, AsmFault>
    ensures { MatchResult result
        (IsInsnOf (place_among labels.now.places) at.pc (statement_of statement.entry))
        (λ fault. statement_fault (place_among labels.now.places) at.pc at.line (Some (statement_of statement.entry)) ≡ Some fault) }
{
    match statement {
        Statement::Plain(insn) => Ok(insn),
        Statement::Jump(target) => match offset_of(labels, at, FARTHEST, target) {
            Ok(k) => Ok(Insn::Jump(k as u32)),
            Err(fault) => Err(fault),
        },
        Statement::Branch(test, operand, on_true, on_false) => {
            let jt = match offset_of(labels, at, FARTHEST_BRANCH, on_true) {
                Ok(offset) => offset as u8,
                Err(fault) => return Err(fault),
            };
            match offset_of(labels, at, FARTHEST_BRANCH, on_false) {
                Ok(offset) => {
                    let jf = offset as u8;
                    Ok(Insn::JumpIf(test, operand, Offsets { jf, jt }))
                }
                Err(fault) => Err(fault),
            }
        }
    }
}

// Appends the word of a line's instruction to the words before it.
fn push_word<'a, A: Allocator, B: Allocator>(
    words: &mut Vec<u64, B>,
    labels: &Labels<'a, A>,
    statement: Option<Statement<'a>>,
    line: usize,
) -> Result<(), AsmFault>
    ensures { MatchResult result
        (λ _. AddsWord (place_among labels.now.places) words.old.items (option_map statement_of statement.entry) words.new.items)
        (λ fault. UnlessMemory fault (statement_fault (place_among labels.now.places) (length words.old.items) line (option_map statement_of statement.entry))) }
{
    let Some(statement) = statement else {
        return Ok(());
    };
    let at = Position {
        pc: words.len(),
        line,
    };
    match insn_of(labels, at, statement) {
        Ok(insn) => match words.push(insn.to_word()) {
            Ok(()) => Ok(()),
            Err(_) => Err(AsmFault::OutOfMemory),
        },
        Err(fault) => Err(fault),
    }
}

/// Makes the words of some lines, or reports the first fault of a target.
pub(crate) fn words_of<'a, A: Allocator, B: Allocator>(
    alloc: B,
    labels: &Labels<'a, A>,
    lines: &[Line<'a>],
) -> Result<Vec<u64, B>, AsmFault>
    ensures code { IfOk result (λ words. IsCode (place_among labels.now.places) 0 (statements_of (map line_of lines.entry.now)) words.items) }
    ensures fault { IfErr result (λ fault. UnlessMemory fault (targets_fault (place_among labels.now.places) 0 1 (map line_of lines.entry.now))) }
{
    let mut words = Vec::new(alloc);
    let mut number = 1;
    for line in lines {
        push_word(&mut words, labels, line.statement, number)?;
        number += 1;
    }
    Ok(words)
}
