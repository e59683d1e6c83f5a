//! The verifier: which lists of words are classic BPF programs (networking/filter.rst, "BPF engine and instruction set";
//! docs/MACHINE.md, "Verifier"). A law of bpf_machine, `sound`, says that such a program never gets stuck.
//!
//! `verify` tests words in place; a `Program` keeps words that passed. Only a `Program` owns memory, and only its `clone_in`
//! takes any.
#![tactic(auto)]

ghost use Rattle.std.specs.Prelude.{◌≡◌, ◌+◌, ◌<◌, ◌≤◌, ◌^◌, ◌↔◌, IfErr, IfOk, IsOk, None, OnOk, Some, length, slice_get};
ghost use Rattle.bpf_insn.specs.Word.{instruction_of};
ghost use Rattle.bpf_verify.specs.Path.{program_at};
ghost use Rattle.bpf_verify.specs.Accepted.{IsAccepted, targets_fault, word_fault};
ghost use Rattle.bpf_verify.specs.Fault.{IsFirstFault};
ghost use Rattle.bpf_verify.specs.body.Pass.{IsChecked, IsFaultAt, joined_at};
ghost use Rattle.bpf_verify.specs.body.Plain.{targets};

mod cells;
mod fault;
mod jumps;
mod operands;
mod plain;
mod program;

use bpf_insn::{Offsets, Words};
pub use fault::Fault;
pub use program::{OutOfMemory, Program};

/// The greatest number of instructions of a program (`BPF_MAXINSNS`).
pub const MAX_INSTRUCTIONS: usize = 4096;

/// The number of cells of scratch memory (`BPF_MEMWORDS`).
pub const CELLS: u32 = 16;

/// The least `k` that an absolute load may not have: from here on the kernel reads it as a negative offset, of ancillary
/// data or of a place relative to the link or network header.
pub const ANCILLARY_FROM: u32 = 1 << 31;

/// Law: the limits, as numbers. It runs nothing.
pub fn limits_as_numbers()
    ensures instructions { MAX_INSTRUCTIONS ≡ 4096 }
    ensures cells { CELLS ≡ 16 }
    ensures ancillary { ANCILLARY_FROM ≡ 2147483648 }
{}

// Sets of cells for a long program take longer to make than a short program takes to check, so there are three sizes.
const SHORT: usize = 64;

const SHORT_SETS: usize = SHORT + 1;

const MIDDLE: usize = 512;

const MIDDLE_SETS: usize = MIDDLE + 1;

const MAX_SETS: usize = MAX_INSTRUCTIONS + 1;

// The set of a place that no path has come to yet.
const ALL_CELLS: u16 = u16::MAX;

#[inline(always)]
fn word_at<W: Words>(words: &mut W, from: usize, len: usize, pc: usize) -> u64
    requires within { from + len ≤ length (W.words words.old) }
    requires fits { from + len < 2 ^ 64 }
    requires inside { pc < len }
    ensures value { slice_get (program_at (W.words words.old) from len) pc ≡ Some result }
    ensures words_kept { W.words words.new ≡ W.words words.old }
    ensures rest_kept { W.rest words.new ≡ W.rest words.old }
{
    words.word(from + pc)
}

// Checks any word, and joins the set after the word at its successors. Returns the first load of a cell that is not stored, and
// whether the word is a return. Few words come here, so no loop has a copy of this code.
#[inline(never)]
fn check_any(
    stored: &mut [u16],
    word: u64,
    before: u16,
    pc: usize,
    len: usize,
    unstored: Option<usize>,
) -> Result<(Option<usize>, bool), Fault>
    requires not_too_long { len ≤ MAX_INSTRUCTIONS }
    requires inside { pc < len }
    requires a_set_more { len < length stored.old }
    ensures checked { IfOk result (λ next. IsChecked len pc word before unstored stored.old stored.new next.0 next.1) }
    ensures fault { IfErr result (λ fault. word_fault len pc (instruction_of word) ≡ Some fault) }
    ensures fault_place { IfErr result (IsFaultAt pc) }
{
    let insn = operands::check_word(word, pc, len)?;
    let noted = cells::first_unstored(unstored, insn, before, pc);
    cells::join_successors(stored, insn, before, pc);
    Ok((noted, operands::is_return(insn)))
}

// Checks the targets of a conditional jump, and joins the set before it there.
#[inline(always)]
fn check_branch(
    stored: &mut [u16],
    offsets: Offsets,
    before: u16,
    pc: usize,
    len: usize,
) -> Result<(), Fault>
    requires not_too_long { len ≤ MAX_INSTRUCTIONS }
    requires inside { pc < len }
    requires a_set_more { len < length stored.old }
    ensures faultless { IsOk result → (targets_fault len pc (targets pc offsets) ≡ None) }
    ensures fault { IfErr result (λ fault. targets_fault len pc (targets pc offsets) ≡ Some fault) }
    ensures fault_place { IfErr result (IsFaultAt pc) }
    ensures joins { IsOk result → (stored.new ≡ joined_at before stored.old (targets pc offsets)) }
{
    if let Some(fault) = jumps::check_targets(pc, offsets, len) {
        return Err(fault);
    }
    cells::join_targets(stored, offsets, before, pc);
    Ok(())
}

// `N` is greater than the length: a set more, for the place after the last one.
// Why the faults are reported after the pass, and the sets have three sizes: docs/INTERNALS.md, "The verifier reads each word once".
fn check_places<W: Words, const N: usize>(
    words: &mut W,
    from: usize,
    len: usize,
) -> Result<(), Fault>
    requires within { from + len ≤ length (W.words words.old) }
    requires fits { from + len < 2 ^ 64 }
    requires not_empty { 0 < len }
    requires not_too_long { len ≤ MAX_INSTRUCTIONS }
    requires a_set_more { len < N }
    requires sets_limited { N ≤ MAX_INSTRUCTIONS + 1 }
    ensures accepted { OnOk result (IsAccepted (program_at (W.words words.old) from len)) }
    ensures first_fault { IfErr result (IsFirstFault (program_at (W.words words.old) from len)) }
    ensures words_kept { W.words words.new ≡ W.words words.old }
    ensures rest_kept { W.rest words.new ≡ W.rest words.old }
{
    let mut stored = [ALL_CELLS; N];
    // The set that the place before passes on: no cell for the first place, and all cells if nothing is passed on.
    let mut carried = 0;
    let mut unstored = None;
    let mut returns = false;
    for pc in 0..len {
        let word = word_at(words, from, len, pc);
        let before = stored[pc] & carried;
        if let Some(after) = plain::after_plain(word, before) {
            carried = after;
            returns = false;
        } else {
            carried = ALL_CELLS;
            if let Some(offsets) = jumps::branch_of(word) {
                check_branch(&mut stored, offsets, before, pc, len)?;
                returns = false;
            } else if operands::returns_constant(word) {
                returns = true;
            } else {
                let checked = check_any(&mut stored, word, before, pc, len, unstored)?;
                unstored = checked.0;
                returns = checked.1;
            }
        }
    }
    if !returns {
        return Err(Fault::NoReturn);
    }
    match unstored {
        Some(pc) => Err(Fault::UnstoredCell { pc }),
        None => Ok(()),
    }
}

fn check_program<W: Words>(words: &mut W, from: usize, len: usize) -> Result<(), Fault>
    requires within { from + len ≤ length (W.words words.old) }
    requires fits { from + len < 2 ^ 64 }
    ensures accepted { OnOk result (IsAccepted (program_at (W.words words.old) from len)) }
    ensures first_fault { IfErr result (IsFirstFault (program_at (W.words words.old) from len)) }
    ensures words_kept { W.words words.new ≡ W.words words.old }
    ensures rest_kept { W.rest words.new ≡ W.rest words.old }
{
    if len == 0 {
        return Err(Fault::Empty);
    }
    if len > MAX_INSTRUCTIONS {
        return Err(Fault::TooLong);
    }
    if len <= SHORT {
        check_places::<W, SHORT_SETS>(words, from, len)
    } else if len <= MIDDLE {
        check_places::<W, MIDDLE_SETS>(words, from, len)
    } else {
        check_places::<W, MAX_SETS>(words, from, len)
    }
}

/// Tests whether the `len` words from place `from` on are a program: the checks of the kernel's classic BPF checker
/// (networking/filter.rst), with exact jump targets, and the additions of docs/DECISIONS.md, "The verifier refuses more". The checks
/// require more than that no run gets stuck: code that no run reaches is tested too.
///
/// `from` and `len` count words, a fault's `pc` counts instructions from `from`. `Err` is the fault of the length, else
/// of the first instruction at fault, else `NoReturn`, else the first `UnstoredCell`. Takes no memory.
pub fn verify<W: Words>(words: &mut W, from: usize, len: usize) -> Result<(), Fault>
    requires { from + len ≤ length (W.words words.old) }
    ensures accepts_exactly { IsOk result ↔ IsAccepted (program_at (W.words words.old) from len) }
    ensures first_fault { IfErr result (IsFirstFault (program_at (W.words words.old) from len)) }
    ensures words_kept { W.words words.new ≡ W.words words.old }
    ensures rest_kept { W.rest words.new ≡ W.rest words.old }
{
    // A list that can be counted is short enough for its places to be numbers of this machine.
    let _count = words.count();
    check_program(words, from, len)
}
