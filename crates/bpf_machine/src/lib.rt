//! The machine that runs accepted programs on packets (McCanne and Jacobson 1993; networking/filter.rst;
//! docs/MACHINE.md, "The machine"). No call takes memory.
#![tactic(auto)]

ghost use Rattle.std.specs.Prelude.{◌≡◌, ◌+◌, ◌-◌, ◌<◌, ◌≤◌, ◌^◌, IfSome, IsNone, IsTrue, List, Ok, Some, length, slice_get, ℕ};
ghost use Rattle.bpf_insn.specs.Word.{instruction_of};
ghost use Rattle.bpf_verify.specs.Path.{IsAt, program_at};
ghost use Rattle.bpf_verify.specs.Accepted.{IsAccepted};
ghost use Rattle.bpf_machine.specs.Meaning.{IsSound, MeansByFirstWord, Ret, cost_of, ending_of};
ghost use Rattle.bpf_verify.specs.body.Pass.{HasCell};
ghost use Rattle.bpf_machine.specs.body.Running.{IsRunning};

mod arithmetic;
mod execute;
mod packet;

use crate::execute::{CELL_COUNT, Next, Registers, execute, step_apart};
use bpf_insn::{Insn, ReadyWords, Words};

/// The greatest number of bytes of a packet.
pub const MAX_PACKET: usize = 65_535;

/// Law: the limit, as a number. It runs nothing.
pub fn limits_as_numbers()
    ensures { MAX_PACKET ≡ 65535 }
{}

/// How a program ended.
#[derive(Clone, Copy, Debug, PartialEq, Eq)]
pub struct Outcome {
    /// The number that it ended with.
    pub value: u32,
    /// How many instructions it met, the last one included.
    pub steps: u32,
}

// The state of a run: the place of the next instruction, how many instructions the jumps have passed over, and the registers. The
// run has met the instructions before the place, except those passed over.
#[derive(Clone, Copy)]
struct Running {
    place: usize,
    passed_over: usize,
    a: u32,
    x: u32,
}

// The instruction at a place of a program, which is this word.
#[inline(always)]
fn instruction<W: Words>(words: &W, from: usize, len: usize, place: usize, word: u64) -> Insn
    requires within { from + len ≤ length (W.words words.now) }
    requires accepted { IsAccepted (program_at (W.words words.now) from len) }
    requires inside { (from ≤ place) × (place - from < len) }
    requires word { slice_get (W.words words.now) place ≡ Some word }
    ensures instruction { IsAt (program_at (W.words words.now) from len) (place - from) result }
    ensures cell { HasCell result }
    ensures decoded { instruction_of word ≡ Ok result }
{
    // Only the clauses name these.
    let (_words, _from, _len, _place) = (words, from, len, place);
    Insn::from_instruction_word(word)
}

/// Runs the program of the `len` words from place `from` on, on a packet.
///
/// The words are accepted ones (`bpf_verify::verify`), so the program never gets stuck. A load past the packet's end ends the
/// program with 0. Takes no memory.
pub fn run<W: Words>(words: &mut W, from: usize, len: usize, packet: &[u8]) -> Outcome
    requires within { from + len ≤ length (W.words words.old) }
    requires accepted { IsAccepted (program_at (W.words words.old) from len) }
    requires packet { length packet.now ≤ MAX_PACKET }
    ensures value { ending_of (program_at (W.words words.old) from len) packet.now ≡ Ret result.value }
    ensures steps { result.steps ≡ cost_of (program_at (W.words words.old) from len) packet.now }
    ensures within_length { result.steps ≤ len }
    ensures words_kept { W.words words.new ≡ W.words words.old }
    ensures rest_kept { W.rest words.new ≡ W.rest words.old }
{
    run_copy::<W, 0>(words, from, len, packet)
}

/// Runs a program as `run` does. Each number `COPY` is another copy of the machine's code.
///
/// A copy that is called at a single place is inlined there. If the caller has the words as a local, their state, such as a
/// section's row, then lies in registers while the program runs.
/// Why there are copies: docs/INTERNALS.md, "A section keeps by value where words are".
pub fn run_copy<W: Words, const COPY: usize>(
    words: &mut W,
    from: usize,
    len: usize,
    packet: &[u8],
) -> Outcome
    requires within { from + len ≤ length (W.words words.old) }
    requires accepted { IsAccepted (program_at (W.words words.old) from len) }
    requires packet { length packet.now ≤ MAX_PACKET }
    ensures value { ending_of (program_at (W.words words.old) from len) packet.now ≡ Ret result.value }
    ensures steps { result.steps ≡ cost_of (program_at (W.words words.old) from len) packet.now }
    ensures within_length { result.steps ≤ len }
    ensures words_kept { W.words words.new ≡ W.words words.old }
    ensures rest_kept { W.rest words.new ≡ W.rest words.old }
{
    // A list that can be counted is short enough for its places to be numbers of this machine.
    let _count = words.count();
    let mut cells = [0; CELL_COUNT];
    let mut state = Running {
        place: from,
        passed_over: 0,
        a: 0,
        x: 0,
    };
    'running: loop {
        let Some(ready) = words.make_ready(state.place) else {
            let word = words.word(state.place);
            let _insn = instruction(words, from, len, state.place, word);
            let step = step_apart(word, state.a, state.x, &mut cells, packet);
            state.a = step.a;
            state.x = step.x;
            state.place += 1;
            match step.next {
                Next::GoOn => continue 'running,
                Next::Skip(count) => {
                    state.place += count as usize;
                    state.passed_over += count as usize;
                    continue 'running;
                }
                Next::End(value) => {
                    let steps = (state.place - from - state.passed_over) as u32;
                    return Outcome { value, steps };
                }
            }
        };
        // If the program's last word is ready, so are all its words from here on, and none of them is tested.
        let last = from + (len - 1) + ready.shift;
        let (next, end) = if words.is_ready(last, ready.limit) {
            run_ready::<W, COPY, true>(words, from, len, packet, state, ready, &mut cells)
        } else {
            run_ready::<W, COPY, false>(words, from, len, packet, state, ready, &mut cells)
        };
        state = next;
        if let Some(value) = end {
            let steps = (state.place - from - state.passed_over) as u32;
            return Outcome { value, steps };
        }
    }
}

// Runs the instructions as long as their words are ready. Returns the state of the run, and the number that the program ended with,
// if it ended. The place is after the last instruction that was met, or that instruction's target if it jumped. If the program
// ended, A and X are those from before the call.
//
// `ALL` says that the words are ready up to the program's end, so the loop tests none. Each copy is called at one place, and is
// inlined there for that reason, like `run_copy`.
// Why there are two loops in one function, and calls that take numbers: docs/INTERNALS.md, "Programs are run by three other calls".
fn run_ready<W: Words, const COPY: usize, const ALL: bool>(
    words: &mut W,
    from: usize,
    len: usize,
    packet: &[u8],
    state: Running,
    ready: ReadyWords,
    cells: &mut [u32; CELL_COUNT],
) -> (Running, Option<u32>)
    requires within { from + len ≤ length (W.words words.old) }
    requires accepted { IsAccepted (program_at (W.words words.old) from len) }
    requires packet { length packet.now ≤ MAX_PACKET }
    requires inside { from ≤ state.place }
    requires ready { (W.ready_from words.old ≤ state.place) × (state.place < W.ready_to words.old) }
    requires shift { ready.shift ≡ W.ready_shift words.old }
    requires limit { ready.limit ≡ W.ready_shift words.old + W.ready_to words.old }
    requires room { ready.shift + length (W.words words.old) < 2 ^ 64 }
    requires all { IsTrue ALL → from + len ≤ W.ready_to words.old }
    requires running { IsRunning (program_at (W.words words.old) from len) packet.now (state.place - from) state.passed_over state.a state.x cells.old }
    ensures value { IfSome result.1 (λ value. ending_of (program_at (W.words words.old) from len) packet.now ≡ Ret value) }
    ensures steps { IfSome result.1 (λ _. result.0.place - from - result.0.passed_over ≡ cost_of (program_at (W.words words.old) from len) packet.now) }
    ensures inside { (from + result.0.passed_over ≤ result.0.place) × (result.0.place ≤ from + len) }
    ensures later { IsNone result.1 → state.place < result.0.place }
    ensures running { IsNone result.1 → IsRunning (program_at (W.words words.old) from len) packet.now (result.0.place - from) result.0.passed_over result.0.a result.0.x cells.new }
    ensures cells { length cells.new ≡ CELL_COUNT }
    ensures words_kept { W.words words.new ≡ W.words words.old }
    ensures rest_kept { W.rest words.new ≡ W.rest words.old }
{
    let Running {
        place,
        mut passed_over,
        a,
        x,
    } = state;
    let ReadyWords { shift, limit } = ready;
    let mut number = place + shift;
    let mut machine = Registers { a, x };
    'ready: while ALL || words.is_ready(number, limit) {
        let word = words.ready_word(number, shift);
        let insn = instruction(words, from, len, number - shift, word);
        number += 1;
        match execute(&mut machine, cells, insn, packet) {
            Next::GoOn => {}
            Next::Skip(count) => {
                number += count as usize;
                passed_over += count as usize;
            }
            Next::End(value) => {
                let ended = Running {
                    place: number - shift,
                    passed_over,
                    ..state
                };
                return (ended, Some(value));
            }
        }
    }
    let Registers { a, x } = machine;
    let next = Running {
        place: number - shift,
        passed_over,
        a,
        x,
    };
    (next, None)
}

/// Law: the meaning goes by cases on the first of the words that remain, and a jump drops words. It runs nothing.
pub fn meaning_by_first_word()
    ensures { (packet : List ℕ) → MeansByFirstWord packet }
{}

/// Law: an accepted program is never stuck, and meets at most as many words as it has, whatever the packet. It runs nothing.
pub fn sound()
    ensures { (program packet : List ℕ) → IsAccepted program → IsSound program packet }
{}
