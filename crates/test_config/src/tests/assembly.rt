//! Assembling and printing if memory is refused.

use super::heaps::steps_in_heaps;
use bpf_asm::{AsmFault, assemble, print};
use bpf_verify::Program;
use linked_list_allocator::LocalHeap;
use std::alloc::{Allocator, Global};
use std::process::Abort;

// How far memory lasts: 0 if it does not suffice for the words, 1 if it does not for the program's text. None if
// another fault is returned, or a result is wrong.
type Lasted = Option<usize>;

fn printed_within(heap: &LocalHeap, program: &Program<&LocalHeap>) -> Lasted {
    match print(heap, program) {
        Ok(printed) if printed.len() > 60 => Some(2),
        Ok(_) => None,
        Err(_) => Some(1),
    }
}

fn accepted_within(heap: &LocalHeap, words: Vec<u64, &LocalHeap>) -> Lasted {
    match Program::new(words) {
        Ok(program) => printed_within(heap, &program),
        Err(_) => None,
    }
}

// Assembles a text with labels in a heap's memory, and prints its program there.
fn assembled_within(heap: &LocalHeap, text: &[u8], first: u64) -> Lasted {
    match assemble(heap, text) {
        Ok(words) if words.first() == Some(&first) => accepted_within(heap, words),
        Ok(_) => None,
        Err(fault) => match fault {
            AsmFault::OutOfMemory => Some(0),
            _ => None,
        },
    }
}

const TEXT: &[u8] =
    b"a: ja c; b: neg; c: jeq #1,d,e; d: neg; e: neg; f: jeq x,g,g; g: neg; h: neg; ret #65535; i: ret a";

fn steps_within<R: Abort>(_rt: &R, _alloc: Global, heap: &LocalHeap) -> Lasted {
    assembled_within(heap, TEXT, 0x0005_0000_0000_0001)
}

#[test]
fn assembly_under_each_refused_growth(rt: HostRuntime) {
    assert!(rt; steps_in_heaps(&rt, rt.alloc(), 300, steps_within) == 2);
}

fn is_refused<A: Allocator + Clone>(alloc: A, text: &[u8], expected: AsmFault) -> bool {
    match assemble(alloc, text) {
        Ok(_) => false,
        Err(fault) => fault == expected,
    }
}

fn are_told(heap: &LocalHeap) -> bool {
    // Another fault is still returned if its cause is found before memory is refused.
    is_refused(heap, b"neg; a: foo", AsmFault::Syntax { line: 2 })
        && is_refused(heap, b"ja x", AsmFault::UnknownLabel { line: 1 })
        && is_refused(heap, b"a: neg", AsmFault::OutOfMemory)
}

#[test]
fn faults_without_memory(rt: HostRuntime) {
    // Room for the lines of these texts, and not for a label.
    let heap = LocalHeap::new(rt.alloc(), 512).expect(&rt, "a heap");
    assert!(rt; are_told(&heap));
}
