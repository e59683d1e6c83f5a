//! The verifier on a part of a list, and programs that are refused, cloned and charged.

use bpf_verify::{Fault, MAX_INSTRUCTIONS, Program, verify};
use linked_list_allocator::LocalHeap;
use std::alloc::{Allocator, Global};
use std::process::Abort;

const RETURN: u64 = 0x0006_0000_0000_0000;

#[test]
fn inside_a_longer_list(rt: HostRuntime) {
    let mut words: &[u64] = &[
        0x0008_0000_0000_0000,
        0x0030_0000_0000_0009,
        RETURN,
        0x0008_0000_0000_0000,
    ];
    assert!(rt; verify(&mut words, 1, 2) == Ok(()));
    assert!(rt; verify(&mut words, 1, 3) == Err(Fault::BadOpcode { pc: 2 }));
    assert!(rt; verify(&mut words, 4, 0) == Err(Fault::Empty));
}

fn returns(rt: &impl Abort, alloc: Global, count: usize) -> Vec<u64> {
    vec![in alloc; RETURN; count].expect(rt, "memory")
}

// The charge and the length of the words' program, or their fault and their number.
fn measured(words: Vec<u64>) -> Result<(u32, usize), (Fault, usize)> {
    match Program::new(words) {
        Ok(program) => Ok((program.charge(), program.words().len())),
        Err((fault, words)) => Err((fault, words.len())),
    }
}

// The words of too long a program come back, which no command shows.
#[test]
fn longest_program(rt: HostRuntime) {
    let longest = measured(returns(&rt, rt.alloc(), MAX_INSTRUCTIONS));
    assert!(rt; longest == Ok((4096, 4096)));
    let one_more = measured(returns(&rt, rt.alloc(), MAX_INSTRUCTIONS + 1));
    assert!(rt; one_more == Err((Fault::TooLong, 4097)));
}

// The longest program that a charge of 100 covers with one to spare.
fn charged(rt: &impl Abort, alloc: Global) -> Program<Global> {
    let plain = Program::new(returns(rt, alloc, 99))
        .ok()
        .expect(rt, "99 returns are accepted");
    let words = Vec::from_slice(alloc, plain.words()).expect(rt, "memory");
    if words.len() > 100 {
        panic!(rt; "99 words stay 99 words");
    }
    Program::charged(words, 100)
}

// Whether a clone has the charge of 100 and the program's words.
fn is_clone<A: Allocator>(clone: &Program<A>, program: &Program<Global>) -> bool {
    clone.charge() == 100 && clone.words() == program.words()
}

#[test]
fn clone_keeps_words_and_charge(rt: HostRuntime) {
    let program = charged(&rt, rt.alloc());
    assert!(rt; program.charge() == 100);
    let clone = program.clone_in(rt.alloc()).expect(&rt, "memory");
    assert!(rt; is_clone(&clone, &program));
}

// A clone in a heap of this many bytes is one, or has no room there.
fn clones_in(
    rt: &impl Abort,
    alloc: Global,
    program: &Program<Global>,
    size: usize,
    is_one: Option<bool>,
) {
    let heap = LocalHeap::new(alloc, size).expect(rt, "memory");
    let made = match program.clone_in(&heap) {
        Ok(clone) => Some(is_clone(&clone, program)),
        Err(_) => None,
    };
    assert!(rt; made == is_one, "a heap of {size} bytes");
}

#[test]
fn clone_under_each_refused_growth(rt: HostRuntime) {
    let program = charged(&rt, rt.alloc());
    // A clone takes memory once, 792 bytes of it.
    clones_in(&rt, rt.alloc(), &program, 64, None);
    clones_in(&rt, rt.alloc(), &program, 784, None);
    clones_in(&rt, rt.alloc(), &program, 1024, Some(true));
    assert!(rt; program.charge() == 100);
}
