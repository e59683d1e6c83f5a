//! A list with `count` and `word` alone, which the verifier and the machine read as they do a slice.

use bpf_insn::Words;
use bpf_machine::{Outcome, run};
use bpf_verify::{Fault, verify};

// The words of a slice, and the number of reads of them.
#[derive(Drop)]
struct CountedWords<'a> {
    list: &'a [u64],
    reads: usize,
}

impl<'a> Words for CountedWords<'a> {
    ghost words = { λ counted. counted.list.now };

    ghost rest = { λ _. tt };

    fn count(&self) -> usize {
        self.list.len()
    }

    fn word(&mut self, i: usize) -> u64 {
        self.reads = self.reads.wrapping_add(1);
        self.list[i]
    }
}

// Byte 9, the protocol, is that of UDP.
const PACKET: &[u8] = &[0, 0, 0, 0, 0, 0, 0, 0, 0, 17];

// The result of a program on the packet: its value, its steps, and the number of words that were read meanwhile.
fn ending(list: &[u64]) -> Result<(u32, u32, usize), Fault> {
    let mut words = CountedWords { list, reads: 0 };
    let count = words.count();
    verify(&mut words, 0, count)?;
    let before = words.reads;
    let Outcome { value, steps } = run(&mut words, 0, count, PACKET);
    Ok((value, steps, words.reads.wrapping_sub(before)))
}

static LISTS: [(&[u64], Result<(u32, u32, usize), Fault>); 5] = [
    // ldb [9]; jeq #17,0,1; ret #65535; ret #0
    (
        &[
            0x0030_0000_0000_0009,
            0x0015_0001_0000_0011,
            0x0006_0000_0000_ffff,
            0x0006_0000_0000_0000,
        ],
        Ok((65_535, 3, 3)),
    ),
    // ja +1; ret #1; ret #2
    (
        &[
            0x0005_0000_0000_0001,
            0x0006_0000_0000_0001,
            0x0006_0000_0000_0002,
        ],
        Ok((2, 2, 2)),
    ),
    // ldb [10]; ret #1. The packet has no byte 10.
    (
        &[0x0030_0000_0000_000a, 0x0006_0000_0000_0001],
        Ok((0, 1, 1)),
    ),
    // ld #1
    (&[0x0000_0000_0000_0001], Err(Fault::NoReturn)),
    (&[], Err(Fault::Empty)),
];

#[test]
fn list_with_count_and_word_alone(rt: HostRuntime) {
    for (list, expected) in &LISTS {
        assert!(rt; ending(list) == *expected);
    }
}
