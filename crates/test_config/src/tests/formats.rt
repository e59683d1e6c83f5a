//! Programs in numbers: the words of texts, and what tcpdump prints, read and printed in heaps of every size.

use super::assert_numbered;
use super::heaps::steps_in_heaps;
use bpf_formats::{FormatFault, print_dd, print_ddd, print_hex, read_ddd, read_hex};
use bpf_verify::Program;
use linked_list_allocator::LocalHeap;
use std::alloc::Global;
use std::process::Abort;

// tcpdump 4.99.3, `tcpdump -y RAW -ddd ip`, and the same with `-dd`.
const IP_DDD: &str = "5\n48 0 0 0\n84 0 0 240\n21 0 1 64\n6 0 0 262144\n6 0 0 0\n";

const IP_DD: &str = "\
{ 0x30, 0, 0, 0x00000000 },
{ 0x54, 0, 0, 0x000000f0 },
{ 0x15, 0, 1, 0x00000040 },
{ 0x6, 0, 0, 0x00040000 },
{ 0x6, 0, 0, 0x00000000 },
";

const IP_HEX: &str = "\
0030000000000000
00540000000000f0
0015000100000040
0006000000040000
0006000000000000
";

static IP: [u64; 5] = [
    0x0030_0000_0000_0000,
    0x0054_0000_0000_00f0,
    0x0015_0001_0000_0040,
    0x0006_0000_0004_0000,
    0x0006_0000_0000_0000,
];

const RET_A: u64 = 0x0016_0000_0000_0000;

// Whatever the fields are, and however often a line or a comma ends.
static DDD: [(&[u8], &[u64]); 8] = [
    (b"0", &[]),
    (b"0\n\n", &[]),
    (b"1\n22 0 0 0", &[RET_A]),
    (b"1,22 0 0 0", &[RET_A]),
    (b"1,22 0 0 0,\n", &[RET_A]),
    (b"2\n\n22 0 0 0,,22 0 0 0\n", &[RET_A, RET_A]),
    (b"1\n65535 255 254 4294967295\n", &[0xffff_fffe_ffff_ffff]),
    // An instruction's code alone makes no word: `Program::new` refuses it.
    (b"1\n0 1 2 3\n", &[0x0000_0102_0000_0003]),
];

static HEX: [(&[u8], &[u64]); 5] = [
    (b"", &[]),
    (b"\n,\n", &[]),
    (b"0016000000000000", &[RET_A]),
    (b"0016000000000000,\n\n0016000000000000\n", &[RET_A, RET_A]),
    (b"FFFFfffeFFFFffff", &[0xffff_fffe_ffff_ffff]),
];

// Whether the text is these words.
fn is_ddd(alloc: Global, text: &[u8], words: &[u64]) -> bool {
    match read_ddd(alloc, text) {
        Ok(read) => read.as_slice() == words,
        Err(_) => false,
    }
}

fn is_hex(alloc: Global, text: &[u8], words: &[u64]) -> bool {
    match read_hex(alloc, text) {
        Ok(read) => read.as_slice() == words,
        Err(_) => false,
    }
}

#[test]
fn texts_and_their_words(rt: HostRuntime) {
    for (row, (text, words)) in DDD.iter().enumerate() {
        assert_numbered(&rt, is_ddd(rt.alloc(), text, words), row as u64);
    }
    for (row, (text, words)) in HEX.iter().enumerate() {
        assert_numbered(&rt, is_hex(rt.alloc(), text, words), row as u64);
    }
}

// How far memory lasts. None if another fault is returned, or a result is wrong.
type Lasted = Option<usize>;

fn read_again(heap: &LocalHeap, program: &Program<&LocalHeap>) -> Lasted {
    match read_hex(heap, IP_HEX.as_bytes()) {
        Ok(words) if words.as_slice() == program.words() => Some(5),
        Err(FormatFault::OutOfMemory) => Some(4),
        _ => None,
    }
}

// Each text is kept while the next one is printed.
fn in_hex_within(heap: &LocalHeap, program: &Program<&LocalHeap>) -> Lasted {
    match print_hex(heap, program) {
        Ok(printed) if printed.as_str() == IP_HEX => read_again(heap, program),
        Ok(_) => None,
        Err(_) => Some(3),
    }
}

fn in_c_within(heap: &LocalHeap, program: &Program<&LocalHeap>) -> Lasted {
    match print_dd(heap, program) {
        Ok(printed) if printed.as_str() == IP_DD => in_hex_within(heap, program),
        Ok(_) => None,
        Err(_) => Some(2),
    }
}

fn in_decimal_within(heap: &LocalHeap, program: &Program<&LocalHeap>) -> Lasted {
    match print_ddd(heap, program) {
        Ok(printed) if printed.as_str() == IP_DDD => in_c_within(heap, program),
        Ok(_) => None,
        Err(_) => Some(1),
    }
}

fn checked_within(heap: &LocalHeap, program: &Program<&LocalHeap>) -> Lasted {
    if program.words() == IP.as_slice() {
        in_decimal_within(heap, program)
    } else {
        None
    }
}

fn accepted_within(heap: &LocalHeap, words: Vec<u64, &LocalHeap>) -> Lasted {
    match Program::new(words) {
        Ok(program) => checked_within(heap, &program),
        Err(_) => None,
    }
}

// Reads a program in a heap's memory, and prints it there in each format.
fn formatted_within<R: Abort>(_rt: &R, _alloc: Global, heap: &LocalHeap) -> Lasted {
    match read_ddd(heap, IP_DDD.as_bytes()) {
        Ok(words) => accepted_within(heap, words),
        Err(FormatFault::OutOfMemory) => Some(0),
        Err(_) => None,
    }
}

#[test]
fn formats_under_each_refused_growth(rt: HostRuntime) {
    assert!(rt; steps_in_heaps(&rt, rt.alloc(), 120, formatted_within) == 5);
}
