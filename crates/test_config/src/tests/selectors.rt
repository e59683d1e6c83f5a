//! Selectors that spread by weight, with ample memory: the table, the results of its program, and reading the table
//! back.

use bpf_machine::{MAX_PACKET, run};
use bpf_verify::Program;
use selector_buckets::{
    Buckets, HashBy, Share, can_drain, can_share, depth_of, drained, selector, spread,
    table_of_program,
};
use std::alloc::Global;
use std::process::Abort;

static SHARES: [Share; 3] = [
    Share { id: 1, weight: 5 },
    Share { id: 2, weight: 3 },
    Share { id: 3, weight: 2 },
];

// Computed by a separate script.
static MEMBERS: [u8; 16] = [0, 0, 2, 0, 2, 0, 2, 0, 0, 1, 1, 1, 0, 1, 1, 0];

// After the second of the three has left, by examples/spread/table.py.
static DRAINED: [u8; 16] = [0, 0, 1, 0, 1, 0, 1, 0, 0, 1, 1, 1, 0, 1, 1, 0];

// A datagram without data from 10.0.0.1:53000 to 10.0.0.2:53.
static PACKET: [u8; 28] = [
    69, 0, 0, 28, 0, 0, 0, 0, 64, 17, 0, 0, 10, 0, 0, 1, 10, 0, 0, 2, 207, 8, 0, 53, 0, 8, 0, 0,
];

fn returns(program: &Program<Global>, packet: &[u8], value: u32) -> bool {
    if packet.len() > MAX_PACKET {
        return false;
    }
    let mut words = program.words();
    let count = words.len();
    run(&mut words, 0, count, packet).value == value
}

fn reads_back(rt: &impl Abort, alloc: Global, program: &Program<Global>) {
    let read = table_of_program(alloc, program.words()).expect(rt, "memory");
    let (by, buckets) = read.expect(rt, "the program is a selector");
    assert!(rt; by == HashBy::Both && buckets.members() == MEMBERS.as_slice());
}

// The table of 16 buckets that the three share.
fn shared(rt: &impl Abort, alloc: Global) -> Buckets {
    let shares = SHARES.as_slice();
    let depth = depth_of(16).expect(rt, "16 buckets have a depth");
    if !can_share(shares) {
        panic!(rt; "three members can share a table");
    }
    spread(alloc, shares, depth).expect(rt, "memory")
}

#[test]
fn spreads_by_weight(rt: HostRuntime) {
    let buckets = shared(&rt, rt.alloc());
    assert!(rt; buckets.members() == MEMBERS.as_slice());
    let program = selector(rt.alloc(), HashBy::Both, &buckets).expect(&rt, "memory");
    assert!(rt; returns(&program, PACKET.as_slice(), 2));
    reads_back(&rt, rt.alloc(), &program);
}

#[test]
fn drains_a_member(rt: HostRuntime) {
    let buckets = shared(&rt, rt.alloc());
    assert!(rt; !can_drain(&buckets, 1, 2));
    if !can_drain(&buckets, 1, 3) {
        panic!(rt; "two members can take the buckets of the third");
    }
    let rest = drained(rt.alloc(), &buckets, 1, 3).expect(&rt, "memory");
    assert!(rt; rest.members() == DRAINED.as_slice());
}
