//! Digits of packets. They are read in blocks, and as the kit's decoder reads them, one by one.

use control::{Reason, packet_of_hex};
use hex::FromHexError;
use std::alloc::Global;
use std::process::Abort;

// The digits of two blocks of 16 bytes, and of three bytes after them.
const DIGITS: [u8; 70] = *b"0123456789abcdefABCDEF9081726354afbecdAFBECD00ff00FFa0B1c2D3e4F5998877";

fn are_read_alike(rt: &impl Abort, alloc: Global, digits: &[u8]) -> bool {
    let packet = packet_of_hex(alloc, digits).expect(rt, "memory");
    match (packet, hex::decode(alloc, digits)) {
        (Ok(packet), Ok(expected)) => packet == expected,
        (Err(Reason::BadForm), Err(FromHexError::InvalidHexCharacter { .. })) => true,
        (Err(Reason::BadForm), Err(FromHexError::OddLength)) => true,
        _ => false,
    }
}

#[test]
fn digits_of_each_number(rt: HostRuntime) {
    for len in 0..=DIGITS.len() {
        assert!(rt; are_read_alike(&rt, rt.alloc(), &DIGITS[..len]));
    }
}

// High and low digits in each block, at its ends, and after the blocks.
#[test]
fn each_byte_in_blocks(rt: HostRuntime) {
    for place in &[0usize, 17, 31, 32, 63, 64, 69] {
        for byte in 0..=255 {
            let mut digits = DIGITS;
            if let Some(digit) = digits.get_mut(*place) {
                *digit = byte;
            }
            assert!(rt; are_read_alike(&rt, rt.alloc(), &digits));
        }
    }
}
