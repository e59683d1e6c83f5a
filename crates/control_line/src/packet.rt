//! Packets as hexadecimal digits (docs/COMMANDS.md, "run").

ghost use Rattle.std.specs.Prelude.{◌≡◌, ◌+◌, ◌*◌, ◌/◌, ◌≤◌, IfOk, IsFalse, IsTrue, MatchResult, Ok, length, map};
ghost use Rattle.std.specs.List.{AllPass};
ghost use Rattle.hex.specs.Hex.{decode_of, is_hex_digit};
ghost use Rattle.control_line.specs.Packet.{IsRefusalOfHex, SpellsPacket, digit_worth};
ghost use Rattle.control_line.specs.body.Pairs.{ArePairs};

use crate::OutOfMemory;
use crate::reason::Reason;
use bpf_machine::MAX_PACKET;
use std::alloc::Global;
use std::simd::prelude::*;

// The worth of a byte that is no digit.
const NO_DIGIT: u8 = 16;

// The worth of each byte as a digit, of either case.
static DIGITS: [u8; 256] = [
    16, 16, 16, 16, 16, 16, 16, 16, 16, 16, 16, 16, 16, 16, 16, 16, 16, 16, 16, 16, 16, 16, 16, 16,
    16, 16, 16, 16, 16, 16, 16, 16, 16, 16, 16, 16, 16, 16, 16, 16, 16, 16, 16, 16, 16, 16, 16, 16,
    0, 1, 2, 3, 4, 5, 6, 7, 8, 9, 16, 16, 16, 16, 16, 16, 16, 10, 11, 12, 13, 14, 15, 16, 16, 16,
    16, 16, 16, 16, 16, 16, 16, 16, 16, 16, 16, 16, 16, 16, 16, 16, 16, 16, 16, 16, 16, 16, 16, 10,
    11, 12, 13, 14, 15, 16, 16, 16, 16, 16, 16, 16, 16, 16, 16, 16, 16, 16, 16, 16, 16, 16, 16, 16,
    16, 16, 16, 16, 16, 16, 16, 16, 16, 16, 16, 16, 16, 16, 16, 16, 16, 16, 16, 16, 16, 16, 16, 16,
    16, 16, 16, 16, 16, 16, 16, 16, 16, 16, 16, 16, 16, 16, 16, 16, 16, 16, 16, 16, 16, 16, 16, 16,
    16, 16, 16, 16, 16, 16, 16, 16, 16, 16, 16, 16, 16, 16, 16, 16, 16, 16, 16, 16, 16, 16, 16, 16,
    16, 16, 16, 16, 16, 16, 16, 16, 16, 16, 16, 16, 16, 16, 16, 16, 16, 16, 16, 16, 16, 16, 16, 16,
    16, 16, 16, 16, 16, 16, 16, 16, 16, 16, 16, 16, 16, 16, 16, 16, 16, 16, 16, 16, 16, 16, 16, 16,
    16, 16, 16, 16, 16, 16, 16, 16, 16, 16, 16, 16, 16, 16,
];

fn worth_of(byte: u8) -> u8
    ensures { result ≡ digit_worth byte }
{
    DIGITS[byte as usize]
}

/// Tests whether a byte is a digit, of either case.
pub(crate) fn is_digit(byte: u8) -> bool
    ensures { result ≡ is_hex_digit byte }
{
    worth_of(byte) < NO_DIGIT
}

// How many bytes of a packet are made at once, each of two digits: the lanes of a vector.
const BLOCK: usize = 16;

// The worth of each of these bytes as a digit.
#[inline(always)]
fn worths_of(bytes: u8x16) -> u8x16
    ensures { result ≡ map digit_worth bytes }
{
    let number = bytes - u8x16::splat(b'0');
    // The bit 32 turns a capital letter into a small one, and no other byte into a letter from a to f.
    let letter = (bytes | u8x16::splat(32)) - u8x16::splat(b'a');
    let other = letter
        .simd_lt(u8x16::splat(6))
        .select(letter + u8x16::splat(10), u8x16::splat(NO_DIGIT));
    number.simd_lt(u8x16::splat(10)).select(number, other)
}

// Writes a block of bytes, from this place on, and returns whether all of their digits were good.
// The reason: docs/INTERNALS.md, "Hexadecimal digits in blocks".
#[inline(always)]
fn read_block(digits: &[u8], packet: &mut [u8], at: usize) -> bool
    requires pairs { length digits.now ≡ 2 * length packet.old }
    requires inside { at + BLOCK ≤ length packet.old }
    ensures len { length packet.new ≡ length packet.old }
    ensures pairs { IsTrue result → ArePairs digits.now packet.old at → ArePairs digits.now packet.new (at + BLOCK) }
    ensures bad_digit { IsFalse result → AllPass is_hex_digit digits.now → ⊥ }
{
    let first = u8x16::from_slice(&digits[2 * at..]);
    let second = u8x16::from_slice(&digits[2 * at + BLOCK..]);
    let (high, low) = first.deinterleave(second);
    let (high, low) = (worths_of(high), worths_of(low));
    (high * u8x16::splat(16) + low).copy_to_slice(&mut packet[at..]);
    (high | low).simd_ge(u8x16::splat(NO_DIGIT)).to_bitmask() == 0
}

// Writes the bytes that make whole blocks. It ends at the first block with a bad digit.
fn read_blocks(digits: &[u8], packet: &mut [u8]) -> bool
    requires { length digits.now ≡ 2 * length packet.old }
    ensures len { length packet.new ≡ length packet.old }
    ensures pairs { IsTrue result → ArePairs digits.now packet.new (length packet.old / BLOCK * BLOCK) }
    ensures bad_digit { IsFalse result → AllPass is_hex_digit digits.now → ⊥ }
{
    for block in 0..packet.len() / BLOCK {
        if !read_block(digits, packet, block * BLOCK) {
            return false;
        }
    }
    true
}

// Writes the bytes from this place on, one by one. There is no branch at a digit: the bits of the digits' worths are collected, and
// tested once, after the last digit.
fn read_rest(digits: &[u8], packet: &mut [u8], from: usize) -> bool
    requires pairs { length digits.now ≡ 2 * length packet.old }
    requires read { ArePairs digits.now packet.old from }
    ensures packet { IsTrue result → decode_of digits.now ≡ Ok packet.new }
    ensures bad_digit { IsFalse result → AllPass is_hex_digit digits.now → ⊥ }
{
    let mut bits = 0;
    for i in from..packet.len() {
        let high = worth_of(digits[2 * i]);
        let low = worth_of(digits[2 * i + 1]);
        packet[i] = high.wrapping_mul(16).wrapping_add(low);
        bits |= high | low;
    }
    bits < NO_DIGIT
}

// Writes the bytes after the whole blocks. If there are enough bytes, reads the last ones as a block whose front was written before.
// Then nothing is left to read, and the last call only shows that the packet is whole.
fn read_tail(digits: &[u8], packet: &mut [u8]) -> bool
    requires pairs { length digits.now ≡ 2 * length packet.old }
    requires read { ArePairs digits.now packet.old (length packet.old / BLOCK * BLOCK) }
    ensures packet { IsTrue result → decode_of digits.now ≡ Ok packet.new }
    ensures bad_digit { IsFalse result → AllPass is_hex_digit digits.now → ⊥ }
{
    let len = packet.len();
    let from = len / BLOCK * BLOCK;
    if from == len || len < BLOCK {
        return read_rest(digits, packet, from);
    }
    read_block(digits, packet, len - BLOCK) && read_rest(digits, packet, len)
}

// Writes the bytes of pairs of digits, and returns whether all were digits.
pub(crate) fn read_pairs(digits: &[u8], packet: &mut [u8]) -> bool
    requires { length digits.now ≡ 2 * length packet.old }
    ensures packet { IsTrue result → decode_of digits.now ≡ Ok packet.new }
    ensures no_packet { IsFalse result → AllPass is_hex_digit digits.now → ⊥ }
{
    read_blocks(digits, packet) && read_tail(digits, packet)
}

/// Reads the packet that the digits spell, two for each byte, of either case, into a buffer that is used again: takes only the memory
/// that the buffer lacks. The outer `Err` is lack of memory. The inner one is `BadForm` if the number of characters is odd or one is no
/// digit, else `PacketTooLong` if there are more than 65,535 bytes. The contents of the buffer after either are not promised.
pub fn read_packet(digits: &[u8], packet: &mut Vec<u8>) -> Result<Result<(), Reason>, OutOfMemory>
    ensures packet { IfOk result (λ read. MatchResult read
        (λ done. SpellsPacket digits.now packet.new.items)
        (IsRefusalOfHex digits.now)) }
{
    if digits.len() % 2 != 0 {
        return Ok(Err(Reason::BadForm));
    }
    let len = digits.len() / 2;
    if packet.len() < len {
        packet.reserve_exact(len - packet.len())?;
    }
    packet.resize(len, 0)?;
    if !read_pairs(digits, packet.as_mut_slice()) {
        return Ok(Err(Reason::BadForm));
    }
    if len > MAX_PACKET {
        return Ok(Err(Reason::PacketTooLong));
    }
    Ok(Ok(()))
}

/// Reads the packet that the digits spell, two for each byte, of either case. The outer `Err` is lack of memory. The inner one is
/// `BadForm` if the number of characters is odd or one is no digit, else `PacketTooLong` if there are more than 65,535 bytes.
pub fn packet_of_hex(alloc: Global, digits: &[u8]) -> Result<Result<Vec<u8>, Reason>, OutOfMemory>
    ensures packet { IfOk result (λ read. MatchResult read
        (λ packet. SpellsPacket digits.now packet.items)
        (IsRefusalOfHex digits.now)) }
{
    let mut packet = Vec::new(alloc);
    match read_packet(digits, &mut packet)? {
        Ok(()) => Ok(Ok(packet)),
        Err(reason) => Ok(Err(reason)),
    }
}
