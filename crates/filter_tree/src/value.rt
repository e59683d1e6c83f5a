//! The value of an arithmetic expression on a packet.

ghost use Rattle.std.specs.Prelude.{◌≡◌, ◌^◌, if◌then◌else◌, nat_lt, ◌*◌, ◌/◌, ◌%◌};
ghost use Rattle.ipv4_fields.specs.Field.{number_at};
ghost use Rattle.filter_tree.specs.Arithmetic.{byte_count, combined, loaded, place_of, value_of_arith};
ghost use Rattle.filter_tree.specs.View.{arith_tree_of};

use crate::arithmetic::{Arith, Operator, Protocol, Size};
use ipv4_fields::{Field, field};
use std::alloc::Allocator;

fn shifted_left(a: u32, count: u32) -> u32
    ensures { result ≡ (if nat_lt count 32 then a * 2 ^ count % 2 ^ 32 else 0) }
{
    if count < 32 { a << count } else { 0 }
}

fn shifted_right(a: u32, count: u32) -> u32
    ensures { result ≡ (if nat_lt count 32 then a / 2 ^ count else 0) }
{
    if count < 32 { a >> count } else { 0 }
}

fn combine(operator: Operator, a: u32, b: u32) -> Option<u32>
    ensures { result ≡ combined operator a b }
{
    match operator {
        Operator::Or => Some(a | b),
        Operator::ExclusiveOr => Some(a ^ b),
        Operator::And => Some(a & b),
        Operator::ShiftLeft => Some(shifted_left(a, b)),
        Operator::ShiftRight => Some(shifted_right(a, b)),
        Operator::Add => Some(a.wrapping_add(b)),
        Operator::Subtract => Some(a.wrapping_sub(b)),
        Operator::Multiply => Some(a.wrapping_mul(b)),
        Operator::Divide => a.checked_div(b),
        Operator::Modulo => a.checked_rem(b),
    }
}

fn number_at(size: Size, packet: &[u8], place: u32) -> Option<u32>
    ensures { result ≡ number_at (byte_count size) packet.now place }
{
    let i = place as usize;
    match size {
        Size::One => {
            if i + 1 <= packet.len() {
                Some(packet[i] as u32)
            } else {
                None
            }
        }
        Size::Two => {
            if i + 2 <= packet.len() {
                Some(u16::from_be_bytes([packet[i], packet[i + 1]]) as u32)
            } else {
                None
            }
        }
        Size::Four => {
            if i + 4 <= packet.len() {
                Some(u32::from_be_bytes([packet[i], packet[i + 1], packet[i + 2], packet[i + 3]]))
            } else {
                None
            }
        }
    }
}

#[tactic(auto, unfolding(ipv4_fields::specs::Field::field_of))]
fn place(protocol: Protocol, index: u32, packet: &[u8]) -> Option<u32>
    ensures { result ≡ place_of protocol index packet.now }
{
    match protocol {
        Protocol::Ip => Some(index),
        Protocol::Tcp | Protocol::Udp | Protocol::Icmp => {
            let ihl = field(Field::Ihl, packet)?;
            Some((4 * ihl).wrapping_add(index))
        }
    }
}

fn load(protocol: Protocol, index: u32, size: Size, packet: &[u8]) -> Option<u32>
    ensures { result ≡ loaded protocol index size packet.now }
{
    let place = place(protocol, index, packet)?;
    number_at(size, packet, place)
}

impl<A: Allocator> Arith<A> {
    /// Returns the value on a packet, `None` if a load passes the packet's end or a divisor is 0. Takes no memory.
    ///
    /// This is a slow plain evaluator, to compare compiled programs with.
    pub fn value(&self, packet: &[u8]) -> Option<u32>
        ensures value { result ≡ value_of_arith (arith_tree_of self.now) packet.now }
    {
        match self {
            Arith::Number(n) => Some(*n),
            Arith::Length => Some((packet.len() % 0x1_0000_0000) as u32),
            Arith::Accessor(protocol, index, size) => {
                let index = index.value(packet)?;
                load(*protocol, index, *size, packet)
            }
            Arith::Operation(left, operator, right) => {
                let a = left.value(packet)?;
                let b = right.value(packet)?;
                combine(*operator, a, b)
            }
        }
    }
}
