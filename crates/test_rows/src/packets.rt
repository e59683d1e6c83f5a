//! Rows of packets: their header fields, their source and their destination.

use ipv4_fields::{Endpoint, Field, Flow, dispatchable, field};
use std::alloc::Global;
use std::fmt::Write;
use std::io;

const FIELDS: [Field; 11] = [
    Field::Version,
    Field::Ihl,
    Field::TotalLength,
    Field::MoreFragments,
    Field::FragmentOffset,
    Field::Protocol,
    Field::Source,
    Field::Destination,
    Field::SourcePort,
    Field::DestinationPort,
    Field::UdpLength,
];

fn put_field(text: &mut String, name: Field, packet: &[u8]) -> io::Result<()> {
    match field(name, packet) {
        Some(value) => write!(text, " {value}")?,
        None => write!(text, " none")?,
    }
    Ok(())
}

/// `fields HEX`: the number of bytes, then each field in the order of docs/SWITCH.md, "Which packets are dispatched".
pub fn describe_fields(alloc: Global, digits: &str) -> io::Result<String> {
    let Ok(packet) = hex::decode(alloc, digits.as_bytes()) else {
        return Ok(String::from_str(alloc, "no packet")?);
    };
    let mut text = format!(in alloc; "{}", packet.len())?;
    for name in FIELDS {
        put_field(&mut text, name, packet.as_slice())?;
    }
    Ok(text)
}

fn put_endpoint(text: &mut String, endpoint: Endpoint) -> io::Result<()> {
    let [a, b, c, d] = endpoint.address.to_be_bytes();
    let port = endpoint.port;
    write!(text, " {a}.{b}.{c}.{d}:{port}")?;
    Ok(())
}

// The number of bytes, then both endpoints if the packet is dispatched.
fn describe_dispatch(alloc: Global, packet: &[u8]) -> io::Result<String> {
    let mut text = format!(in alloc; "{}", packet.len())?;
    match dispatchable(packet) {
        Some(
            Flow {
                source,
                destination,
            },
        ) => {
            put_endpoint(&mut text, source)?;
            put_endpoint(&mut text, destination)?;
        }
        None => text.push_str(" none")?,
    }
    Ok(text)
}

/// `flow HEX`, `flow HEX LEN`: the endpoints of a packet, with zeros up to LEN bytes, or that it is not dispatched.
pub fn describe_flow(alloc: Global, argument: &str) -> io::Result<String> {
    let (digits, len) = argument.split_once(' ').unwrap_or((argument, "0"));
    let (Ok(mut packet), Ok(len)) = (hex::decode(alloc, digits.as_bytes()), len.parse::<u16>())
    else {
        return Ok(String::from_str(alloc, "no packet")?);
    };
    if packet.len() < usize::from(len) {
        packet.resize(usize::from(len), 0)?;
    }
    describe_dispatch(alloc, packet.as_slice())
}
