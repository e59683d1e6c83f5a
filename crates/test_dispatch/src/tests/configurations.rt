//! A table whose version has one group of three members, and its workers.

use ipv4_fields::Endpoint;
use member_group::{Command, Config};
use read_section::{Worker, open};
use std::alloc::Global;
use std::process::Abort;

// 29 bytes of UDP over IPv4 from 10.0.0.1:5000 to 10.0.0.2:53, with the payload `a`.
pub static PACKET: [u8; 29] = [
    0x45, 0x00, 0x00, 0x1d, 0x00, 0x00, 0x00, 0x00, 0x40, 0x11, 0x00, 0x00, 0x0a, 0x00, 0x00, 0x01,
    0x0a, 0x00, 0x00, 0x02, 0x13, 0x88, 0x00, 0x35, 0x00, 0x09, 0x00, 0x00, 0x61,
];

// 10.0.0.2:53
const KEY: Endpoint = Endpoint {
    address: 0x0a00_0002,
    port: 53,
};

// 127.0.0.1:9000 and the ports above it, one for each member.
pub fn socket(member: u16) -> Endpoint {
    Endpoint {
        address: 0x7f00_0001,
        port: member.wrapping_add(9000),
    }
}

pub fn applied(rt: &impl Abort, config: &Config, command: &Command) -> Config {
    config.apply(command).expect(rt, "the command is applied")
}

pub fn three_members(rt: &impl Abort, alloc: Global) -> Config {
    let mut config = applied(rt, &Config::new(alloc), &Command::AddGroup { key: KEY });
    for member in 1..4u16 {
        config = applied(
            rt,
            &config,
            &Command::Join {
                key: KEY,
                member: u32::from(member),
                to: socket(member),
            },
        );
    }
    config
}

// The workers of a table with the configuration.
pub fn workers_of(rt: &impl Abort, config: Config) -> Vec<Worker> {
    let (_operator, workers) = open(config).expect(rt, "a table opens");
    workers
}

// The last of them.
pub fn worker_of(rt: &impl Abort, config: Config) -> Worker {
    let mut workers = workers_of(rt, config);
    workers.pop().expect(rt, "a table has workers")
}
