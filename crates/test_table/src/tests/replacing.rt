//! Verdicts of versions that are replaced while a worker is inside.

ghost use Rattle.std.specs.Prelude.{◌≡◌};

use super::numbered::{applied, selected};
use super::sections::{Check, on_ends};
use super::tables::published;
use ipv4_fields::Endpoint;
use member_group::{Command, Config};
use packet_verdict::{Verdict, judge};
use read_section::{Operator, Worker};
use std::alloc::Global;
use std::process::Abort;

// 29 bytes of UDP over IPv4 from 10.0.0.1:5000 to 10.0.0.2:53, with the payload `a`.
static PACKET: [u8; 29] = [
    0x45, 0x00, 0x00, 0x1d, 0x00, 0x00, 0x00, 0x00, 0x40, 0x11, 0x00, 0x00, 0x0a, 0x00, 0x00, 0x01,
    0x0a, 0x00, 0x00, 0x02, 0x13, 0x88, 0x00, 0x35, 0x00, 0x09, 0x00, 0x00, 0x61,
];

// 10.0.0.2:53
const KEY: Endpoint = Endpoint {
    address: 0x0a00_0002,
    port: 53,
};

// 127.0.0.1:9000 and the ports above it, one for each member.
fn socket(member: u16) -> Endpoint {
    Endpoint {
        address: 0x7f00_0001,
        port: member.wrapping_add(9000),
    }
}

// A group of members 1, 2 and 3, whose selector returns a number.
fn selecting(rt: &impl Abort, alloc: Global, number: u32) -> Config {
    let mut config = applied(rt, &Config::new(alloc), Command::AddGroup { key: KEY });
    for member in 1..4u16 {
        let join = Command::Join {
            key: KEY,
            member: u32::from(member),
            to: socket(member),
        };
        config = applied(rt, &config, join);
    }
    let word = 0x0006_0000_0000_0000 | u64::from(number);
    let words = vec![in alloc; word; 1].expect(rt, "memory");
    selected(rt, &config, KEY, words)
}

fn judged(worker: &mut Worker) -> (u64, Verdict)
    ensures same_table { worker.new.table ≡ worker.old.table }
{
    let mut section = worker.enter();
    let number = section.number();
    let verdict = judge(&mut section, &PACKET);
    section.leave();
    (number, verdict)
}

fn delivered(member: u16) -> Verdict {
    Verdict::Deliver {
        group: KEY,
        member: u32::from(member),
        to: socket(member),
        bytes: 29,
    }
}

// A configuration is published while the worker is inside: its number, the section's number, and the section's verdict.
fn published_inside(
    rt: &impl Abort,
    operator: &mut Operator,
    worker: &mut Worker,
    config: Config,
) -> (u64, u64, Verdict)
    ensures same_table { operator.new.table ≡ operator.old.table }
    ensures worker_table { worker.new.table ≡ worker.old.table }
{
    let mut section = worker.enter();
    let number = published(rt, operator, config);
    let verdict = judge(&mut section, &PACKET);
    let held = section.number();
    section.leave();
    (number, held, verdict)
}

pub fn keeps_its_version(rt: &impl Abort, operator: &mut Operator, worker: &mut Worker)
    requires { worker.old.table ≡ operator.old.table }
{
    let alloc = *operator.config().allocator();
    assert!(rt; judged(worker) == (0, Verdict::NoGroup));
    let first = published(rt, operator, selecting(rt, alloc, 0));
    let inside = published_inside(rt, operator, worker, selecting(rt, alloc, 1));
    assert!(rt; (first, inside) == (1, (2, 1, delivered(1))));
    worker.meet(operator);
    assert!(rt; judged(worker) == (2, delivered(2)));
}

// Worker 0, which entered at version 1, judges by it while version 2 is current; once it has left and met the operator, by version 2.
#[test]
fn section_keeps_its_version(rt: HostRuntime) {
    on_ends(
        &rt,
        Config::new(rt.alloc()),
        Check::VerdictsKeepTheirVersion,
    );
}
