//! A switch that begins with a configuration: its version 0 judges, and control lines read it and change it.

ghost use Rattle.std.specs.Prelude.{◌≤◌, IfSome};
ghost use Rattle.member_group.specs.Charge.{charge_of};
ghost use Rattle.versions.specs.declared.layout.TheConstants.{CHARGE_LIMIT};

use super::client::{Case, PACKET, ask_beside, at, new_output};
use command_line::Failure;
use dispatch::OpenGate;
use ipv4_fields::Endpoint;
use member_group::{Command, Config};
use read_section::CHARGE_LIMIT;
use serve_udp::serve_with;
use std::alloc::Global;
use std::io::Write;
use std::net::Net;
use std::sync::Wait;
use std::thread::Threads;

// 10.0.0.2:53, without members.
fn one_group(alloc: Global) -> Option<Config>
    ensures { IfSome result (λ config. charge_of config ≤ CHARGE_LIMIT) }
{
    let key = Endpoint {
        address: 0x0a00_0002,
        port: 53,
    };
    let add: Command = Command::AddGroup { key };
    let config = Config::new(alloc).apply(&add).ok()?;
    if config.charge() > CHARGE_LIMIT {
        return None;
    }
    Some(config)
}

fn serve_one_group<R: Threads + Wait + Net + Sync, W: Write>(
    rt: &R,
    alloc: Global,
    out: &mut W,
) -> Result<(), Failure> {
    match one_group(alloc) {
        Some(config) => serve_with(rt, config, at(0), at(0), 1, &OpenGate, out),
        None => Err(Failure::OutOfMemory),
    }
}

const SHOW: [Case; 2] = [
    (b"show", b"version 0 groups 1 members 0 charge 6"),
    (
        b"group 0",
        b"version 0 group 0 of 1 10.0.0.2:53 members 0 selector 0",
    ),
];

const JUDGED: &[u8] =
    b"malformed 0 nogroup 0 nomembers 1 dropped 0 delivered 0 sendfailed 0 receivefailed 0";

const CHANGE: [Case; 2] = [
    (b"remove 10.0.0.2:53", b"ok version 1"),
    (b"stop", b"ok stop"),
];

#[test]
fn serve_begins_with_a_configuration(rt: HostRuntime) {
    let (mut out, ports) = new_output(&rt, rt.alloc());
    ask_beside(
        &rt,
        &ports,
        || serve_one_group(&rt, rt.alloc(), &mut out),
        |client| {
            client.expect_each(&rt, &SHOW);
            client.send(&rt, &PACKET);
            client.expect_totals(&rt, JUDGED);
            client.expect_each(&rt, &CHANGE);
        },
    );
}
