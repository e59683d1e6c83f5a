//! The order of groups and of members, which no command of the program prints, and commands under refused growths.

use super::heaps::steps_in_heaps;
use bpf_verify::Program;
use ipv4_fields::Endpoint;
use linked_list_allocator::LocalHeap;
use member_group::{Command, Config, Refusal};
use std::alloc::Global;
use std::process::Abort;

pub const RET_ZERO: u64 = 0x0006_0000_0000_0000;

pub const RET_ONE: u64 = 0x0006_0000_0000_0001;

// 127.0.0.1:9001, where each member is.
pub const MEMBER: Endpoint = Endpoint {
    address: 0x7f00_0001,
    port: 9001,
};

// The group at 10.0.0.2 and a port.
fn key_at(port: u16) -> Endpoint {
    Endpoint {
        address: 0x0a00_0002,
        port,
    }
}

pub fn applied(rt: &impl Abort, config: &Config, command: Command) -> Config {
    config.apply(&command).expect(rt, "the command is applied")
}

// A program of this many instructions: this last one, and before it `ret #0`, repeated.
#[derive(Clone, Copy)]
pub struct Returns(pub usize, pub u64);

fn program(rt: &impl Abort, alloc: Global, returns: Returns) -> Program<Global> {
    let Returns(count, last) = returns;
    let mut words = vec![in alloc; RET_ZERO; count].expect(rt, "memory");
    if let Some(word) = words.last_mut() {
        *word = last;
    }
    Program::new(words)
        .ok()
        .expect(rt, "the words are accepted")
}

// A command on the group at this port.
#[derive(Clone, Copy)]
pub enum Act {
    Add(u16),
    Remove(u16),
    Join(u16, u32),
    Leave(u16, u32),
    Select(u16, Returns),
    Unselect(u16),
    Filter(u16, u32, Returns),
    Unfilter(u16, u32),
    Lock(u16, u32),
}

fn command(rt: &impl Abort, alloc: Global, act: Act) -> Command {
    match act {
        Act::Add(port) => Command::AddGroup { key: key_at(port) },
        Act::Remove(port) => Command::RemoveGroup { key: key_at(port) },
        Act::Join(port, member) => Command::Join {
            key: key_at(port),
            member,
            to: MEMBER,
        },
        Act::Leave(port, member) => Command::Leave {
            key: key_at(port),
            member,
        },
        Act::Select(port, returns) => Command::SetSelector {
            key: key_at(port),
            program: program(rt, alloc, returns),
        },
        Act::Unselect(port) => Command::ClearSelector { key: key_at(port) },
        Act::Filter(port, member, returns) => Command::SetFilter {
            key: key_at(port),
            member,
            program: program(rt, alloc, returns),
        },
        Act::Unfilter(port, member) => Command::ClearFilter {
            key: key_at(port),
            member,
        },
        Act::Lock(port, member) => Command::LockFilter {
            key: key_at(port),
            member,
        },
    }
}

pub fn after_each(rt: &impl Abort, alloc: Global, acts: &[Act]) -> Config {
    let mut config = Config::new(alloc);
    for act in acts {
        config = applied(rt, &config, command(rt, alloc, *act));
    }
    config
}

// The content of a configuration: the ports of its keys in order, the numbers of its members in order, each with whether it is locked,
// and its charge.
struct Content {
    ports: &'static [u16],
    members: &'static [(u32, bool)],
    charge: u64,
}

// The ports of the keys are these, in order.
fn has_ports(config: &Config, ports: &[u16]) -> bool {
    let groups = config.groups();
    if groups.len() != ports.len() {
        return false;
    }
    for i in 0..groups.len() {
        if groups[i].key().port != ports[i] {
            return false;
        }
    }
    true
}

// The members of all groups have these numbers, in order, and are locked or not.
pub fn has_members(config: &Config, members: &[(u32, bool)]) -> bool {
    let mut rest = members;
    for group in config.groups() {
        for member in group.members() {
            match rest {
                [row, behind @ ..] if *row == (member.id, member.locked) => rest = behind,
                _ => return false,
            }
        }
    }
    rest.is_empty() && config.members() == members.len()
}

fn has(config: &Config, content: &Content) -> bool {
    has_ports(config, content.ports)
        && has_members(config, content.members)
        && config.charge() == content.charge
}

// After the first commands a configuration has the first content, also when one more command has made the next, which has the other.
struct Row {
    acts: &'static [Act],
    before: Content,
    act: Act,
    after: Content,
}

fn holds(rt: &impl Abort, alloc: Global, row: &Row) {
    let config = after_each(rt, alloc, row.acts);
    let next = applied(rt, &config, command(rt, alloc, row.act));
    assert!(rt; has(&config, &row.before) && has(&next, &row.after));
}

const FOUR_GROUPS: &[Act] = &[Act::Add(53), Act::Add(99), Act::Add(7), Act::Add(60)];

// The filter goes with its member.
const THREE_MEMBERS: &[Act] = &[
    Act::Add(53),
    Act::Join(53, 1),
    Act::Join(53, 2),
    Act::Join(53, 3),
    Act::Filter(53, 3, Returns(5, RET_ZERO)),
];

const ALL_THREE: Content = Content {
    ports: &[53],
    members: &[(1, false), (2, false), (3, false)],
    charge: 2 + 4 + 4 * 3 + 5,
};

// Above the largest charge that is published, 8192.
const TOO_LARGE: &[Act] = &[
    Act::Add(53),
    Act::Join(53, 0),
    Act::Join(53, 1),
    Act::Filter(53, 0, Returns(4096, RET_ZERO)),
    Act::Filter(53, 1, Returns(4082, RET_ZERO)),
    Act::Filter(53, 1, Returns(4083, RET_ZERO)),
];

static ROWS: [Row; 5] = [
    Row {
        acts: &[],
        before: Content {
            ports: &[],
            members: &[],
            charge: 2,
        },
        act: Act::Add(53),
        after: Content {
            ports: &[53],
            members: &[],
            charge: 6,
        },
    },
    Row {
        acts: FOUR_GROUPS,
        before: Content {
            ports: &[7, 53, 60, 99],
            members: &[],
            charge: 18,
        },
        act: Act::Remove(60),
        after: Content {
            ports: &[7, 53, 99],
            members: &[],
            charge: 14,
        },
    },
    // The last member fills the gap; the order stays if the last one leaves.
    Row {
        acts: THREE_MEMBERS,
        before: ALL_THREE,
        act: Act::Leave(53, 1),
        after: Content {
            ports: &[53],
            members: &[(3, false), (2, false)],
            charge: 2 + 4 + 4 * 2 + 5,
        },
    },
    Row {
        acts: THREE_MEMBERS,
        before: ALL_THREE,
        act: Act::Leave(53, 3),
        after: Content {
            ports: &[53],
            members: &[(1, false), (2, false)],
            charge: 2 + 4 + 4 * 2,
        },
    },
    Row {
        acts: TOO_LARGE,
        before: Content {
            ports: &[53],
            members: &[(0, false), (1, false)],
            charge: 8193,
        },
        act: Act::Unfilter(53, 0),
        after: Content {
            ports: &[53],
            members: &[(0, false), (1, false)],
            charge: 14 + 4083,
        },
    },
];

#[test]
fn groups_in_rising_order(rt: HostRuntime) {
    for row in &ROWS {
        holds(&rt, rt.alloc(), row);
    }
}

pub const ONE_MEMBER: &[Act] = &[Act::Add(53), Act::Join(53, 1)];

pub const LOCKED_BARE: &[Act] = &[Act::Add(53), Act::Join(53, 1), Act::Lock(53, 1)];

// Commands, and the configuration's charge after each.
static STEPS: [(Act, u64); 10] = [
    (Act::Add(53), 6),
    (Act::Join(53, 1), 10),
    (Act::Join(53, 2), 14),
    (Act::Select(53, Returns(20, RET_ZERO)), 34),
    (Act::Filter(53, 2, Returns(30, RET_ZERO)), 64),
    (Act::Lock(53, 1), 64),
    (Act::Leave(53, 1), 60),
    (Act::Unfilter(53, 2), 30),
    (Act::Unselect(53), 10),
    (Act::Remove(53), 2),
];

// Applies a command that makes this charge; returns whether memory sufficed. None if another refusal is returned, or
// the charge is wrong.
fn applies<'a>(config: &mut Config<&'a LocalHeap>, command: &Command, charge: u64) -> Option<bool> {
    let before = config.charge();
    let (suffices, expected) = match config.apply(command) {
        Ok(next) => {
            *config = next;
            (true, charge)
        }
        Err(Refusal::OutOfMemory) => (false, before),
        Err(_) => return None,
    };
    if config.charge() == expected {
        Some(suffices)
    } else {
        None
    }
}

// Applies the commands until one is refused; returns the number that were applied.
fn steps_of<'a>(rt: &impl Abort, alloc: Global, config: &mut Config<&'a LocalHeap>) -> usize {
    let mut steps = 0usize;
    for (act, charge) in &STEPS {
        let applied = applies(config, &command(rt, alloc, *act), *charge);
        if !applied.expect(rt, "only memory is refused, and the charge is right") {
            break;
        }
        steps = steps.saturating_add(1);
    }
    steps
}

fn applied_within<R: Abort>(rt: &R, alloc: Global, heap: &LocalHeap) -> Option<usize> {
    let mut config = Config::new(heap);
    Some(steps_of(rt, alloc, &mut config))
}

#[test]
fn commands_under_each_refused_growth(rt: HostRuntime) {
    assert!(rt; steps_in_heaps(&rt, rt.alloc(), 200, applied_within) == STEPS.len());
}
