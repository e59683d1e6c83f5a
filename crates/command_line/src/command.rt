//! The commands of the program with their arguments, and the limits of these (docs/COMMANDS.md).

ghost use Rattle.std.specs.Prelude.{◌≤◌};
ghost use Rattle.versions.specs.declared.layout.TheConstants.{WORKERS};

use crate::receive::{ReceiveBuffer, ReceiveWay};
use crate::spreading::Spreading;

/// The longest wait for a reply, in seconds.
pub const MAX_TIMEOUT: u64 = 3600;

/// The most datagrams of `flood`.
pub const MAX_DATAGRAMS: u64 = 1 << 24;

/// The longest interval between two screens of `top`, in seconds.
pub const MAX_INTERVAL: u64 = 3600;

/// The greatest port.
pub const MAX_PORT: u64 = 65535;

/// A command that has one result.
#[derive(Drop)]
pub enum Query<'a> {
    First,
    /// `format` is the name of a format as it is written, or `"asm"` if there is none. The same is true of `format` below.
    Check {
        format: &'a str,
    },
    Compile {
        expression: &'a str,
        format: &'a str,
    },
    Run {
        packet: &'a str,
        format: &'a str,
    },
    /// `run` with an expression in place of a program.
    Judge {
        packet: &'a str,
        expression: &'a str,
    },
    /// `from` and `to` are endpoints as they are written. `payload` is digits, and `text` the payload itself.
    Pack {
        from: &'a str,
        to: &'a str,
        payload: Option<&'a str>,
        text: Option<&'a str>,
    },
    /// `words` are in their order.
    Explain {
        words: Vec<&'a str>,
    },
    Spread(Spreading),
}

/// A number of workers.
#[derive(Clone, Copy)]
pub struct Workers {
    pub count: usize,
    pub ghost in_range: { (1 ≤ count) × (count ≤ WORKERS) },
}

/// A command that returns.
#[derive(Drop)]
pub enum Returning<'a> {
    Query(Query<'a>),
    /// `summary` and `quiet` say which of the two flags are given.
    Replay { summary: bool, quiet: bool },
    /// `unwrap` is the port whose datagrams are replaced by the packets that they carry, if one is given.
    Packets { unwrap: Option<u16> },
}

/// A command that may wait: it runs worker threads, or awaits replies. Addresses are as they are written.
#[derive(Drop)]
pub enum Waiting<'a> {
    Flood {
        workers: Workers,
        datagrams: usize,
    },
    /// `rules` is the name of a rules file, if there is one. `log` says whether the flag is given. `receive` is `Queued` if no way is given.
    /// `buffer` is the receive buffer of the front, if one is given.
    Serve {
        front: &'a str,
        control: &'a str,
        workers: Workers,
        rules: Option<&'a str>,
        log: bool,
        receive: ReceiveWay,
        buffer: Option<ReceiveBuffer>,
    },
    /// `timeout` is a number of seconds. `all` says whether the lines are one change. `lines` are in the order of the words.
    Tell {
        control: &'a str,
        timeout: u64,
        all: bool,
        lines: Vec<&'a str>,
    },
    Rules {
        control: &'a str,
        timeout: u64,
    },
    /// `file` is the name of a rules file. `check` and `diff` say which of the two flags are given.
    Load {
        control: Option<&'a str>,
        timeout: u64,
        file: &'a str,
        check: bool,
        diff: bool,
    },
    /// `key` and `member` are the group's key and the member's ID, as they are written.
    Drain {
        control: &'a str,
        timeout: u64,
        key: &'a str,
        member: &'a str,
    },
    /// `front` is the front whose drops in the kernel are wanted, if any.
    Metrics {
        control: &'a str,
        front: Option<&'a str>,
        timeout: u64,
    },
    /// `interval` is a number of seconds. `count` is how many screens are written: 2^64 - 1 if no number is given.
    Top {
        control: &'a str,
        interval: u64,
        count: u64,
        timeout: u64,
    },
}

/// A command of the program, with its arguments.
#[derive(Drop)]
pub enum Subcommand<'a> {
    Returning(Returning<'a>),
    Waiting(Waiting<'a>),
}
