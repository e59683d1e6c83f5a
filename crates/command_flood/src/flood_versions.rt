//! The versions of `flood`: a group of three members, and its successors, which select in turn (docs/COMMANDS.md, "flood").

ghost use Rattle.std.specs.Prelude.{◌≡◌, IfOk, None, map};
ghost use Rattle.bpf_verify.specs.Accepted.{IsAccepted};
ghost use Rattle.member_group.specs.Command.{after};
ghost use Rattle.member_group.specs.Refusal.{first_refusal};
ghost use Rattle.command_flood.specs.FloodVersions.{join_of, opening_version, selecting, selector_at, successor_at};
ghost use Rattle.command_flood.specs.Traffic.{numbers_below};

use command_line::{SAMPLE_GROUP, applied, program};
use ipv4_fields::Endpoint;
use member_group::{Command, Config};
use std::alloc::{AllocError, Global};

/// How many publications `flood` tries.
pub const PUBLICATIONS: usize = 64;

// 127.0.0.1
const MEMBERS_ADDRESS: u32 = 0x7f00_0001;

// ret #0
const SELECT_FIRST: &[u64] = &[0x0006_0000_0000_0000];

// ret #1
const SELECT_SECOND: &[u64] = &[0x0006_0000_0000_0001];

fn joined(config: &Config, member: u32, port: u16) -> Result<Config, AllocError>
    requires { first_refusal (join_of member port) config.now ≡ None }
    ensures { IfOk result (λ next. next ≡ after (join_of member port) config.now) }
{
    let to = Endpoint {
        address: MEMBERS_ADDRESS,
        port,
    };
    let join = Command::Join {
        key: SAMPLE_GROUP,
        member,
        to,
    };
    applied(config, &join)
}

/// Makes the sample group with members 1, 2 and 3 at 127.0.0.1, ports 9001, 9002 and 9003, without programs.
pub fn opening(alloc: Global) -> Result<Config, AllocError>
    ensures { IfOk result (λ config. config ≡ opening_version) }
{
    let empty = Config::new(alloc);
    let add = Command::AddGroup { key: SAMPLE_GROUP };
    let added = applied(&empty, &add)?;
    let one = joined(&added, 1, 9001)?;
    let two = joined(&one, 2, 9002)?;
    joined(&two, 3, 9003)
}

fn successor(alloc: Global, opening: &Config, words: &[u64]) -> Result<Config, AllocError>
    requires accepted { IsAccepted words.now }
    requires opening { opening.now ≡ opening_version }
    ensures { IfOk result (λ config. config ≡ selecting words.now) }
{
    let select = Command::SetSelector {
        key: SAMPLE_GROUP,
        program: program(alloc, words)?,
    };
    applied(opening, &select)
}

fn selector(i: usize) -> &'static [u64]
    ensures accepted { IsAccepted result.now }
    ensures in_turn { result.now ≡ selector_at i }
{
    if i % 2 == 0 {
        SELECT_FIRST
    } else {
        SELECT_SECOND
    }
}

/// Makes the versions that follow: the same group with the selectors `ret #0` and `ret #1` in turn.
pub fn successors(alloc: Global, opening: &Config) -> Result<Vec<Config>, AllocError>
    requires { opening.now ≡ opening_version }
    ensures { IfOk result (λ configs. configs.items ≡ map successor_at (numbers_below PUBLICATIONS)) }
{
    let mut successors = Vec::with_capacity(alloc, PUBLICATIONS)?;
    for i in 0..PUBLICATIONS {
        successors.push(successor(alloc, opening, selector(i))?)?;
    }
    Ok(successors)
}
