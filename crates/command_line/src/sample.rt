//! The sample packet, its group, and how a configuration is made of commands that are known to be applied.

ghost use Rattle.std.specs.Prelude.{◌≡◌, IfOk, None, length};
ghost use Rattle.bpf_verify.specs.Accepted.{IsAccepted};
ghost use Rattle.member_group.specs.Command.{after};
ghost use Rattle.member_group.specs.Refusal.{first_refusal};

use bpf_verify::Program;
use ipv4_fields::Endpoint;
use member_group::{Command, Config, Refusal};
use std::alloc::{AllocError, Global};

/// The sample packet: 29 bytes of UDP over IPv4 from 10.0.0.1:5000 to 10.0.0.2:53, with the payload `a`.
pub const SAMPLE_PACKET: &[u8] = &[
    0x45, 0x00, 0x00, 0x1d, 0x00, 0x00, 0x00, 0x00, 0x40, 0x11, 0x00, 0x00, 0x0a, 0x00, 0x00, 0x01,
    0x0a, 0x00, 0x00, 0x02, 0x13, 0x88, 0x00, 0x35, 0x00, 0x09, 0x00, 0x00, 0x61,
];

/// 10.0.0.2:53, where the sample packet goes.
pub const SAMPLE_GROUP: Endpoint = Endpoint {
    address: 0x0a00_0002,
    port: 53,
};

/// Makes a program of words that are known to be one. Fails only for lack of memory.
pub fn program(alloc: Global, words: &[u64]) -> Result<Program<Global>, AllocError>
    requires accepted { IsAccepted words.now }
    ensures words { IfOk result (λ program. program.words ≡ words.now) }
    ensures charge { IfOk result (λ program. program.charge ≡ length words.now) }
{
    match Program::new(Vec::from_slice(alloc, words)?) {
        Ok(program) => Ok(program),
        Err(_) => unreachable!(),
    }
}

/// Applies a command that is known not to be refused. Fails only for lack of memory.
pub fn applied(config: &Config, command: &Command) -> Result<Config, AllocError>
    requires { first_refusal command.now config.now ≡ None }
    ensures { IfOk result (λ next. next ≡ after command.now config.now) }
{
    match config.apply(command) {
        Ok(next) => Ok(next),
        Err(Refusal::OutOfMemory) => Err(AllocError),
        Err(_) => unreachable!(),
    }
}
