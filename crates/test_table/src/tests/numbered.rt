//! Configurations of the tests, and the comparison of a row with theirs.

ghost use Rattle.std.specs.Prelude.{◌≡◌};

use bpf_insn::Words;
use bpf_verify::Program;
use ipv4_fields::Endpoint;
use member_group::{Command, Config};
use std::alloc::Global;
use std::process::Abort;

/// The key of the group at that address, port 53.
pub fn key_of(address: u32) -> Endpoint {
    Endpoint { address, port: 53 }
}

// A configuration that has a number: one group without members at that address, port 53. Its image, by docs/SWITCH.md:
// the length 6, 1 group, its key, its first member record, no member, no selector.
pub fn config_of(rt: &impl Abort, alloc: Global, number: u32) -> Config {
    let key = key_of(number);
    applied(rt, &Config::new(alloc), Command::AddGroup { key })
}

/// Whether it is the configuration of `config_of`: the whole of it.
pub fn is_config_of(config: &Config, number: u32) -> bool {
    let [group] = config.groups() else {
        return false;
    };
    group.key() == key_of(number) && group.selector().is_none() && group.members().is_empty()
}

pub fn applied(rt: &impl Abort, config: &Config, command: Command) -> Config {
    config.apply(&command).expect(rt, "the command is applied")
}

/// The program of these words, which are one.
pub fn program_of(rt: &impl Abort, words: Vec<u64>) -> Program<Global> {
    Program::new(words)
        .ok()
        .expect(rt, "the words are a program")
}

/// Gives a group, by its key, the selector of these words.
pub fn selected(rt: &impl Abort, config: &Config, key: Endpoint, words: Vec<u64>) -> Config {
    let program = program_of(rt, words);
    applied(rt, config, Command::SetSelector { key, program })
}

// The number of words that differ from the row of `config_of`.
pub fn differing<W: Words>(words: &mut W, number: u64) -> usize
    ensures words_kept { W.words words.new ≡ W.words words.old }
    ensures rest_kept { W.rest words.new ≡ W.rest words.old }
{
    let image = [6, 1, number.wrapping_mul(65536).wrapping_add(53), 6, 0, 0];
    let mut count = 0usize;
    for i in 0..words.count() {
        let wanted = image.get(i).copied().unwrap_or(0);
        if words.word(i) != wanted {
            count = count.wrapping_add(1);
        }
    }
    count
}
