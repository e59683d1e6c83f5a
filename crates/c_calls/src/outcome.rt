//! How a program ended.

ghost use Rattle.std.specs.Prelude.{◌≤◌, length};
ghost use Rattle.bpf_verify.specs.Accepted.{IsAccepted};
ghost use Rattle.c_calls.specs.Outcome.{IsRun};

use bpf_machine::run;

/// How a program ended.
#[derive(Clone, Copy)]
#[repr(C)]
pub struct Outcome {
    /// The number that it ended with.
    pub value: u32,
    /// How many instructions it met, the last one included.
    pub steps: u32,
}

/// Runs a program on a packet (`bpf_machine::run`). The caller must ensure that the words are accepted, and that the packet has at
/// most 65,535 bytes. Takes no memory.
pub fn run_words(words: &[u64], packet: &[u8]) -> Outcome
    requires accepted { IsAccepted words.now }
    requires packet { length packet.now ≤ 65535 }
    ensures run { IsRun words.now packet.now result }
    ensures within_length { result.steps ≤ length words.now }
{
    let mut list = words;
    let outcome = run(&mut list, 0, words.len(), packet);
    Outcome {
        value: outcome.value,
        steps: outcome.steps,
    }
}
