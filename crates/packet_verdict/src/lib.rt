//! The verdict on a packet by the configuration of one version (docs/SWITCH.md, "Verdicts"). It depends on the packet
//! and on the words of the configuration's image, wherever these are. No call takes memory.
#![tactic(auto)]

ghost use Rattle.std.specs.Prelude.{◌≡◌, ◌≤◌, List, length};
ghost use Rattle.bpf_machine.specs.declared.TheConstants.{MAX_PACKET};
ghost use Rattle.config_image.specs.Image.{Group};
ghost use Rattle.config_image.specs.Lookup.{BeginsWithImage};
ghost use Rattle.packet_verdict.specs.Sound.{ProgramsAreSound};
ghost use Rattle.packet_verdict.specs.Verdict.{value_of, verdict};

mod config;
mod kind;
mod malformed;
mod member;
mod verdict;

use crate::member::{choose, judge_by_member};
use bpf_insn::Words;
pub use config::{group_by_key, judge_by_config};
use config_image::find_group;
use ipv4_fields::dispatchable;
pub use kind::Kind;
pub use malformed::{Malformation, malformation_of, malformed_exactly};
pub use verdict::Verdict;

/// Judges a packet by the configuration whose image the words begin with.
///
/// `packet` begins with the first byte of its IPv4 header. Takes no memory. Reads each header field once; reads the
/// words that find the group and the member, and the two programs as far as they run.
#[tactic(auto, using(crate::proofs::VerdictLemmas::programs_are_sound))]
pub fn judge<W: Words>(words: &mut W, packet: &[u8]) -> Verdict
    requires image { (config : List Group) × BeginsWithImage (W.words words.old) config }
    requires packet { length packet.now ≤ MAX_PACKET }
    ensures verdict { (config : List Group) → BeginsWithImage (W.words words.old) config → result ≡ verdict value_of config packet.now }
    ensures sound { (config : List Group) → BeginsWithImage (W.words words.old) config → ProgramsAreSound config packet.now }
    ensures words_kept { W.words words.new ≡ W.words words.old }
    ensures rest_kept { W.rest words.new ≡ W.rest words.old }
{
    let Some(flow) = dispatchable(packet) else {
        return Verdict::Malformed;
    };
    let key = flow.destination;
    let Some(group) = find_group(words, key) else {
        return Verdict::NoGroup;
    };
    if group.members == 0 {
        return Verdict::NoMembers;
    }
    let index = choose(words, &group, &flow, packet);
    judge_by_member(words, group.index, index, key, packet)
}
