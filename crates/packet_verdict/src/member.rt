//! The member of a group that a packet goes to, and the member's verdict on it.

ghost use Rattle.std.specs.Prelude.{◌≡◌, ◌<◌, ◌≤◌, IfSome, List, Option, length, option_map};
ghost use Rattle.bpf_machine.specs.declared.TheConstants.{MAX_PACKET};
ghost use Rattle.bpf_verify.specs.Program.{IsProgram, ProgramValue};
ghost use Rattle.config_image.specs.Image.{Group};
ghost use Rattle.config_image.specs.Lookup.{BeginsWithImage, HasGroup, HasMember, IsProgramFound};
ghost use Rattle.member_group.specs.declared.member.Member.{Member};
ghost use Rattle.packet_verdict.specs.Verdict.{choice, kept, plain_choice, value_of};

use crate::verdict::Verdict;
use bpf_insn::Words;
use bpf_machine::run_copy;
use config_image::{FoundGroup, MemberEntry, ProgramPlace, member_with_filter, selector_of};
use ipv4_fields::{Endpoint, Flow};

// Returns the result of the program at a place on the packet, if there is a program. Selectors and filters run on
// copies of the machine, each called once, so that it is inlined.
fn answer<W: Words, const COPY: usize>(
    words: &mut W,
    place: Option<ProgramPlace>,
    packet: &[u8],
) -> Option<u32>
    requires found { (program : Option ProgramValue) × IfSome program IsProgram × IsProgramFound (W.words words.old) program place }
    requires packet { length packet.now ≤ MAX_PACKET }
    ensures answer { (program : Option ProgramValue) → IsProgramFound (W.words words.old) program place → result ≡ option_map (λ p. value_of p packet.now) program }
    ensures words_kept { W.words words.new ≡ W.words words.old }
    ensures rest_kept { W.rest words.new ≡ W.rest words.old }
{
    let place = place?;
    Some(run_copy::<W, COPY>(words, place.from, place.len, packet).value)
}

fn plain_choice(flow: &Flow, count: usize) -> usize
    requires { 0 < count }
    ensures choice { result ≡ plain_choice flow.now count }
    ensures inside { result < count }
{
    let Flow {
        source,
        destination,
    } = *flow;
    let ports = u64::from(source.port) << 16 | u64::from(destination.port);
    let mixed = u64::from(source.address ^ destination.address) ^ ports;
    (mixed % count as u64) as usize
}

// Returns the index of the member that a packet goes to; `answer` is the selector's result.
pub fn choice(answer: Option<u32>, flow: &Flow, count: usize) -> usize
    requires { 0 < count }
    ensures choice { result ≡ choice answer flow.now count }
    ensures inside { result < count }
{
    match answer {
        Some(index) if (index as usize) < count => index as usize,
        _ => plain_choice(flow, count),
    }
}

// The same in a group that has members.
pub fn choose<W: Words>(words: &mut W, group: &FoundGroup, flow: &Flow, packet: &[u8]) -> usize
    requires group { (config : List Group) × (at : Group) × BeginsWithImage (W.words words.old) config × HasGroup config group.now.index at }
    requires members { 0 < group.now.members }
    requires packet { length packet.now ≤ MAX_PACKET }
    ensures choice { (config : List Group) (at : Group) → BeginsWithImage (W.words words.old) config → HasGroup config group.now.index at
        → result ≡ choice (option_map (λ selector. value_of selector packet.now) at.selector) flow.now group.now.members }
    ensures inside { result < group.now.members }
    ensures words_kept { W.words words.new ≡ W.words words.old }
    ensures rest_kept { W.rest words.new ≡ W.rest words.old }
{
    let selector = selector_of(words, group.index);
    let answer = answer::<W, 1>(words, selector, packet);
    choice(answer, flow, group.members)
}

// Returns a member's verdict on a packet of `bytes` bytes; `answer` is the filter's result.
pub fn kept(key: Endpoint, member: MemberEntry, answer: Option<u32>, bytes: usize) -> Verdict
    ensures { result ≡ kept key member.id member.to answer bytes }
{
    let MemberEntry { id: member, to } = member;
    let limit = match answer {
        Some(0) => return Verdict::Dropped { group: key, member },
        Some(limit) => limit as usize,
        None => bytes,
    };
    Verdict::Deliver {
        group: key,
        member,
        to,
        bytes: limit.min(bytes),
    }
}

// The same for the member at an index of a group.
pub fn judge_by_member<W: Words>(
    words: &mut W,
    group: usize,
    index: usize,
    key: Endpoint,
    packet: &[u8],
) -> Verdict
    requires member { (config : List Group) × (member : Member ProgramValue) × BeginsWithImage (W.words words.old) config × HasMember config group index member }
    requires packet { length packet.now ≤ MAX_PACKET }
    ensures verdict { (config : List Group) (member : Member ProgramValue) → BeginsWithImage (W.words words.old) config → HasMember config group index member
        → result ≡ kept key member.id member.to (option_map (λ filter. value_of filter packet.now) member.filter) (length packet.now) }
    ensures words_kept { W.words words.new ≡ W.words words.old }
    ensures rest_kept { W.rest words.new ≡ W.rest words.old }
{
    let (member, filter) = member_with_filter(words, group, index);
    let answer = answer::<W, 2>(words, filter, packet);
    kept(key, member, answer, packet.len())
}
