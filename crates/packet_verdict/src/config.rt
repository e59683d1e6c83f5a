//! The verdict on a packet by a configuration in memory, which is the verdict by its image (docs/SWITCH.md, "Verdicts").

ghost use Rattle.std.specs.Prelude.{◌≡◌, ◌≤◌, length, option_map};
ghost use Rattle.bpf_machine.specs.declared.TheConstants.{MAX_PACKET};
ghost use Rattle.member_group.specs.Group.{group_of};
ghost use Rattle.packet_verdict.specs.Verdict.{members_verdict, value_of, verdict};

use crate::member::{choice, kept};
use crate::verdict::Verdict;
use bpf_machine::run;
use bpf_verify::Program;
use config_image::MemberEntry;
use ipv4_fields::{Endpoint, Flow, dispatchable};
use member_group::Group;
use std::alloc::Global;

/// Finds the group of a key.
pub fn group_by_key(groups: &[Group<Global>], key: Endpoint) -> Option<&Group<Global>>
    ensures { option_map (λ group. group.now) result ≡ group_of key groups.now }
{
    for group in groups {
        if group.key().number() == key.number() {
            return Some(group);
        }
    }
    None
}

// Returns the program's result on the packet, if there is a program.
fn answer_of(program: Option<&Program<Global>>, packet: &[u8]) -> Option<u32>
    requires { length packet.now ≤ MAX_PACKET }
    ensures { result ≡ option_map (λ program. value_of program packet.now) (option_map (λ lent. lent.now) program.entry) }
{
    let mut words = program?.words();
    let count = words.len();
    Some(run(&mut words, 0, count, packet).value)
}

fn judge_in_group(group: &Group<Global>, flow: &Flow, packet: &[u8]) -> Verdict
    requires { length packet.now ≤ MAX_PACKET }
    ensures { result ≡ members_verdict value_of flow.now packet.now group.now.selector group.now.members }
{
    let members = group.members();
    if members.is_empty() {
        return Verdict::NoMembers;
    }
    let index = choice(answer_of(group.selector(), packet), flow, members.len());
    let member = &members[index];
    let entry = MemberEntry {
        id: member.id,
        to: member.to,
    };
    let answer = answer_of(member.filter.as_ref(), packet);
    kept(flow.destination, entry, answer, packet.len())
}

/// Judges a packet by a configuration in memory, as `judge` does by its image.
///
/// `packet` begins with the first byte of its IPv4 header. Takes no memory.
pub fn judge_by_config(groups: &[Group<Global>], packet: &[u8]) -> Verdict
    requires packet { length packet.now ≤ MAX_PACKET }
    ensures verdict { result ≡ verdict value_of groups.now packet.now }
{
    let Some(flow) = dispatchable(packet) else {
        return Verdict::Malformed;
    };
    let Some(group) = group_by_key(groups, flow.destination) else {
        return Verdict::NoGroup;
    };
    judge_in_group(group, &flow, packet)
}
