//! Lines that judge a packet by the current configuration (docs/COMMANDS.md, "Control lines").

ghost use Rattle.std.specs.Prelude.{◌≡◌, ◌*◌, ◌≤◌, length};
ghost use Rattle.std.specs.List.{list_all};
ghost use Rattle.bpf_machine.specs.declared.TheConstants.{MAX_PACKET};
ghost use Rattle.hex.specs.Hex.{is_hex_digit};
ghost use Rattle.packet_verdict.specs.Malformed.{malformation_of};
ghost use Rattle.packet_verdict.specs.Verdict.{value_of, verdict};
ghost use Rattle.control_line.specs.Reading.{judged_answer, reading_answer, verdict_on};

use crate::packet::{is_digit, read_pairs};
use crate::reason::Reason;
use crate::reply::LineAnswer;
use bpf_machine::MAX_PACKET;
use member_group::Group;
use packet_verdict::{judge_by_config, malformation_of};
use std::alloc::Global;

fn judged(version: u64, groups: &[Group<Global>], packet: &[u8]) -> LineAnswer
    requires { length packet.now ≤ MAX_PACKET }
    ensures { result ≡ judged_answer version (malformation_of packet.now) (verdict value_of groups.now packet.now) }
{
    match malformation_of(packet) {
        Some(why) => LineAnswer::PacketMalformed { version, why },
        None => LineAnswer::PacketJudged {
            version,
            verdict: judge_by_config(groups, packet),
        },
    }
}

// Judges the packet that pairs of digits spell. The packet is written into the buffer first.
fn judge_pairs(
    version: u64,
    groups: &[Group<Global>],
    digits: &[u8],
    packet: &mut [u8],
) -> LineAnswer
    requires pairs { length digits.now ≡ 2 * length packet.old }
    requires packet { length packet.old ≤ MAX_PACKET }
    ensures { result ≡ reading_answer (λ program. program.words) version groups.now (verdict_on digits.now) }
{
    if !read_pairs(digits, packet) {
        return LineAnswer::Refused(Reason::BadForm);
    }
    judged(version, groups, packet)
}

fn are_digits(text: &[u8]) -> bool
    ensures { result ≡ list_all is_hex_digit text.now }
{
    text.iter().all(|byte| is_digit(*byte))
}

/// Judges the packet that digits spell, by the groups of a configuration at its version. Takes no memory.
// Not inlined, so that other lines do not pay for the buffer on the stack.
/// The reason: docs/INTERNALS.md, "The line `judge`".
#[inline(never)]
pub(crate) fn judge_digits(version: u64, groups: &[Group<Global>], digits: &[u8]) -> LineAnswer
    ensures { result ≡ reading_answer (λ program. program.words) version groups.now (verdict_on digits.now) }
{
    if digits.len() % 2 != 0 {
        return LineAnswer::Refused(Reason::BadForm);
    }
    let len = digits.len() / 2;
    if len <= MAX_PACKET {
        let mut packet = [0; MAX_PACKET];
        return judge_pairs(version, groups, digits, &mut packet[..len]);
    }
    if !are_digits(digits) {
        return LineAnswer::Refused(Reason::BadForm);
    }
    LineAnswer::Refused(Reason::PacketTooLong)
}
