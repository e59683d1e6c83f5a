//! The numbers that are counted when a group is made: its charge, and the words of its programs.

ghost use Rattle.std.specs.Prelude.{◌≡◌, ◌+◌, ◌*◌, ◌<◌, ◌≤◌, ◌^◌, length};
ghost use Rattle.std.specs.List.{sum_by};
ghost use Rattle.std.specs.Option.{option_to_list};
ghost use Rattle.bpf_verify.specs.declared.TheConstants.{MAX_INSTRUCTIONS};
ghost use Rattle.ipv4_fields.specs.declared.endpoint.Endpoint.{Endpoint};
ghost use Rattle.member_group.specs.Charge.{charge_of_group, programs_of_group};
ghost use Rattle.member_group.specs.declared.TheConstants.{MEMBER_LIMIT};

use crate::member::Member;
use crate::{GROUP_WORDS, MEMBER_WORDS};
use bpf_verify::Program;
use std::alloc::Allocator;

pub(crate) fn charge_of_program<A: Allocator>(program: &Option<Program<A>>) -> u64
    ensures charge { result ≡ sum_by (λ one. one.charge) (option_to_list program.now) }
    ensures bounded { result ≤ MAX_INSTRUCTIONS }
{
    match program {
        Some(program) => u64::from(program.charge()),
        None => 0,
    }
}

pub(crate) fn words_of_program<A: Allocator>(program: &Option<Program<A>>) -> usize
    ensures words { result ≡ sum_by (λ one. length one.words) (option_to_list program.now) }
    ensures bounded { result ≤ MAX_INSTRUCTIONS }
{
    match program {
        Some(program) => program.words().len(),
        None => 0,
    }
}

/// Returns the charge of a group with these parts, whatever its key.
pub(crate) fn charge_of_parts<A: Allocator>(
    selector: &Option<Program<A>>,
    members: &[Member<Program<A>>],
) -> u64
    requires few { length members.now ≤ MEMBER_LIMIT }
    ensures charge { (key : Endpoint) → result ≡ charge_of_group (record { key = key; selector = selector.now; members = members.now }) }
    ensures bounded { result < 2 ^ 32 }
{
    let mut charge = GROUP_WORDS as u64 + charge_of_program(selector);
    for member in members {
        charge += MEMBER_WORDS as u64 + charge_of_program(&member.filter);
    }
    charge
}

/// Returns the number of words of the programs of such a group.
pub(crate) fn words_of_parts<A: Allocator>(
    selector: &Option<Program<A>>,
    members: &[Member<Program<A>>],
) -> usize
    requires few { length members.now ≤ MEMBER_LIMIT }
    ensures words { (key : Endpoint) → result ≡ sum_by (λ program. length program.words) (programs_of_group (record { key = key; selector = selector.now; members = members.now })) }
    ensures limited { result ≤ (1 + MEMBER_LIMIT) * MAX_INSTRUCTIONS }
{
    let mut words = words_of_program(selector);
    for member in members {
        words += words_of_program(&member.filter);
    }
    words
}
