//! How many words an image has.

ghost use Rattle.std.specs.Prelude.{◌≡◌, ◌+◌, ◌*◌, ◌≤◌, length};
ghost use Rattle.std.specs.List.{All};
ghost use Rattle.std.specs.Option.{option_map};
ghost use Rattle.member_group.specs.Charge.{charge_of, members_of};
ghost use Rattle.member_group.specs.Group.{IsConfig, IsGroup};
ghost use Rattle.config_image.specs.Image.{group_program_words, image, words_of};

use bpf_verify::{MAX_INSTRUCTIONS, Program};
use member_group::{
    Config, GROUP_LIMIT, GROUP_WORDS, Group, HEAD_WORDS, MEMBER_LIMIT, MEMBER_WORDS,
};
use std::alloc::Allocator;

// The words of a program, none if there is no program.
pub(crate) fn words<A: Allocator>(program: Option<&Program<A>>) -> &[u64]
    ensures words { result.now ≡ words_of (option_map (λ lent. lent.now) program.entry) }
    ensures limited { length result.now ≤ MAX_INSTRUCTIONS }
{
    match program {
        Some(program) => program.words(),
        None => &[],
    }
}

// How many words the programs of a group have.
pub(crate) fn programs_len<A: Allocator>(group: &Group<A>) -> usize
    ensures words { result ≡ length (group_program_words group.now) }
    ensures limited { result ≤ (1 + MEMBER_LIMIT) * MAX_INSTRUCTIONS }
{
    group.program_words()
}

// How many members the groups have in all.
pub(crate) fn members_in<A: Allocator>(groups: &[Group<A>]) -> usize
    requires few { length groups.now ≤ GROUP_LIMIT }
    requires groups { All IsGroup groups.now }
    ensures members { result ≡ members_of groups.now }
    ensures limited { result ≤ GROUP_LIMIT * MEMBER_LIMIT }
{
    let mut members = 0;
    for group in groups {
        members += group.members().len();
    }
    members
}

// How many words the image of groups has.
pub(crate) fn words_in<A: Allocator>(groups: &[Group<A>]) -> usize
    requires { IsConfig groups.now }
    ensures length { result ≡ length (image groups.now) }
{
    let mut len = HEAD_WORDS + GROUP_WORDS * groups.len();
    for group in groups {
        len += MEMBER_WORDS * group.members().len() + programs_len(group);
    }
    len
}

/// Returns the number of words of a configuration's image, which is at most the configuration's charge.
#[tactic(auto, using(crate::proofs::LengthLemmas::within_charge))]
pub fn image_len<A: Allocator>(config: &Config<A>) -> usize
    ensures length_exact { result ≡ length (image config.now) }
    ensures within_charge { result ≤ charge_of config.now }
{
    words_in(config.groups())
}
