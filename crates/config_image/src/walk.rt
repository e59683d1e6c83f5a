//! The programs of a configuration, one after the other.

ghost use Rattle.std.specs.Prelude.{◌≡◌};
ghost use Rattle.std.specs.Iterator.{YieldsFirstBy, item_count};
ghost use Rattle.config_image.specs.Walk.{words_of_programs};

use bpf_verify::Program;
use member_group::{Config, Group, Member};
use std::alloc::Allocator;
use std::marker::Model;

/// A walk that lends the words of programs in the order in which an image has them: group by group, the selector and then the
/// filters in index order. In a contract it is the list of the programs that are left, each a list of its words. Takes no memory.
#[derive(Drop)]
pub struct Programs<'a, A: Allocator> {
    members: &'a [Member<Program<A>>],
    groups: &'a [Group<A>],
}

impl<'a, A: Allocator> Model for Programs<'a, A> {
    ghost use Rattle.std.specs.Prelude.{List, ℕ};

    ghost Value = { List (List ℕ) };

    ghost use Rattle.config_image.specs.Walk.{programs_left};

    ghost view = { programs_left };
}

impl<'a, A: Allocator> Programs<'a, A> {
    /// Begins a walk over all programs of a configuration.
    pub fn of(config: &'a Config<A>) -> Programs<'a, A>
        ensures all { result ≡ words_of_programs config.now }
    {
        Programs::of_groups(config.groups())
    }

    pub(crate) fn of_groups(groups: &'a [Group<A>]) -> Programs<'a, A>
        ensures all { result ≡ words_of_programs groups.now }
    {
        Programs {
            members: &[],
            groups,
        }
    }
}

impl<'a, A: Allocator> Iterator for Programs<'a, A> {
    type Item = &'a [u64];

    ghost next_gives = { YieldsFirstBy (λ words. words.now) (λ left. left) };

    ghost remaining = { item_count (λ left. left) };

    fn next(&mut self) -> Option<&'a [u64]> {
        'groups: loop {
            'members: while let Some((member, others)) = self.members.split_first() {
                self.members = others;
                if let Some(filter) = &member.filter {
                    return Some(filter.words());
                }
            }
            let (group, others) = self.groups.split_first()?;
            self.groups = others;
            self.members = group.members();
            if let Some(selector) = group.selector() {
                return Some(selector.words());
            }
        }
    }
}
