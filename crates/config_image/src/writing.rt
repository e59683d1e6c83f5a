//! The records of an image, word by word.

ghost use Rattle.std.specs.Prelude.{◌≡◌, ◌+◌, ◌++◌, ◌∷◌, ◌*◌, ◌/◌, ◌<◌, ◌≤◌, List, [], length, ℕ};
ghost use Rattle.std.specs.List.{All};
ghost use Rattle.member_group.specs.Group.{IsGroup};
ghost use Rattle.config_image.specs.Image.{all_member_records, filter_words, group_records, member_records};

use crate::size::{programs_len, words};
use crate::word::{PLACE_LIMIT, lock_word, program_reference};
use bpf_verify::{MAX_INSTRUCTIONS, Program};
use member_group::{GROUP_LIMIT, Group, MEMBER_LIMIT, MEMBER_WORDS, Member};
use std::alloc::Allocator;

/// A sink that takes words one after the other.
pub trait WordSink {
    ghost taken: { Self → List ℕ };

    ghost room: { Self → ℕ };

    /// Takes the next word.
    fn put(&mut self, word: u64)
        requires { 0 < room self.old }
        ensures taken { taken self.new ≡ taken self.old ++ word ∷ [] }
        ensures room { room self.new + 1 ≡ room self.old };
}

pub(crate) fn write_words<S: WordSink>(words: &[u64], sink: &mut S)
    requires room { length words.now ≤ S.room sink.old }
    ensures taken { S.taken sink.new ≡ S.taken sink.old ++ words.now }
    ensures room { S.room sink.new + length words.now ≡ S.room sink.old }
{
    for word in words {
        sink.put(*word);
    }
}

// Writes the groups' records, if member records begin at `members_at` and programs at `programs_at`.
pub(crate) fn write_group_records<A: Allocator, S: WordSink>(
    groups: &[Group<A>],
    members_at: usize,
    programs_at: usize,
    sink: &mut S,
)
    requires few { length groups.now ≤ GROUP_LIMIT }
    requires groups { All IsGroup groups.now }
    requires members { members_at ≤ PLACE_LIMIT / 4 }
    requires programs { programs_at ≤ PLACE_LIMIT / 4 }
    requires room { length (group_records members_at programs_at groups.now) ≤ S.room sink.old }
    ensures taken { S.taken sink.new ≡ S.taken sink.old ++ group_records members_at programs_at groups.now }
    ensures room { S.room sink.new + length (group_records members_at programs_at groups.now) ≡ S.room sink.old }
{
    let mut members = members_at;
    let mut place = programs_at;
    for group in groups {
        let count = group.members().len();
        let selector = program_reference(place, group.selector());
        let record = [group.key().number(), members as u64, count as u64, selector];
        write_words(&record, sink);
        members += MEMBER_WORDS * count;
        place += programs_len(group);
    }
}

// Writes a group's member records, if the filters begin at `filters_at`. Returns the end of the filters.
fn write_member_records<A: Allocator, S: WordSink>(
    members: &[Member<Program<A>>],
    filters_at: usize,
    sink: &mut S,
) -> usize
    requires few { length members.now ≤ MEMBER_LIMIT }
    requires filters { filters_at ≤ PLACE_LIMIT / 2 }
    requires room { length (member_records filters_at members.now) ≤ S.room sink.old }
    ensures taken { S.taken sink.new ≡ S.taken sink.old ++ member_records filters_at members.now }
    ensures room { S.room sink.new + length (member_records filters_at members.now) ≡ S.room sink.old }
    ensures behind { result ≡ filters_at + length (filter_words members.now) }
    ensures limited { result ≤ filters_at + MEMBER_LIMIT * MAX_INSTRUCTIONS }
{
    let mut place = filters_at;
    for member in members {
        let filter = program_reference(place, member.filter.as_ref());
        let locked = lock_word(member.locked);
        let record = [u64::from(member.id), member.to.number(), filter, locked];
        write_words(&record, sink);
        place += words(member.filter.as_ref()).len();
    }
    place
}

// Writes all member records, if the programs begin at `programs_at`.
pub(crate) fn write_members<A: Allocator, S: WordSink>(
    groups: &[Group<A>],
    programs_at: usize,
    sink: &mut S,
)
    requires few { length groups.now ≤ GROUP_LIMIT }
    requires groups { All IsGroup groups.now }
    requires programs { programs_at ≤ PLACE_LIMIT / 4 }
    requires room { length (all_member_records programs_at groups.now) ≤ S.room sink.old }
    ensures taken { S.taken sink.new ≡ S.taken sink.old ++ all_member_records programs_at groups.now }
    ensures room { S.room sink.new + length (all_member_records programs_at groups.now) ≡ S.room sink.old }
{
    let mut place = programs_at;
    for group in groups {
        let filters_at = place + words(group.selector()).len();
        place = write_member_records(group.members(), filters_at, sink);
    }
}
