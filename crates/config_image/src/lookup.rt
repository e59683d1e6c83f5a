//! Lookups in words that begin with an image, read one at a time.

ghost use Rattle.std.specs.Prelude.{◌≡◌, ◌+◌, ◌*◌, ◌<◌, IfSome, IsNone, List, None};
ghost use Rattle.member_group.specs.declared.member.Member.{Member};
ghost use Rattle.bpf_verify.specs.Program.{ProgramValue};
ghost use Rattle.config_image.specs.Image.{Group};
ghost use Rattle.config_image.specs.Lookup.{BeginsWithImage, HasGroup, HasMember, IsGroupFound, IsMemberFound, IsProgramFound, IsRecordOf, members_at};

use bpf_insn::Words;
use ipv4_fields::Endpoint;
use member_group::{GROUP_LIMIT, GROUP_WORDS, HEAD_WORDS, MEMBER_WORDS};

/// A group that was found by its key.
#[derive(Clone, Copy, Debug, PartialEq, Eq)]
pub struct FoundGroup {
    /// Its index, counted from 0.
    pub index: usize,
    /// The number of its members.
    pub members: usize,
}

/// A member that was found by its indexes.
#[derive(Clone, Copy, Debug, PartialEq, Eq)]
pub struct MemberEntry {
    /// Its number.
    pub id: u32,
    /// The destination of its packets.
    pub to: Endpoint,
}

/// The place of a program's words.
#[derive(Clone, Copy, Debug, PartialEq, Eq)]
pub struct ProgramPlace {
    /// The place of the first word, counted from 0.
    pub from: usize,
    /// The number of words, at least 1.
    pub len: usize,
}

// The place that a reference names.
fn place(reference: u64) -> Option<ProgramPlace>
    ensures none { reference ≡ 0 → result ≡ None }
    ensures some { IfSome result (λ place. (reference ≡ place.from * 65536 + place.len) × (place.len < 65536)) }
    ensures found { IsNone result → reference ≡ 0 }
{
    if reference == 0 {
        None
    } else {
        Some(ProgramPlace {
            from: (reference >> 16) as usize,
            len: (reference & 0xffff) as usize,
        })
    }
}

// The place of a group's record.
fn record(group: usize) -> usize
    requires { group < GROUP_LIMIT }
    ensures { result ≡ HEAD_WORDS + GROUP_WORDS * group }
{
    HEAD_WORDS + GROUP_WORDS * group
}

// The place of a group's first member record.
fn members_place<W: Words>(words: &mut W, group: usize) -> usize
    requires { (config : List Group) × (at : Group) × BeginsWithImage (W.words words.old) config × HasGroup config group at }
    ensures place { (config : List Group) (at : Group) → BeginsWithImage (W.words words.old) config → HasGroup config group at → result ≡ members_at config group }
    ensures words_kept { W.words words.new ≡ W.words words.old }
    ensures rest_kept { W.rest words.new ≡ W.rest words.old }
{
    words.word(record(group) + 1) as usize
}

/// Finds the group of a key in words that begin with an image, by binary search over the sorted keys: of 64 keys it reads at most
/// seven. Takes no memory.
pub fn find_group<W: Words>(words: &mut W, key: Endpoint) -> Option<FoundGroup>
    requires { (config : List Group) × BeginsWithImage (W.words words.old) config }
    ensures group_found { (config : List Group) → BeginsWithImage (W.words words.old) config → IsGroupFound key config result }
    ensures words_kept { W.words words.new ≡ W.words words.old }
    ensures rest_kept { W.rest words.new ≡ W.rest words.old }
{
    let number = key.number();
    let mut low = 0;
    let mut high = words.word(1) as usize;
    'halving: while low < high {
        let middle = low + (high - low) / 2;
        let other = words.word(record(middle));
        if other == number {
            let members = words.word(record(middle) + 2) as usize;
            return Some(FoundGroup {
                index: middle,
                members,
            });
        }
        if other < number {
            low = middle + 1;
        } else {
            high = middle;
        }
    }
    None
}

// The place of a member's record.
fn member_place<W: Words>(words: &mut W, group: usize, index: usize) -> usize
    requires { (config : List Group) × (member : Member ProgramValue) × BeginsWithImage (W.words words.old) config × HasMember config group index member }
    ensures place { (config : List Group) (member : Member ProgramValue) → BeginsWithImage (W.words words.old) config → HasMember config group index member → result ≡ members_at config group + MEMBER_WORDS * index }
    ensures words_kept { W.words words.new ≡ W.words words.old }
    ensures rest_kept { W.rest words.new ≡ W.rest words.old }
{
    members_place(words, group) + MEMBER_WORDS * index
}

// Reads the member from its record.
fn read_member<W: Words>(words: &mut W, entry: usize) -> MemberEntry
    requires { (member : Member ProgramValue) × IsRecordOf (W.words words.old) entry member }
    ensures member_found { (member : Member ProgramValue) → IsRecordOf (W.words words.old) entry member → IsMemberFound member result }
    ensures words_kept { W.words words.new ≡ W.words words.old }
    ensures rest_kept { W.rest words.new ≡ W.rest words.old }
{
    let id = words.word(entry) as u32;
    let to = Endpoint::from_number(words.word(entry + 1));
    MemberEntry { id, to }
}

fn read_filter<W: Words>(words: &mut W, entry: usize) -> Option<ProgramPlace>
    requires { (member : Member ProgramValue) × IsRecordOf (W.words words.old) entry member }
    ensures filter_found { (member : Member ProgramValue) → IsRecordOf (W.words words.old) entry member → IsProgramFound (W.words words.old) member.filter result }
    ensures words_kept { W.words words.new ≡ W.words words.old }
    ensures rest_kept { W.rest words.new ≡ W.rest words.old }
{
    place(words.word(entry + 2))
}

/// Returns the member at an index of a group, in words that begin with an image.
///
/// `group` and `index` are counted from 0. Reads three words. Takes no memory. To judge a packet, which needs the filter too, use
/// `member_with_filter`. The member's lock is not read: no verdict depends on it.
pub fn member_at<W: Words>(words: &mut W, group: usize, index: usize) -> MemberEntry
    requires { (config : List Group) × (member : Member ProgramValue) × BeginsWithImage (W.words words.old) config × HasMember config group index member }
    ensures member_found { (config : List Group) (member : Member ProgramValue) → BeginsWithImage (W.words words.old) config → HasMember config group index member → IsMemberFound member result }
    ensures words_kept { W.words words.new ≡ W.words words.old }
    ensures rest_kept { W.rest words.new ≡ W.rest words.old }
{
    let entry = member_place(words, group, index);
    read_member(words, entry)
}

/// Returns the place of the words of a group's selector, in words that begin with an image.
///
/// `group` is counted from 0. Reads one word. Takes no memory.
pub fn selector_of<W: Words>(words: &mut W, group: usize) -> Option<ProgramPlace>
    requires { (config : List Group) × (at : Group) × BeginsWithImage (W.words words.old) config × HasGroup config group at }
    ensures selector_found { (config : List Group) (at : Group) → BeginsWithImage (W.words words.old) config → HasGroup config group at → IsProgramFound (W.words words.old) at.selector result }
    ensures words_kept { W.words words.new ≡ W.words words.old }
    ensures rest_kept { W.rest words.new ≡ W.rest words.old }
{
    place(words.word(record(group) + 3))
}

/// Returns the place of the words of a member's filter, in words that begin with an image.
///
/// `group` and `index` are counted from 0. Reads two words. Takes no memory. To judge a packet, which needs the member too, use
/// `member_with_filter`.
pub fn filter_of<W: Words>(words: &mut W, group: usize, index: usize) -> Option<ProgramPlace>
    requires { (config : List Group) × (member : Member ProgramValue) × BeginsWithImage (W.words words.old) config × HasMember config group index member }
    ensures filter_found { (config : List Group) (member : Member ProgramValue) → BeginsWithImage (W.words words.old) config → HasMember config group index member → IsProgramFound (W.words words.old) member.filter result }
    ensures words_kept { W.words words.new ≡ W.words words.old }
    ensures rest_kept { W.rest words.new ≡ W.rest words.old }
{
    let entry = member_place(words, group, index);
    read_filter(words, entry)
}

/// Returns the member at an index of a group, and the place of its filter's words: both as `member_at` and `filter_of` do.
///
/// Reads four words, each once. Takes no memory.
pub fn member_with_filter<W: Words>(
    words: &mut W,
    group: usize,
    index: usize,
) -> (MemberEntry, Option<ProgramPlace>)
    requires { (config : List Group) × (member : Member ProgramValue) × BeginsWithImage (W.words words.old) config × HasMember config group index member }
    ensures member_found { (config : List Group) (member : Member ProgramValue) → BeginsWithImage (W.words words.old) config → HasMember config group index member → IsMemberFound member result.0 }
    ensures filter_found { (config : List Group) (member : Member ProgramValue) → BeginsWithImage (W.words words.old) config → HasMember config group index member → IsProgramFound (W.words words.old) member.filter result.1 }
    ensures words_kept { W.words words.new ≡ W.words words.old }
    ensures rest_kept { W.rest words.new ≡ W.rest words.old }
{
    let entry = member_place(words, group, index);
    let member = read_member(words, entry);
    (member, read_filter(words, entry))
}
