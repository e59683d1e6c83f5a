//! The replies to `show`, to lines that read, and to a change, as values (docs/COMMANDS.md, "Control lines").

ghost use Rattle.std.specs.Prelude.{◌≡◌, ◌++◌, IfOk, IfSome, IsTrue, List};
ghost use Rattle.std.specs.List.{AllZip};
ghost use Rattle.bpf_formats.specs.Hex.{SpellsDigits};
ghost use Rattle.control_rules.specs.Load.{IsPublishedReply};
ghost use Rattle.control_rules.specs.body.Replies.{IsCountRead, IsGroupReply, IsMemberReply, IsWordsReply};
ghost use Rattle.control_rules.specs.Shown.{IsShownReply};

use crate::fields::Fields;
use bpf_verify::OutOfMemory;
use control_line::WINDOW;
use ipv4_fields::Endpoint;
use std::alloc::Global;

/// The measures of a configuration, by the reply to `show`.
#[derive(Clone, Copy)]
pub struct Shown {
    pub version: u64,
    pub groups: u32,
    pub members: u32,
    pub charge: u32,
}

/// A group, by the reply to `group`.
#[derive(Clone, Copy)]
pub struct GroupShown {
    pub version: u64,
    pub index: u32,
    pub key: Endpoint,
    pub members: u32,
    /// How many words its selector has.
    pub selector: u32,
}

/// A member, by the reply to `member`.
#[derive(Clone, Copy)]
pub struct MemberShown {
    pub version: u64,
    pub index: u32,
    pub id: u32,
    pub to: Endpoint,
    /// How many words its filter has.
    pub filter: u32,
    pub locked: bool,
}

/// Words of a program, by the reply to `words`.
#[derive(Drop)]
pub(crate) struct WordsShown {
    pub(crate) version: u64,
    /// The place of the first of them.
    pub(crate) place: u32,
    /// How many words the program has.
    pub(crate) count: u32,
    pub(crate) words: Vec<u64>,
}

/// Reads a reply to `show`. Returns `None` if it has another form.
pub fn read_shown(reply: &[u8]) -> Option<Shown>
    ensures { IfSome result (IsShownReply reply.now) }
{
    let mut fields = Fields::of(reply);
    fields.word("version")?;
    let version = fields.version()?;
    fields.word("groups")?;
    let groups = fields.number()?;
    fields.word("members")?;
    let members = fields.number()?;
    fields.word("charge")?;
    let charge = fields.number()?;
    fields.done()?;
    Some(Shown {
        version,
        groups,
        members,
        charge,
    })
}

/// Reads a reply to `group I`.
pub(crate) fn read_group(reply: &[u8]) -> Option<GroupShown>
    ensures { IfSome result (IsGroupReply reply.now) }
{
    let mut fields = Fields::of(reply);
    fields.word("version")?;
    let version = fields.version()?;
    fields.word("group")?;
    let index = fields.number()?;
    fields.word("of")?;
    fields.number()?;
    let key = fields.endpoint()?;
    fields.word("members")?;
    let members = fields.number()?;
    fields.word("selector")?;
    let selector = fields.number()?;
    fields.done()?;
    Some(GroupShown {
        version,
        index,
        key,
        members,
        selector,
    })
}

/// Reads a reply to `member KEY I`.
pub(crate) fn read_member(reply: &[u8]) -> Option<MemberShown>
    ensures { IfSome result (IsMemberReply reply.now) }
{
    let mut fields = Fields::of(reply);
    fields.word("version")?;
    let version = fields.version()?;
    fields.word("member")?;
    let index = fields.number()?;
    fields.word("of")?;
    fields.number()?;
    let id = fields.number()?;
    let to = fields.endpoint()?;
    fields.word("filter")?;
    let filter = fields.number()?;
    fields.word("locked")?;
    let locked = fields.flag()?;
    fields.done()?;
    Some(MemberShown {
        version,
        index,
        id,
        to,
        filter,
        locked,
    })
}

// Appends the words that are left. Returns false if a field is no word, or if there are more words than one reply has.
fn push_words(fields: &mut Fields<'_>, words: &mut Vec<u64>) -> Result<bool, OutOfMemory>
    ensures { IfOk result (λ done. IsTrue done → (more : List _) × AllZip SpellsDigits fields.old more × (words.new.items ≡ words.old.items ++ more)) }
{
    for _word in 0..WINDOW {
        if fields.is_done() {
            return Ok(true);
        }
        let Some(word) = fields.digits() else {
            return Ok(false);
        };
        words.push(word)?;
    }
    Ok(fields.is_done())
}

// The version, and the number of words, before the words of a reply.
fn read_count(fields: &mut Fields<'_>) -> Option<(u64, u32, u32)>
    ensures { IfSome result (λ read. IsCountRead fields.old read.0 read.1 read.2 fields.new) }
{
    fields.word("version")?;
    let version = fields.version()?;
    fields.word("words")?;
    let place = fields.number()?;
    fields.word("of")?;
    let count = fields.number()?;
    Some((version, place, count))
}

/// Reads a reply to `words KEY PROGRAM P`.
pub(crate) fn read_words(alloc: Global, reply: &[u8]) -> Result<Option<WordsShown>, OutOfMemory>
    ensures { IfOk result (λ shown. IfSome shown (IsWordsReply reply.now)) }
{
    let mut fields = Fields::of(reply);
    let Some((version, place, count)) = read_count(&mut fields) else {
        return Ok(None);
    };
    let mut words = Vec::new(alloc);
    if !push_words(&mut fields, &mut words)? {
        return Ok(None);
    }
    Ok(Some(WordsShown {
        version,
        place,
        count,
        words,
    }))
}

/// Reads the reply to a change that was published: its version.
pub(crate) fn read_published(reply: &[u8]) -> Option<u64>
    ensures { IfSome result (IsPublishedReply reply.now) }
{
    let mut fields = Fields::of(reply);
    fields.word("ok")?;
    fields.word("version")?;
    let version = fields.version()?;
    fields.done()?;
    Some(version)
}
