//! The rules of a switch, read back line by line (docs/COMMANDS.md, "rules").

ghost use Rattle.std.specs.Prelude.{◌≡◌, ◌≤◌, ◌++◌, IfErr, IfOk, IfSome, IsTrue, MatchResult, OnOk, length};
ghost use Rattle.ipv4_fields.specs.Endpoint.{IsEndpoint};
ghost use Rattle.control_rules.specs.Failing.{StopsAsking};
ghost use Rattle.control_rules.specs.History.{IsReadLine, Learns};
ghost use Rattle.control_rules.specs.Rules.{rules_file};
ghost use Rattle.control_rules.specs.Text.{heading};
ghost use Rattle.control_rules.specs.body.Added.{Adds, AddsFilter, AddsGroup, AddsGroups, AddsMember, AddsMembers, AddsSelector, HasWordsOf, lock_rules};

use crate::ask_failure::AskFailure;
use crate::asking::{ask_group, ask_member, ask_shown, ask_words};
use crate::change_text::push_change;
use crate::client::Client;
use crate::replies::Shown;
use bpf_verify::{OutOfMemory, Program};
use control_client::Wire;
use control_line::Reply;
use ipv4_fields::Endpoint;
use member_group::Command;
use std::alloc::Global;

/// How often reading, or loading, begins again if the rules change meanwhile.
pub const AGAIN: u32 = 16;

/// The rules of a switch at a version.
#[derive(Drop)]
pub struct RulesRead {
    pub version: u64,
    /// A rules file: a comment with the measures of the configuration, and its rules.
    pub text: Vec<u8>,
}

// The words, if there are so many.
fn finished(words: Vec<u64>, count: u32) -> Option<Vec<u64>>
    ensures { IfSome result (λ all. (all.items ≡ words.items) × (length all.items ≡ count)) }
{
    if words.len() == count as usize {
        Some(words)
    } else {
        None
    }
}

// The words of a group's selector, or of a member's filter, at a version. Returns `None` if a reply is of another version, or shows
// no words.
fn read_program_words<D: Wire + Drop>(
    client: &mut Client<D>,
    version: u64,
    program: (Endpoint, Option<u32>),
    count: u32,
) -> Result<Option<Vec<u64>>, AskFailure>
    requires { IsEndpoint program.0 }
    ensures { MatchResult result
        (λ answer. Learns client.old client.new (λ history. IfSome answer (λ words. HasWordsOf (history version) program.0 program.1 count words.items)))
        (λ failure. StopsAsking IsReadLine failure client.old client.new) }
{
    let mut words = Vec::new(client.allocator());
    for _turn in 0..count {
        if words.len() >= count as usize {
            return Ok(finished(words, count));
        }
        let place = words.len() as u32;
        let Some(shown) = ask_words(client, program, place)? else {
            return Ok(None);
        };
        if shown.version != version {
            return Ok(None);
        }
        if shown.place != place {
            return Ok(None);
        }
        words.extend_from_slice(&shown.words)?;
    }
    Ok(finished(words, count))
}

// The program of these words. None also if they are no program.
fn read_program<D: Wire + Drop>(
    client: &mut Client<D>,
    version: u64,
    program: (Endpoint, Option<u32>),
    count: u32,
) -> Result<Option<Program<Global>>, AskFailure>
    requires { IsEndpoint program.0 }
    ensures { MatchResult result
        (λ answer. Learns client.old client.new (λ history. IfSome answer (λ it. HasWordsOf (history version) program.0 program.1 count it.words)))
        (λ failure. StopsAsking IsReadLine failure client.old client.new) }
{
    match read_program_words(client, version, program, count)? {
        None => Ok(None),
        Some(words) => Ok(Program::new(words).ok()),
    }
}

// Appends the line of a group's selector, if it has one. Returns false if a reply is of another version, or shows no words.
fn push_selector<D: Wire + Drop>(
    client: &mut Client<D>,
    version: u64,
    key: Endpoint,
    count: u32,
    text: &mut Vec<u8>,
) -> Result<bool, AskFailure>
    requires { IsEndpoint key }
    ensures { MatchResult result
        (λ done. Learns client.old client.new (λ history. IsTrue done → AddsSelector (history version) key count text.old.items text.new.items))
        (λ failure. StopsAsking IsReadLine failure client.old client.new) }
{
    if count == 0 {
        return Ok(true);
    }
    let Some(program) = read_program(client, version, (key, None), count)? else {
        return Ok(false);
    };
    let command = Command::SetSelector {
        key,
        program: &program,
    };
    push_change(client.allocator(), text, &command)?;
    Ok(true)
}

// The same for a member's filter.
fn push_filter<D: Wire + Drop>(
    client: &mut Client<D>,
    version: u64,
    owner: (Endpoint, u32),
    count: u32,
    text: &mut Vec<u8>,
) -> Result<bool, AskFailure>
    requires { IsEndpoint owner.0 }
    ensures { MatchResult result
        (λ done. Learns client.old client.new (λ history. IsTrue done → AddsFilter (history version) owner.0 owner.1 count text.old.items text.new.items))
        (λ failure. StopsAsking IsReadLine failure client.old client.new) }
{
    if count == 0 {
        return Ok(true);
    }
    let (key, member) = owner;
    let Some(program) = read_program(client, version, (key, Some(member)), count)? else {
        return Ok(false);
    };
    let command = Command::SetFilter {
        key,
        member,
        program: &program,
    };
    push_change(client.allocator(), text, &command)?;
    Ok(true)
}

// Appends the line that locks a member, if it is locked.
fn push_lock(
    alloc: Global,
    text: &mut Vec<u8>,
    owner: (Endpoint, u32),
    locked: bool,
) -> Result<(), OutOfMemory>
    ensures { OnOk result (Adds (lock_rules owner.0 owner.1 locked) text.old.items text.new.items) }
{
    if !locked {
        return Ok(());
    }
    let (key, member) = owner;
    let lock: Command<&Program<Global>> = Command::LockFilter { key, member };
    push_change(alloc, text, &lock)
}

// Appends the lines of a member.
fn push_member<D: Wire + Drop>(
    client: &mut Client<D>,
    version: u64,
    key: Endpoint,
    index: u32,
    text: &mut Vec<u8>,
) -> Result<bool, AskFailure>
    requires { IsEndpoint key }
    ensures { MatchResult result
        (λ done. Learns client.old client.new (λ history. IsTrue done → AddsMember (history version) key index text.old.items text.new.items))
        (λ failure. StopsAsking IsReadLine failure client.old client.new) }
{
    let Some(shown) = ask_member(client, key, index)? else {
        return Ok(false);
    };
    if shown.version != version {
        return Ok(false);
    }
    if shown.index != index {
        return Ok(false);
    }
    let (member, to) = (shown.id, shown.to);
    let alloc = client.allocator();
    let join: Command<&Program<Global>> = Command::Join { key, member, to };
    push_change(alloc, text, &join)?;
    if !push_filter(client, version, (key, member), shown.filter, text)? {
        return Ok(false);
    }
    push_lock(alloc, text, (key, member), shown.locked)?;
    Ok(true)
}

// Appends the lines of a group's members.
fn push_members<D: Wire + Drop>(
    client: &mut Client<D>,
    version: u64,
    key: Endpoint,
    members: u32,
    text: &mut Vec<u8>,
) -> Result<bool, AskFailure>
    requires { IsEndpoint key }
    ensures { MatchResult result
        (λ done. Learns client.old client.new (λ history. IsTrue done → AddsMembers (history version) key members text.old.items text.new.items))
        (λ failure. StopsAsking IsReadLine failure client.old client.new) }
{
    for index in 0..members {
        if !push_member(client, version, key, index, text)? {
            return Ok(false);
        }
    }
    Ok(true)
}

// Appends the lines of a group.
fn push_group<D: Wire + Drop>(
    client: &mut Client<D>,
    version: u64,
    index: u32,
    text: &mut Vec<u8>,
) -> Result<bool, AskFailure>
    ensures { MatchResult result
        (λ done. Learns client.old client.new (λ history. IsTrue done → AddsGroup (history version) index text.old.items text.new.items))
        (λ failure. StopsAsking IsReadLine failure client.old client.new) }
{
    let Some(shown) = ask_group(client, index)? else {
        return Ok(false);
    };
    if shown.version != version {
        return Ok(false);
    }
    if shown.index != index {
        return Ok(false);
    }
    let key = shown.key;
    let add: Command<&Program<Global>> = Command::AddGroup { key };
    push_change(client.allocator(), text, &add)?;
    if !push_selector(client, version, key, shown.selector, text)? {
        return Ok(false);
    }
    push_members(client, version, key, shown.members, text)
}

// Appends the lines of the groups.
fn push_groups<D: Wire + Drop>(
    client: &mut Client<D>,
    version: u64,
    groups: u32,
    text: &mut Vec<u8>,
) -> Result<bool, AskFailure>
    ensures { MatchResult result
        (λ done. Learns client.old client.new (λ history. IsTrue done → AddsGroups (history version) groups text.old.items text.new.items))
        (λ failure. StopsAsking IsReadLine failure client.old client.new) }
{
    for index in 0..groups {
        if !push_group(client, version, index, text)? {
            return Ok(false);
        }
    }
    Ok(true)
}

// The comment above the rules.
fn heading(alloc: Global, shown: Shown) -> Result<Vec<u8>, OutOfMemory>
    ensures { IfOk result (λ text. text.items ≡ heading shown.version shown.groups shown.members shown.charge) }
{
    let mut line = Reply::empty();
    line.push("# version ");
    line.push_number(shown.version);
    line.push(" groups ");
    line.push_number(u64::from(shown.groups));
    line.push(" members ");
    line.push_number(u64::from(shown.members));
    line.push(" charge ");
    line.push_number(u64::from(shown.charge));
    line.push("\n");
    Vec::from_slice(alloc, line.bytes())
}

// The rules of a version, or none if they changed while they were read.
fn read_once<D: Wire + Drop>(client: &mut Client<D>) -> Result<Option<RulesRead>, AskFailure>
    ensures { MatchResult result
        (λ answer. Learns client.old client.new (λ history. IfSome answer (λ rules. rules.text.items ≡ rules_file rules.version (history rules.version))))
        (λ failure. StopsAsking IsReadLine failure client.old client.new) }
{
    let Some(shown) = ask_shown(client)? else {
        return Ok(None);
    };
    let version = shown.version;
    let mut text = heading(client.allocator(), shown)?;
    if !push_groups(client, version, shown.groups, &mut text)? {
        return Ok(None);
    }
    Ok(Some(RulesRead { version, text }))
}

/// Reads the rules of a switch. If a reply is of another version, or shows nothing, begins again, at most `AGAIN` times. Returns `None`
/// if no attempt came to the end.
pub fn read_rules<D: Wire + Drop>(client: &mut Client<D>) -> Result<Option<RulesRead>, AskFailure>
    ensures read { IfOk result (λ answer. Learns client.old client.new (λ history.
        IfSome answer (λ rules. rules.text.items ≡ rules_file rules.version (history rules.version)))) }
    ensures failed { IfErr result (λ failure. StopsAsking IsReadLine failure client.old client.new) }
{
    for _turn in 0..=AGAIN {
        if let Some(rules) = read_once(client)? {
            return Ok(Some(rules));
        }
    }
    Ok(None)
}
