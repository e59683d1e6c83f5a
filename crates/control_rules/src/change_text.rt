//! The text of commands, as control lines (docs/COMMANDS.md, "Control lines").

ghost use Rattle.std.specs.Prelude.{◌≡◌, ◌≤◌, ◌++◌, ◌∷◌, [], IfOk, OnOk, codes, length};
ghost use Rattle.ipv4_fields.specs.Endpoint.{endpoint_text};
ghost use Rattle.config_diff.specs.Words.{words_of_commands};
ghost use Rattle.control_rules.specs.Text.{change_text, changes_text, keyed, numbered};
ghost use Rattle.control_rules.specs.body.Start.{line_of, program_in, start_text};

use bpf_asm::print_in_line;
use bpf_verify::{OutOfMemory, Program};
use control_line::Reply;
use ipv4_fields::Endpoint;
use member_group::Command;
use std::alloc::{Allocator, Global};

// A word and a group's key.
fn keyed(word: &str, key: Endpoint) -> Reply
    requires { length word.now ≤ 8 }
    ensures text { result ≡ keyed word.now key }
    ensures short { length result ≤ 36 }
{
    let mut line = Reply::empty();
    line.push(word);
    line.push(" ");
    key.append_to(&mut line);
    line
}

// A word, a group's key and a member's number.
fn numbered(word: &str, key: Endpoint, member: u32) -> Reply
    requires { length word.now ≤ 8 }
    ensures text { result ≡ numbered word.now key member }
    ensures short { length result ≤ 64 }
{
    let mut line = keyed(word, key);
    line.push(" ");
    line.push_number(u64::from(member));
    line
}

// A line with this end.
fn ended(mut line: Reply, end: &str) -> Reply
    requires line { length line ≤ 64 }
    requires end { length end.now ≤ 8 }
    ensures { result ≡ line ++ end.now }
{
    line.push(end);
    line
}

fn joined(key: Endpoint, member: u32, to: Endpoint) -> Reply
    ensures { result ≡ numbered (codes "join") key member ++ (codes " " ++ endpoint_text to) }
{
    let mut line = numbered("join", key, member);
    line.push(" ");
    to.append_to(&mut line);
    line
}

// The line of a command, without its program.
fn start_of<B: Allocator>(command: &Command<&Program<B>>) -> Reply
    ensures { result ≡ start_text command.now }
{
    match command {
        Command::AddGroup { key } => keyed("add", *key),
        Command::RemoveGroup { key } => keyed("remove", *key),
        Command::Join { key, member, to } => joined(*key, *member, *to),
        Command::Leave { key, member } => numbered("leave", *key, *member),
        Command::SetSelector { key, program: _ } => ended(keyed("selector", *key), " asm "),
        Command::ClearSelector { key } => ended(keyed("selector", *key), " none"),
        Command::SetFilter {
            key,
            member,
            program: _,
        } => ended(numbered("filter", *key, *member), " asm "),
        Command::ClearFilter { key, member } => ended(numbered("filter", *key, *member), " none"),
        Command::LockFilter { key, member } => numbered("lock", *key, *member),
    }
}

fn program_in<'a, B: Allocator>(command: &Command<&'a Program<B>>) -> Option<&'a Program<B>>
    ensures { result ≡ program_in command.now }
{
    match command {
        Command::SetSelector { key: _, program } => Some(*program),
        Command::SetFilter {
            key: _,
            member: _,
            program,
        } => Some(*program),
        _ => None,
    }
}

/// Appends the line of a command, with its LF.
pub(crate) fn push_change<B: Allocator>(
    alloc: Global,
    text: &mut Vec<u8>,
    command: &Command<&Program<B>>,
) -> Result<(), OutOfMemory>
    ensures { OnOk result (text.new.items ≡ text.old.items ++ line_of command.now) }
{
    text.extend_from_slice(start_of(command).bytes())?;
    if let Some(program) = program_in(command) {
        text.extend_from_slice(print_in_line(alloc, program)?.as_bytes())?;
    }
    text.extend_from_slice(b"\n".as_slice())
}

/// Returns the lines of commands, each with its LF.
pub fn changes_text<B: Allocator>(
    alloc: Global,
    commands: &[Command<&Program<B>>],
) -> Result<Vec<u8>, OutOfMemory>
    ensures { IfOk result (λ text. text.items ≡ changes_text (words_of_commands commands.now)) }
{
    let mut text = Vec::new(alloc);
    for command in commands {
        push_change(alloc, &mut text, command)?;
    }
    Ok(text)
}
