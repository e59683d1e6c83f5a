//! The request of a control line, read from its text (docs/COMMANDS.md, "Control lines").

ghost use Rattle.std.specs.Prelude.{◌≡◌, ◌≢◌, ◌<◌, ◌^◌, ◌++◌, ◌∷◌, ◌↔◌, IsTrue, List, MatchOption, None, Option, codes, decimal, option_map, ℕ};
ghost use Rattle.ipv4_fields.specs.Endpoint.{IsEndpoint, endpoint_text};
ghost use Rattle.ipv4_fields.specs.Cut.{Lacks};
ghost use Rattle.filter_program.specs.Program.{Source};
ghost use Rattle.control_line.specs.Request.{Spells, read, spaced};
ghost use Rattle.control_line.specs.body.Reading.{IsCommandRead, IsMemberWord, IsRead, IsReadingRead, program_fields, reading_of, source_of};

use crate::reading::Reading;
use ipv4_fields::{Endpoint, read_number, split_at};
use member_group::Command;

/// The text of a program.
#[derive(Clone, Copy)]
pub(crate) enum ProgramText<'a> {
    Assembly(&'a [u8]),
    Expression(&'a [u8]),
}

/// The request of a line.
#[derive(Drop)]
pub(crate) enum Request<'a> {
    /// A change of the configuration, to be published.
    Change(Command<ProgramText<'a>>),
    /// The version and the measures of the current configuration.
    Show,
    /// A part of the current configuration.
    Read(Reading<'a>),
    /// The versions that may be reused.
    Sweep,
}

/// Tests whether a text, or a field of it, is this word.
pub fn is_word(field: &[u8], word: &str) -> bool
    ensures { IsTrue result ↔ (field.now ≡ word.now) }
{
    field == word.as_bytes()
}

// The program after the other fields, or the word for none.
fn read_program(fields: &[u8]) -> Option<Option<ProgramText<'_>>>
    ensures { MatchOption result
        ((program : Option Source) → fields.now ≢ spaced (program_fields program))
        (λ program. fields.now ≡ spaced (program_fields (option_map source_of program))) }
{
    if is_word(fields, "none") {
        return Some(None);
    }
    let (kind, text) = split_at(b' ', fields)?;
    if is_word(kind, "asm") {
        return Some(Some(ProgramText::Assembly(text)));
    }
    if is_word(kind, "expr") {
        return Some(Some(ProgramText::Expression(text)));
    }
    None
}

fn read_selector<'a>(key: Endpoint, fields: &'a [u8]) -> Option<Command<ProgramText<'a>>>
    requires { IsEndpoint key }
    ensures { IsCommandRead (codes "selector " ++ (endpoint_text key ++ 32 ∷ fields.now)) result }
{
    match read_program(fields)? {
        None => Some(Command::ClearSelector { key }),
        Some(ProgramText::Assembly(text)) => Some(Command::SetSelector {
            key,
            program: ProgramText::Assembly(text),
        }),
        Some(ProgramText::Expression(_)) => None,
    }
}

fn read_filter<'a>(key: Endpoint, member: u32, fields: &'a [u8]) -> Option<Command<ProgramText<'a>>>
    requires { IsEndpoint key }
    ensures { IsCommandRead (codes "filter " ++ (endpoint_text key ++ 32 ∷ (decimal member ++ 32 ∷ fields.now))) result }
{
    match read_program(fields)? {
        None => Some(Command::ClearFilter { key, member }),
        Some(program) => Some(Command::SetFilter {
            key,
            member,
            program,
        }),
    }
}

// A line of a key and a member's number.
fn read_number_line<'a>(
    word: &'a [u8],
    key: Endpoint,
    number: &'a [u8],
) -> Option<Command<ProgramText<'a>>>
    requires key { IsEndpoint key }
    requires word { IsMemberWord word.now }
    requires last { Lacks 32 number.now }
    ensures { IsCommandRead (word.now ++ 32 ∷ (endpoint_text key ++ 32 ∷ number.now)) result }
{
    let member = read_number(u32::MAX, number)?;
    if is_word(word, "leave") {
        return Some(Command::Leave { key, member });
    }
    if is_word(word, "lock") {
        return Some(Command::LockFilter { key, member });
    }
    None
}

// A line that names a member, after its first two fields.
fn read_member_line<'a>(
    word: &'a [u8],
    key: Endpoint,
    fields: &'a [u8],
) -> Option<Command<ProgramText<'a>>>
    requires key { IsEndpoint key }
    requires word { IsMemberWord word.now }
    ensures { IsCommandRead (word.now ++ 32 ∷ (endpoint_text key ++ 32 ∷ fields.now)) result }
{
    let Some((id, rest)) = split_at(b' ', fields) else {
        return read_number_line(word, key, fields);
    };
    let member = read_number(u32::MAX, id)?;
    if is_word(word, "join") {
        let to = Endpoint::from_text(rest)?;
        return Some(Command::Join { key, member, to });
    }
    if is_word(word, "filter") {
        return read_filter(key, member, rest);
    }
    None
}

fn read_command<'a>(word: &'a [u8], fields: &'a [u8]) -> Option<Command<ProgramText<'a>>>
    requires { Lacks 32 word.now }
    ensures { IsCommandRead (word.now ++ 32 ∷ fields.now) result }
{
    if is_word(word, "add") {
        let key = Endpoint::from_text(fields)?;
        return Some(Command::AddGroup { key });
    }
    if is_word(word, "remove") {
        let key = Endpoint::from_text(fields)?;
        return Some(Command::RemoveGroup { key });
    }
    let (key, fields) = split_at(b' ', fields)?;
    let key = Endpoint::from_text(key)?;
    if is_word(word, "selector") {
        return read_selector(key, fields);
    }
    read_member_line(word, key, fields)
}

fn read_group(fields: &[u8]) -> Option<Reading<'_>>
    ensures { IsReadingRead (codes "group " ++ fields.now) result }
{
    let index = read_number(u32::MAX, fields)?;
    Some(Reading::Group { index })
}

fn read_member(fields: &[u8]) -> Option<Reading<'_>>
    ensures { IsReadingRead (codes "member " ++ fields.now) result }
{
    let (key, index) = split_at(b' ', fields)?;
    let key = Endpoint::from_text(key)?;
    let index = read_number(u32::MAX, index)?;
    Some(Reading::Member { key, index })
}

fn read_words(fields: &[u8]) -> Option<Reading<'_>>
    ensures { IsReadingRead (codes "words " ++ fields.now) result }
{
    let (key, fields) = split_at(b' ', fields)?;
    let key = Endpoint::from_text(key)?;
    let (program, place) = split_at(b' ', fields)?;
    let place = read_number(u32::MAX, place)?;
    if is_word(program, "selector") {
        return Some(Reading::Selector { key, place });
    }
    let member = read_number(u32::MAX, program)?;
    Some(Reading::Filter { key, member, place })
}

fn read_judge(digits: &[u8]) -> Reading<'_>
    ensures { Spells (codes "judge " ++ digits.now) (read (reading_of result)) }
{
    Reading::Judge { digits }
}

fn read_fields<'a>(word: &'a [u8], fields: &'a [u8]) -> Option<Request<'a>>
    requires { Lacks 32 word.now }
    ensures { IsRead (word.now ++ 32 ∷ fields.now) result }
{
    if is_word(word, "group") {
        return Some(Request::Read(read_group(fields)?));
    }
    if is_word(word, "member") {
        return Some(Request::Read(read_member(fields)?));
    }
    if is_word(word, "words") {
        return Some(Request::Read(read_words(fields)?));
    }
    if is_word(word, "judge") {
        return Some(Request::Read(read_judge(fields)));
    }
    Some(Request::Change(read_command(word, fields)?))
}

fn read_word(line: &[u8]) -> Option<Request<'_>>
    requires { Lacks 32 line.now }
    ensures { IsRead line.now result }
{
    if is_word(line, "show") {
        return Some(Request::Show);
    }
    if is_word(line, "sweep") {
        return Some(Request::Sweep);
    }
    None
}

/// Reads the request of a line. Returns `None` if it is no line of docs/COMMANDS.md, "Control lines".
pub(crate) fn read_request(line: &[u8]) -> Option<Request<'_>>
    ensures { IsRead line.now result }
{
    match split_at(b' ', line) {
        None => read_word(line),
        Some((word, fields)) => read_fields(word, fields),
    }
}

/// Reads the change that a line asks for.
pub(crate) fn read_change(line: &[u8]) -> Option<Command<ProgramText<'_>>>
    ensures { IsCommandRead line.now result }
{
    match read_request(line)? {
        Request::Change(command) => Some(command),
        Request::Show => None,
        Request::Read(_reading) => None,
        Request::Sweep => None,
    }
}
