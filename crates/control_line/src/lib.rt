//! Control requests, one reply each (docs/COMMANDS.md, "Control lines").
//!
//! A request is a line, or a block: several lines as one change. A request changes the configuration and publishes its next version,
//! or reads the current one, or sweeps. The text is read, the programs are made and all memory is taken before the operator does
//! anything.
//!
//! `Reason` is why a line is refused, or a command of the program (docs/COMMANDS.md, "Refusals").
#![tactic(auto)]

ghost use Rattle.std.specs.Prelude.{◌≡◌, ◌≤◌, List, [], IfErr, IfOk, OnErr, ℕ};
ghost use Rattle.control_line.specs.declared.reply.LineAnswer.{LineAnswer as LineAnswerValue};
ghost use Rattle.control_line.specs.Agrees.{Agrees, AgreesNow, TextConfig};
ghost use Rattle.control_line.specs.Answer.{AsksForChange, DoesNothing, HasOneAnswer, HasOneAnswerBy, IsAnswered, IsReadBack, IsRefusedReply, IsReplyTo, LeavesConfig, PublishesNothing};
ghost use Rattle.control_line.specs.body.Making.{IsOutcome, IsShort, IsShown};
ghost use Rattle.control_line.specs.body.Reading.{reading_of};
ghost use Rattle.control_line.specs.Reply.{reply_text};
ghost use Rattle.control_line.specs.declared.program.LineFault.TheVariants as line_fault;
ghost use Rattle.control_line.specs.Request.{AsksForOneThing};
ghost use Rattle.control_line.specs.Block.{IsOneMessage};
ghost use Rattle.control_line.specs.body.Heads.{HasNoHead, IsShortForVersion};
ghost use Rattle.versions.specs.declared.layout.TheConstants.{LAST_NUMBER};

mod block;
mod change;
mod column;
mod head;
mod judging;
mod packet;
mod program;
mod reading;
mod reason;
mod reply;
mod request;
mod rules_file;

use block::answer_block;
use change::publish_change;
pub use column::fault_column;
pub use head::{Head, Start, read_head, read_version};
use head::{split_head, split_version};
pub use packet::{packet_of_hex, read_packet};
use program::LineFault;
use read_section::Operator;
use reading::{Reading, read_back};
pub use reason::Reason;
pub use reply::{LineAnswer, NUMBER_LIMIT, REPLY_LIMIT, Reply, WINDOW, judged_reply};
pub use request::is_word;
use request::{Request, read_change, read_request};
use retire::Retire;
pub use rules_file::{RulesFault, is_skipped, line_at, rules, without_return};
use std::alloc::{AllocError, Global};

/// The error of a call that was refused memory.
pub use std::alloc::AllocError as OutOfMemory;

/// The most bytes of a control line.
pub const LINE_LIMIT: usize = 262_144;

/// The most lines of a block.
pub const MOST_LINES: u32 = 65_535;

/// The most bytes of the lines of a block, each with its LF.
pub const BLOCK_LIMIT: usize = 16_777_216;

/// Law: the limits, as numbers. It runs nothing.
pub fn limits_as_numbers()
    ensures line { LINE_LIMIT ≡ 262144 }
    ensures lines { MOST_LINES ≡ 65535 }
    ensures block { BLOCK_LIMIT ≡ 16777216 }
    ensures reply { REPLY_LIMIT ≡ 128 }
    ensures number { NUMBER_LIMIT ≡ 20 }
{}

fn shown(operator: &Operator) -> LineAnswer
    ensures { IsShown operator.now.view result }
{
    let config = operator.config();
    LineAnswer::Shown {
        version: operator.number(),
        groups: config.groups().len(),
        members: config.members(),
        charge: config.charge(),
    }
}

fn part_read(operator: &Operator, reading: Reading<'_>) -> LineAnswer
    ensures read { IsReadBack (reading_of reading.entry) operator.now.view result }
    ensures short { IsShort result }
{
    read_back(operator.number(), operator.config().groups(), reading)
}

// Executes a change for one version only, without its front `at V `.
fn answer_at(
    alloc: Global,
    version: u64,
    line: &[u8],
    operator: &mut Operator,
) -> Result<LineAnswer, LineFault>
    requires { version ≤ LAST_NUMBER }
    ensures answered { (text : List ℕ) → IsShortForVersion text version line.now → IsOutcome (IsAnswered text) operator.old operator.new result }
    ensures short { IfOk result IsShort }
    ensures memory { (text : List ℕ) → IsShortForVersion text version line.now → IfErr result (λ fault. fault ≡ line_fault.OutOfMemory → AsksForChange text) }
{
    let Some(command) = read_change(line) else {
        return Err(LineFault::Refused(Reason::BadForm));
    };
    if version != operator.number() {
        return Err(LineFault::Refused(Reason::OtherVersion(operator.number())));
    }
    publish_change(alloc, command, operator)
}

// Executes a request that is no block.
fn answer_line(alloc: Global, text: &[u8], operator: &mut Operator) -> Result<LineAnswer, LineFault>
    requires { HasNoHead text.now }
    ensures answered { IsOutcome (IsAnswered text.now) operator.old operator.new result }
    ensures short { IfOk result IsShort }
    ensures memory { IfErr result (λ fault. fault ≡ line_fault.OutOfMemory → AsksForChange text.now) }
{
    if text.len() > LINE_LIMIT {
        return Err(LineFault::Refused(Reason::LineTooLong));
    }
    if let Some((version, line)) = split_version(text) {
        return answer_at(alloc, version, line, operator);
    }
    match read_request(text) {
        None => Err(LineFault::Refused(Reason::BadForm)),
        Some(Request::Change(command)) => publish_change(alloc, command, operator),
        Some(Request::Show) => Ok(shown(operator)),
        Some(Request::Read(reading)) => Ok(part_read(operator, reading)),
        Some(Request::Sweep) => Ok(LineAnswer::Swept(operator.sweep())),
    }
}

fn answer(alloc: Global, text: &[u8], operator: &mut Operator) -> Result<LineAnswer, LineFault>
    ensures answered { IsOutcome (IsAnswered text.now) operator.old operator.new result }
    ensures short { IfOk result IsShort }
    ensures memory { IfErr result (λ fault. fault ≡ line_fault.OutOfMemory → AsksForChange text.now) }
{
    match split_head(text) {
        Some((head, lines)) => answer_block(alloc, head, lines, operator),
        None => answer_line(alloc, text, operator),
    }
}

/// Executes a control request, and returns its reply. A request is a line, or the first line of a block with its lines, each after an
/// LF.
///
/// A request that is too long is refused first, then one of bad form, then one for another version. Then come the lines: the text
/// of a program, then the command. The publication is last. A refusal publishes nothing, and does nothing but the scans of a
/// publication that is busy. The text may be any bytes.
pub fn line(alloc: Global, text: &[u8], operator: &mut Operator) -> Result<Reply, OutOfMemory>
    ensures reply { IfOk result (λ reply. (config : TextConfig) → AgreesNow config operator.old.view →
        IsReplyTo config text.now operator.old operator.new reply) }
    ensures new_configuration { IfOk result (λ reply. (config : TextConfig) → AgreesNow config operator.old.view →
        LeavesConfig config text.now operator.old operator.new reply) }

    // One answer is the reply, what was done, and, for each such configuration, what the text means.
    ensures answered { IfOk result (λ reply. (answer : LineAnswerValue) × (reply ≡ reply_text answer) × IsAnswered text.now operator.old operator.new answer) }

    ensures kept { IfOk result (λ reply. IsRefusedReply reply → PublishesNothing operator.old operator.new) }
    ensures only_scans { IfOk result (λ reply. IsRefusedReply reply → DoesNothing operator.old operator.new) }

    ensures unchanged { OnErr result (operator.new ≡ operator.old) }
    ensures needs_memory { OnErr result (AsksForChange text.now) }
{
    match answer(alloc, text, operator) {
        Ok(answer) => Ok(Reply::of(answer)),
        Err(LineFault::Refused(reason)) => Ok(Reply::of(LineAnswer::Refused(reason))),
        Err(LineFault::OutOfMemory) => Err(AllocError),
    }
}

/// Law: no line asks for two things, and no text is two requests. It runs nothing.
#[tactic(auto, using(crate::proofs::OneLineLemmas::one_thing, crate::proofs::OneMessageLemmas::one_message))]
pub fn one_request()
    ensures line { AsksForOneThing }
    ensures text { IsOneMessage }
{}

/// Law: a line that does not read has one reply, except for whether a publication is busy and for what a sweep reclaims. With a
/// compiler that makes the same words of an expression each time, every line has one reply. It runs nothing.
pub fn one_reply()
    ensures texts { HasOneAnswer }
    ensures compiled { HasOneAnswerBy }
{
    filter_program::one_meaning();
}

/// Law: the configurations without groups agree, one of texts and one that an operator may open with; `line` goes on from there. It
/// runs nothing.
pub fn empty_agrees()
    ensures { Agrees [] [] }
{}
