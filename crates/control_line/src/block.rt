//! Blocks: several lines as one change (docs/COMMANDS.md, "Control lines").

ghost use Rattle.std.specs.Prelude.{◌≡◌, ◌≤◌, IfErr, IfOk, IfSome, IsFalse, IsTrue, List, MatchOption, MatchResult, [], length, ℕ};
ghost use Rattle.control_line.specs.Answer.{AsksForChange, IsAnswered};
ghost use Rattle.control_line.specs.Block.{EndsLine, HasHead, IsHead};
ghost use Rattle.control_line.specs.body.Blocks.{AreDone, AreLines, IsDone, IsFirstFault, IsLineFault, IsNextLine, IsOther, IsStart, reply_to_fault};
ghost use Rattle.config_image.specs.Image.{Group};
ghost use Rattle.read_section.specs.Operator.{IsCurrent};
ghost use Rattle.control_line.specs.declared.program.LineFault.TheVariants as line_fault;
ghost use Rattle.control_line.specs.body.Making.{IsOutcome, IsShort};

use crate::BLOCK_LIMIT;
use crate::change::{do_line, publish_next};
use crate::head::{Head, Start, cut_line};
use crate::program::LineFault;
use crate::reason::Reason;
use crate::reply::LineAnswer;
use member_group::Config;
use read_section::Operator;
use std::alloc::Global;

/// Why a block failed: the line's number, from 1, if a line is at fault, and the fault.
#[derive(Drop)]
pub(crate) struct BlockFault {
    pub(crate) line: u32,
    pub(crate) fault: LineFault,
}

// The next of lines that each come after an LF, and the rest.
fn next_line(text: &[u8]) -> Option<(&[u8], &[u8])>
    requires { EndsLine text.now }
    ensures { MatchOption result (text.now ≡ []) (λ parts. IsNextLine text.now parts.0.now parts.1.now) }
{
    if text.is_empty() {
        return None;
    }
    Some(cut_line(&text[1..]))
}

/// Counts lines that each come after an LF.
pub(crate) fn count_lines(text: &[u8]) -> usize
    requires { EndsLine text.now }
    ensures { (lines : List (List ℕ)) × AreLines text.now lines × (result ≡ length lines) }
{
    let mut count = 0;
    let mut left = text;
    while let Some((_line, rest)) = next_line(left) {
        count += 1;
        left = rest;
    }
    count
}

// Changes a configuration by one of the lines.
fn do_numbered(
    alloc: Global,
    config: &mut Config,
    line: &[u8],
    number: u32,
) -> Result<(), BlockFault>
    ensures { MatchResult result (λ _. IsDone config.old line.now config.new) (λ fault. (fault.line ≡ number) × IsLineFault config.old line.now fault.fault) }
{
    match do_line(alloc, config, line) {
        Ok(()) => Ok(()),
        Err(fault) => Err(BlockFault {
            line: number,
            fault,
        }),
    }
}

// Applies the lines to a configuration, one after the other.
fn config_of_lines(alloc: Global, start: Config, text: &[u8]) -> Result<Config, BlockFault>
    requires ends_line { EndsLine text.now }
    requires few { length text.now ≤ BLOCK_LIMIT }
    ensures { (lines : List (List ℕ)) → AreLines text.now lines → MatchResult result (AreDone start lines) (IsFirstFault start lines) }
{
    let mut config = start;
    let mut number = 0;
    let mut left = text;
    while let Some((line, rest)) = next_line(left) {
        number += 1;
        do_numbered(alloc, &mut config, line, number)?;
        left = rest;
    }
    Ok(config)
}

// The current configuration once more, for the lines to change.
fn current_copy(operator: &Operator) -> Result<Config, BlockFault>
    ensures { (real : List Group) × IsCurrent operator.now.view real × MatchResult result (λ copy. copy ≡ real) (λ fault. fault.fault ≡ line_fault.OutOfMemory) }
{
    match operator.config().copy() {
        Ok(config) => Ok(config),
        Err(_refused) => Err(BlockFault {
            line: 1,
            fault: LineFault::OutOfMemory,
        }),
    }
}

// Applies the lines to the configuration that a block changes.
fn config_of_block(
    alloc: Global,
    start: Start,
    lines: &[u8],
    operator: &Operator,
) -> Result<Config, BlockFault>
    requires ends_line { EndsLine lines.now }
    requires few { length lines.now ≤ BLOCK_LIMIT }
    ensures { (real : List Group) × IsStart start operator.now.view real × ((them : List (List ℕ)) → AreLines lines.now them →
        MatchResult result (AreDone real them) (IsFirstFault real them)) }
{
    match start {
        Start::Current => config_of_lines(alloc, current_copy(operator)?, lines),
        Start::Empty => config_of_lines(alloc, Config::new(alloc), lines),
    }
}

// The reply to a line of a block that is refused.
fn line_refused(fault: BlockFault) -> Result<LineAnswer, LineFault>
    ensures { result ≡ reply_to_fault fault }
{
    match fault.fault {
        LineFault::Refused(reason) => Ok(LineAnswer::LineRefused {
            number: fault.line,
            reason,
        }),
        LineFault::OutOfMemory => Err(LineFault::OutOfMemory),
    }
}

fn is_other(version: Option<u64>, current: u64) -> bool
    ensures other { IsTrue result → IsOther version current }
    ensures meant { IsFalse result → IfSome version (λ version. version ≡ current) }
{
    match version {
        Some(version) => version != current,
        None => false,
    }
}

/// Executes a block, whose first line is read, and returns its reply. Takes all memory before the publication.
pub(crate) fn answer_block(
    alloc: Global,
    head: Head,
    lines: &[u8],
    operator: &mut Operator,
) -> Result<LineAnswer, LineFault>
    requires head { IsHead head }
    requires ends_line { EndsLine lines.now }
    ensures answered { (text : List ℕ) → HasHead text head lines.now → IsOutcome (IsAnswered text) operator.old operator.new result }
    ensures short { IfOk result IsShort }
    ensures memory { (text : List ℕ) → HasHead text head lines.now → IfErr result (λ fault. fault ≡ line_fault.OutOfMemory → AsksForChange text) }
{
    if lines.len() > BLOCK_LIMIT {
        return Err(LineFault::Refused(Reason::LineTooLong));
    }
    if count_lines(lines) != head.count as usize {
        return Err(LineFault::Refused(Reason::BadForm));
    }
    if is_other(head.version, operator.number()) {
        return Err(LineFault::Refused(Reason::OtherVersion(operator.number())));
    }
    match config_of_block(alloc, head.start, lines, operator) {
        Ok(next) => Ok(publish_next(next, operator)),
        Err(fault) => line_refused(fault),
    }
}
