//! Changes of the configuration that a control line asks for, made and published.

ghost use Rattle.std.specs.Prelude.{IfOk, MatchResult};
ghost use Rattle.member_group.specs.Refusal.{first_refusal};
ghost use Rattle.member_group.specs.Over.{command_over};
ghost use Rattle.control_line.specs.body.Blocks.{IsDone, IsLineFault};
ghost use Rattle.control_line.specs.body.Making.{IsChangeDone, IsChangeFault, IsChanged, IsNext, IsOutcome, IsPublication, IsRefusedFor, IsShort};
ghost use Rattle.control_line.specs.body.Reading.{source_of};

use crate::LINE_LIMIT;
use crate::program::{LineFault, command_of};
use crate::reason::Reason;
use crate::reply::LineAnswer;
use crate::request::{ProgramText, read_change};
use member_group::{Command, Config, Refusal};
use read_section::Operator;
use retire::Retire;
use std::alloc::Global;

fn next_config(config: &Config, command: &Command) -> Result<Config, LineFault>
    ensures { MatchResult result (IsNext command.now config.now) (IsRefusedFor (first_refusal command.now config.now)) }
{
    match config.apply(command) {
        Ok(next) => Ok(next),
        Err(Refusal::OutOfMemory) => Err(LineFault::OutOfMemory),
        Err(refusal) => Err(LineFault::Refused(Reason::Command(refusal))),
    }
}

/// Makes the configuration after a change.
pub(crate) fn changed(
    alloc: Global,
    config: &Config,
    command: Command<ProgramText<'_>>,
) -> Result<Config, LineFault>
    ensures { let asked = command_over source_of command.entry in
        MatchResult result (IsChangeDone asked config.now) (IsChangeFault asked config.now) }
{
    let command = command_of(alloc, command)?;
    next_config(config, &command)
}

fn do_command(config: &mut Config, command: &Command) -> Result<(), LineFault>
    ensures { MatchResult result (λ _. IsNext command.now config.old config.new) (IsRefusedFor (first_refusal command.now config.old)) }
{
    match config.change(command) {
        Ok(()) => Ok(()),
        Err(Refusal::OutOfMemory) => Err(LineFault::OutOfMemory),
        Err(refusal) => Err(LineFault::Refused(Reason::Command(refusal))),
    }
}

// Changes a configuration as a line asks.
fn do_change(
    alloc: Global,
    config: &mut Config,
    command: Command<ProgramText<'_>>,
) -> Result<(), LineFault>
    ensures { let asked = command_over source_of command.entry in
        MatchResult result (λ _. IsChangeDone asked config.old config.new) (IsChangeFault asked config.old) }
{
    let made = command_of(alloc, command)?;
    do_command(config, &made)
}

/// Changes a configuration as one of several lines asks, which must ask for a change.
pub(crate) fn do_line(alloc: Global, config: &mut Config, line: &[u8]) -> Result<(), LineFault>
    ensures { MatchResult result (λ _. IsDone config.old line.now config.new) (IsLineFault config.old line.now) }
{
    if line.len() > LINE_LIMIT {
        return Err(LineFault::Refused(Reason::LineTooLong));
    }
    match read_change(line) {
        Some(command) => do_change(alloc, config, command),
        None => Err(LineFault::Refused(Reason::BadForm)),
    }
}

/// Publishes a configuration. Takes no memory.
pub(crate) fn publish_next(next: Config, operator: &mut Operator) -> LineAnswer
    ensures published { IsPublication next operator.old operator.new result }
    ensures short { IsShort result }
{
    match operator.publish(next) {
        Ok(version) => LineAnswer::Published { version },
        Err((fault, _next)) => LineAnswer::Refused(Reason::Publishing(fault)),
    }
}

/// Makes the configuration after a change, and publishes it. Takes all memory before the publication.
pub(crate) fn publish_change(
    alloc: Global,
    command: Command<ProgramText<'_>>,
    operator: &mut Operator,
) -> Result<LineAnswer, LineFault>
    ensures changed { IsOutcome (IsChanged (command_over source_of command.entry)) operator.old operator.new result }
    ensures short { IfOk result IsShort }
{
    let next = changed(alloc, operator.config(), command)?;
    Ok(publish_next(next, operator))
}
