//! Programs and commands made of the texts of control lines.

ghost use Rattle.std.specs.Prelude.{◌≡◌, MatchResult};
ghost use Rattle.control_line.specs.body.Making.{IsLineFaultOf, IsLineFaultOfCommand, IsMade, IsMadeCommand, line_fault_of};
ghost use Rattle.control_line.specs.body.Reading.{source_of};
ghost use Rattle.control_line.specs.declared.program.LineFault.TheVariants.{OutOfMemory};
ghost use Rattle.member_group.specs.Over.{command_over};

use crate::reason::Reason;
use crate::request::ProgramText;
use bpf_verify::Program;
use filter_program::{TextFault, assembled, compiled};
use member_group::Command;
use std::alloc::Global;

/// Why a line was not done.
#[derive(Drop)]
pub(crate) enum LineFault {
    Refused(Reason),
    OutOfMemory,
}

impl From<TextFault> for LineFault {
    ghost from_gives = { λ fault line_fault. line_fault ≡ line_fault_of fault };

    fn from(fault: TextFault) -> LineFault {
        match Reason::of_text(fault) {
            Some(reason) => LineFault::Refused(reason),
            None => LineFault::OutOfMemory,
        }
    }
}

fn program_of(alloc: Global, text: ProgramText<'_>) -> Result<Program<Global>, LineFault>
    ensures { MatchResult result (IsMade (source_of text.entry)) (IsLineFaultOf (source_of text.entry)) }
{
    match text {
        ProgramText::Assembly(text) => Ok(assembled(alloc, text)?),
        ProgramText::Expression(text) => Ok(compiled(alloc, text)?),
    }
}

/// Makes the command of a line, with its program in the memory of `alloc`.
pub(crate) fn command_of(
    alloc: Global,
    command: Command<ProgramText<'_>>,
) -> Result<Command, LineFault>
    ensures { let asked = command_over source_of command.entry in
        MatchResult result (IsMadeCommand asked) (IsLineFaultOfCommand asked) }
{
    match command {
        Command::AddGroup { key } => Ok(Command::AddGroup { key }),
        Command::RemoveGroup { key } => Ok(Command::RemoveGroup { key }),
        Command::Join { key, member, to } => Ok(Command::Join { key, member, to }),
        Command::Leave { key, member } => Ok(Command::Leave { key, member }),
        Command::SetSelector { key, program } => Ok(Command::SetSelector {
            key,
            program: program_of(alloc, program)?,
        }),
        Command::ClearSelector { key } => Ok(Command::ClearSelector { key }),
        Command::SetFilter {
            key,
            member,
            program,
        } => Ok(Command::SetFilter {
            key,
            member,
            program: program_of(alloc, program)?,
        }),
        Command::ClearFilter { key, member } => Ok(Command::ClearFilter { key, member }),
        Command::LockFilter { key, member } => Ok(Command::LockFilter { key, member }),
    }
}
