//! The command `compile`, and `run` with an expression (docs/COMMANDS.md).

ghost use Rattle.std.specs.Prelude.{IfErr, IfOk};
ghost use Rattle.control_line.specs.Reason.{IsRefusalOfExpression};
ghost use Rattle.filter_compile.specs.Answer.{IsPacket};
ghost use Rattle.command_query.specs.CommandResult.{IsCompileAnswer, IsJudgeAnswer};
ghost use Rattle.command_query.specs.body.Stop.{IsStopBy};

use crate::command_result::CommandResult;
use crate::format::{OutputFormat, list};
use crate::stop::Stop;
use bpf_machine::run;
use filter_program::compiled;
use std::alloc::Global;

/// Compiles the expression, and prints the program in the format.
pub fn compile(alloc: Global, format: OutputFormat, text: &[u8]) -> Result<CommandResult, Stop>
    ensures answer { IfOk result (IsCompileAnswer format text.now) }
    ensures refused { IfErr result (IsStopBy (IsRefusalOfExpression text.now)) }
{
    let program = compiled(alloc, text)?;
    let listing = list(alloc, format, &program)?;
    match format {
        OutputFormat::Assembly => Ok(CommandResult::Compiled {
            charge: program.charge(),
            listing,
        }),
        OutputFormat::Ddd => Ok(CommandResult::Listed { listing }),
        OutputFormat::Dd => Ok(CommandResult::Listed { listing }),
        OutputFormat::Hex => Ok(CommandResult::Listed { listing }),
    }
}

/// Tests whether the expression is true of the packet, by running the expression's program.
pub fn judge(alloc: Global, packet: &[u8], text: &[u8]) -> Result<CommandResult, Stop>
    requires { IsPacket packet.now }
    ensures answer { IfOk result (IsJudgeAnswer packet.now text.now) }
    ensures refused { IfErr result (IsStopBy (IsRefusalOfExpression text.now)) }
{
    let program = compiled(alloc, text)?;
    let mut words = program.words();
    let count = words.len();
    let accepts = run(&mut words, 0, count, packet).value != 0;
    Ok(CommandResult::Judged { accepts })
}
