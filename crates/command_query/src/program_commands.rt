//! The commands `check` and `run`, of programs in a format (docs/COMMANDS.md).

ghost use Rattle.std.specs.Prelude.{◌≡◌, ◌≤◌, IfErr, IfOk, length};
ghost use Rattle.bpf_machine.specs.declared.TheConstants.{MAX_PACKET};
ghost use Rattle.bpf_verify.specs.Accepted.{IsAccepted};
ghost use Rattle.command_query.specs.CommandResult.{IsCheckAnswer, IsRunAnswer};
ghost use Rattle.command_query.specs.Format.{IsProgramIn, IsRefusalOfWords};
ghost use Rattle.command_query.specs.body.Stop.{IsStopBy, IsStopByProgram};

use crate::command_result::CommandResult;
use crate::format::InputFormat;
use crate::stop::Stop;
use bpf_formats::{read_ddd, read_hex};
use bpf_machine::{Outcome, run};
use bpf_verify::Program;
use control_line::Reason;
use filter_program::{TextFault, assembled};
use std::alloc::Global;

fn accepted(words: Vec<u64>) -> Result<Program<Global>, Stop>
    ensures words { IfOk result (λ program. program.words ≡ words.items) }
    ensures accepted { IfOk result (λ program. IsAccepted program.words) }
    ensures refused { IfErr result (IsStopBy (IsRefusalOfWords words.items)) }
{
    match Program::new(words) {
        Ok(program) => Ok(program),
        Err((fault, _words)) => Err(Stop::Refused(Reason::Text(TextFault::Words(fault)))),
    }
}

fn read_program(alloc: Global, format: InputFormat, text: &[u8]) -> Result<Program<Global>, Stop>
    ensures program { IfOk result (λ program. IsProgramIn format text.now program.words) }
    ensures stopped { IfErr result (IsStopByProgram format text.now) }
{
    match format {
        InputFormat::Assembly => Ok(assembled(alloc, text)?),
        InputFormat::Ddd => accepted(read_ddd(alloc, text)?),
        InputFormat::Hex => accepted(read_hex(alloc, text)?),
    }
}

/// Counts the instructions of the program.
pub fn check(alloc: Global, format: InputFormat, text: &[u8]) -> Result<CommandResult, Stop>
    ensures answer { IfOk result (IsCheckAnswer format text.now) }
    ensures stopped { IfErr result (IsStopByProgram format text.now) }
{
    let program = read_program(alloc, format, text)?;
    let count = program.words().len();
    Ok(CommandResult::Accepted { count })
}

/// Runs the program on the packet.
pub fn run_program(
    alloc: Global,
    packet: &[u8],
    format: InputFormat,
    text: &[u8],
) -> Result<CommandResult, Stop>
    requires { length packet.now ≤ MAX_PACKET }
    ensures answer { IfOk result (IsRunAnswer packet.now format text.now) }
    ensures stopped { IfErr result (IsStopByProgram format text.now) }
{
    let program = read_program(alloc, format, text)?;
    let mut words = program.words();
    let count = words.len();
    let Outcome { value, steps } = run(&mut words, 0, count, packet);
    let kept = (value as usize).min(packet.len());
    Ok(CommandResult::Ran { value, steps, kept })
}
