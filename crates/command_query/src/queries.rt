//! The commands that have one result: what they find, and what they write.

ghost use Rattle.std.specs.Prelude.{◌≡◌, ◌⊎◌, ◌++◌, Err, IfErr, IfOk, IsSomeAnd, MatchOption, OnOk, codes};
ghost use Rattle.std.specs.Io.KnownBytes.{Appends};
ghost use Rattle.control_line.specs.Packet.{IsRefusalOfHex, SpellsPacket};
ghost use Rattle.fault_code.specs.Code.{code_text};
ghost use Rattle.control_line.specs.Reason.{IsRefusalOfExpression};
ghost use Rattle.control_line.specs.declared.reason.Reason.TheVariants.{BadForm};
ghost use Rattle.command_query.specs.CommandResult.{IsCompileAnswer, answer_text};
ghost use Rattle.command_line.specs.CommandLine.{check, query_request, run};
ghost use Rattle.command_query.specs.Format.{output_format_of};
ghost use Rattle.command_query.specs.Query.{IsResultOf, IsStopOf, MayFail, QueryWritesBefore, WritesAnswer};
ghost use Rattle.command_query.specs.body.Stop.{IsStopBy, StopsByInput};
ghost use Rattle.command_line.specs.Ending.{AppendsBeginning};
ghost use Rattle.command_streams.specs.Failures.{HasCause, OutputFails};

use crate::command_result::CommandResult;
use crate::explaining::explain;
use crate::expression_commands::{compile, judge};
use crate::first_path;
use crate::format::{input_format_of, output_format_of};
use crate::packing::pack;
use crate::program_commands::{check, run_program};
use crate::spreading::spread_selector;
use crate::stop::Stop;
use command_line::{Failure, Query, Status};
use command_streams::{CountedWrite, Input, read_all, write_through};
use control_line::{Reason, packet_of_hex};
use fault_code::Code;
use std::alloc::Global;

/// Writes the result of a command, or why it has none, and returns the status that the command ends with.
pub fn run_query<R: Input, W: CountedWrite>(
    alloc: Global,
    query: Query<'_>,
    input: &mut R,
    out: &mut W,
) -> Result<Status, Failure>
    ensures failed { IfErr result (MayFail (query_request query.entry)) }
    ensures device_failed { HasCause result (R.state input.old).failures (R.state input.new).failures (W.failures out.old) (W.failures out.new) }
    ensures failed_written { IfErr result (λ failure.
        QueryWritesBefore (query_request query.entry) failure (R.state input.old).coming (W.contents out.old) (W.contents out.new)) }
    ensures answered { IfOk result (λ status.
        WritesAnswer (query_request query.entry) (R.state input.old).coming status (W.contents out.old) (W.contents out.new)) }
{
    match find_answer(alloc, query, input) {
        Ok(found) => write_answer(alloc, &found, out),
        Err(Stop::Refused(reason)) => write_refusal(alloc, reason.code(), out),
        Err(Stop::Misformed(fault)) => write_refusal(alloc, fault.code(), out),
        Err(Stop::Failed(failure)) => Err(failure),
    }
}

fn find_answer<R: Input>(
    alloc: Global,
    query: Query<'_>,
    input: &mut R,
) -> Result<CommandResult, Stop>
    ensures found { IfOk result (IsResultOf (query_request query.entry) (R.state input.old).coming) }
    ensures stopped { IfErr result (IsStopOf (query_request query.entry) (R.state input.old).coming) }
    ensures device_failed { StopsByInput result (R.state input.old).failures (R.state input.new).failures }
{
    match query {
        Query::First => {
            let [at_first, at_second] = first_path::lines(alloc)?;
            Ok(CommandResult::Versions(at_first, at_second))
        }
        Query::Check { format } => check_input(alloc, format, input),
        Query::Compile { expression, format } => compile_to(alloc, expression, format),
        Query::Run { packet, format } => run_input(alloc, packet, format, input),
        Query::Judge { packet, expression } => {
            let packet = read_packet(alloc, packet)?;
            judge(alloc, &packet, expression.as_bytes())
        }
        Query::Pack {
            from,
            to,
            payload,
            text,
        } => pack(alloc, from, to, payload, text),
        Query::Explain { words } => explain(alloc, &words),
        Query::Spread(asked) => spread_selector(alloc, asked.depth, asked.by, &asked.shares),
    }
}

fn check_input<R: Input>(alloc: Global, name: &str, input: &mut R) -> Result<CommandResult, Stop>
    ensures found { IfOk result (IsResultOf (check name.now) (R.state input.old).coming) }
    ensures stopped { IfErr result (IsStopOf (check name.now) (R.state input.old).coming) }
    ensures device_failed { StopsByInput result (R.state input.old).failures (R.state input.new).failures }
{
    let Some(format) = input_format_of(name) else {
        return Err(Stop::Refused(Reason::BadForm));
    };
    check(alloc, format, &read_all(alloc, input)?)
}

fn compile_to(alloc: Global, expression: &str, name: &str) -> Result<CommandResult, Stop>
    ensures found { IfOk result (λ answer. IsSomeAnd (output_format_of name.now) (λ format. IsCompileAnswer format expression.now answer)) }
    ensures stopped { IfErr result (IsStopBy (λ reason.
        MatchOption (output_format_of name.now) (reason ≡ BadForm) (λ format. IsRefusalOfExpression expression.now reason))) }
{
    let Some(format) = output_format_of(name) else {
        return Err(Stop::Refused(Reason::BadForm));
    };
    compile(alloc, format, expression.as_bytes())
}

fn run_input<R: Input>(
    alloc: Global,
    digits: &str,
    name: &str,
    input: &mut R,
) -> Result<CommandResult, Stop>
    ensures found { IfOk result (IsResultOf (run digits.now name.now) (R.state input.old).coming) }
    ensures stopped { IfErr result (IsStopOf (run digits.now name.now) (R.state input.old).coming) }
    ensures device_failed { StopsByInput result (R.state input.old).failures (R.state input.new).failures }
{
    let packet = read_packet(alloc, digits)?;
    let Some(format) = input_format_of(name) else {
        return Err(Stop::Refused(Reason::BadForm));
    };
    run_program(alloc, &packet, format, &read_all(alloc, input)?)
}

// Reads the packet that the digits spell. The digits are tested before anything is read.
pub(crate) fn read_packet(alloc: Global, digits: &str) -> Result<Vec<u8>, Stop>
    ensures spelt { IfOk result (λ packet. SpellsPacket digits.now packet.items) }
    ensures refused { IfErr result (IsStopBy (IsRefusalOfHex digits.now)) }
{
    packet_of_hex(alloc, digits.as_bytes())?.map_err(Stop::Refused)
}

fn write_answer<W: CountedWrite>(
    alloc: Global,
    found: &CommandResult,
    out: &mut W,
) -> Result<Status, Failure>
    ensures failed { IfErr result (λ failure. (failure ≡ Failure.WriteFailed) ⊎ (failure ≡ Failure.OutOfMemory)) }
    ensures device_failed { OutputFails result (W.failures out.old) (W.failures out.new) }
    ensures no_memory { result ≡ Err Failure.OutOfMemory → out.new ≡ out.old }
    ensures beginning { AppendsBeginning (W.contents out.old) (W.contents out.new) (answer_text found.now) }
    ensures done { IfOk result (λ status. status ≡ Status.Done) }
    ensures written { OnOk result (Appends (W.contents out.old) (W.contents out.new) (answer_text found.now)) }
{
    let text = found.to_string(alloc)?;
    write_through(text.as_bytes(), out)?;
    Ok(Status::Done)
}

fn write_refusal<W: CountedWrite>(alloc: Global, code: Code, out: &mut W) -> Result<Status, Failure>
    ensures failed { IfErr result (λ failure. (failure ≡ Failure.WriteFailed) ⊎ (failure ≡ Failure.OutOfMemory)) }
    ensures device_failed { OutputFails result (W.failures out.old) (W.failures out.new) }
    ensures no_memory { result ≡ Err Failure.OutOfMemory → out.new ≡ out.old }
    ensures beginning { AppendsBeginning (W.contents out.old) (W.contents out.new) ((codes "refused " ++ code_text code) ++ codes "\n") }
    ensures refused { IfOk result (λ status. status ≡ Status.Refused) }
    ensures written { OnOk result (Appends (W.contents out.old) (W.contents out.new) ((codes "refused " ++ code_text code) ++ codes "\n")) }
{
    let line = format!(in alloc; "refused {code}\n")?;
    write_through(line.as_bytes(), out)?;
    Ok(Status::Refused)
}
