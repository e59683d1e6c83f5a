//! The commands as `clap` reads them: each with its arguments and its help, and the program with all of them.

ghost use Rattle.std.specs.Prelude.{◌≡◌, IfOk, false};
ghost use Rattle.clap.specs.Words.{App, Rule, app_of, new_app, rule_of, with_rule, with_subcommand};
ghost use Rattle.clap.specs.declared.builder.command.Command.TheViews.{out-Command};
ghost use Rattle.command_line.specs.Arguments.{check_line, command_line, compile_line, drain_line, explain_line, flood_line, load_line, metrics_line, pack_line, packets_line, replay_line, rules_line, run_line, serve_line, spread_line, tell_line, top_line, without_commands};
ghost use Rattle.command_line.specs.body.Half.{with_queries, with_rules, with_workers};

use crate::arguments::{
    flag_argument, lines_argument, named_argument, number_argument, positional_argument,
    timeout_argument, value_argument, words_argument, workers_argument,
};
use crate::command::{MAX_DATAGRAMS, MAX_INTERVAL, MAX_PORT};
use crate::receive::MAX_RECEIVE_BUFFER;
use crate::{bucket_help, help, packet_help};
use clap::{Arg, Command};
use std::alloc::{AllocError, Global};

// A command without arguments.
fn plain_command<'a>(alloc: Global, name: &'a str, about: &'a str, more: &'a str) -> Command<'a>
    ensures app { app_of result ≡ new_app name.entry.now }
    ensures local { (out-Command result).has_globals ≡ false }
{
    Command::new(alloc, name).about(about).after_help(more)
}

// Adds an argument, if memory for the command was found. The command is passed on untested, since each `?` would have to drop what
// is made.
fn with_argument<'a>(
    command: Result<Command<'a>, AllocError>,
    argument: Arg<'a>,
) -> Result<Command<'a>, AllocError>
    ensures app { (before : App) (rule : Rule) → IfOk command.entry (λ made. app_of made ≡ before) → rule_of argument.entry ≡ rule
        → argument.entry.global ≡ false → IfOk result (λ made. app_of made ≡ with_rule before rule) }
    ensures local { IfOk command.entry (λ made. (out-Command made).has_globals ≡ false) → argument.entry.global ≡ false
        → IfOk result (λ made. (out-Command made).has_globals ≡ false) }
{
    command?.arg(argument)
}

fn check_command<'a>(alloc: Global) -> Result<Command<'a>, AllocError>
    ensures app { IfOk result (λ command. app_of command ≡ check_line) }
    ensures local { IfOk result (λ command. (out-Command command).has_globals ≡ false) }
{
    let format = named_argument(alloc, "format", "NAME", help::INPUT_FORMAT);
    let command = plain_command(alloc, "check", help::CHECK, help::CHECK_MORE);
    with_argument(Ok(command), format)
}

fn compile_command<'a>(alloc: Global) -> Result<Command<'a>, AllocError>
    ensures app { IfOk result (λ command. app_of command ≡ compile_line) }
    ensures local { IfOk result (λ command. (out-Command command).has_globals ≡ false) }
{
    let expression = positional_argument(alloc, "EXPR", help::COMPILE_EXPRESSION);
    let command = plain_command(alloc, "compile", help::COMPILE, help::COMPILE_MORE);
    let command = with_argument(Ok(command), expression);
    let format = named_argument(alloc, "format", "NAME", help::OUTPUT_FORMAT);
    with_argument(command, format)
}

fn run_command<'a>(alloc: Global) -> Result<Command<'a>, AllocError>
    ensures app { IfOk result (λ command. app_of command ≡ run_line) }
    ensures local { IfOk result (λ command. (out-Command command).has_globals ≡ false) }
{
    let packet = value_argument(alloc, "packet", "HEX", help::RUN_PACKET);
    let command = plain_command(alloc, "run", help::RUN, help::RUN_MORE);
    let command = with_argument(Ok(command), packet);
    let expression = named_argument(alloc, "expr", "TEXT", help::RUN_EXPRESSION);
    let command = with_argument(command, expression);
    let format = named_argument(alloc, "format", "NAME", help::INPUT_FORMAT);
    with_argument(command, format)
}

fn pack_command<'a>(alloc: Global) -> Result<Command<'a>, AllocError>
    ensures app { IfOk result (λ command. app_of command ≡ pack_line) }
    ensures local { IfOk result (λ command. (out-Command command).has_globals ≡ false) }
{
    let from = value_argument(alloc, "from", "A", packet_help::PACK_FROM);
    let command = plain_command(alloc, "pack", packet_help::PACK, packet_help::PACK_MORE);
    let command = with_argument(Ok(command), from);
    let to = value_argument(alloc, "to", "KEY", packet_help::PACK_TO);
    let command = with_argument(command, to);
    let payload = named_argument(alloc, "payload", "HEX", packet_help::PACK_PAYLOAD);
    let command = with_argument(command, payload);
    let text = named_argument(alloc, "text", "TEXT", packet_help::PACK_TEXT);
    with_argument(command, text)
}

fn explain_command<'a>(alloc: Global) -> Result<Command<'a>, AllocError>
    ensures app { IfOk result (λ command. app_of command ≡ explain_line) }
    ensures local { IfOk result (λ command. (out-Command command).has_globals ≡ false) }
{
    let words = words_argument(alloc, "WORD", help::EXPLAIN_WORDS);
    let command = plain_command(alloc, "explain", help::EXPLAIN, help::EXPLAIN_MORE);
    with_argument(Ok(command), words)
}

pub(crate) fn spread_command<'a>(alloc: Global) -> Result<Command<'a>, AllocError>
    ensures app { IfOk result (λ command. app_of command ≡ spread_line) }
    ensures local { IfOk result (λ command. (out-Command command).has_globals ≡ false) }
{
    let (about, more) = (bucket_help::SPREAD, bucket_help::SPREAD_MORE);
    let buckets = value_argument(alloc, "buckets", "B", bucket_help::SPREAD_BUCKETS);
    let command = plain_command(alloc, "spread", about, more);
    let command = with_argument(Ok(command), buckets);
    let by = value_argument(alloc, "by", "FIELDS", bucket_help::SPREAD_BY);
    let command = with_argument(command, by);
    let shares = words_argument(alloc, "ID=WEIGHT", bucket_help::SPREAD_SHARES);
    with_argument(command, shares)
}

fn replay_command<'a>(alloc: Global) -> Result<Command<'a>, AllocError>
    ensures app { IfOk result (λ command. app_of command ≡ replay_line) }
    ensures local { IfOk result (λ command. (out-Command command).has_globals ≡ false) }
{
    let summary = flag_argument(alloc, "summary", help::REPLAY_SUMMARY);
    let command = plain_command(alloc, "replay", help::REPLAY, help::REPLAY_MORE);
    let command = with_argument(Ok(command), summary);
    let quiet = flag_argument(alloc, "quiet", help::REPLAY_QUIET);
    with_argument(command, quiet)
}

fn packets_command<'a>(alloc: Global) -> Result<Command<'a>, AllocError>
    ensures app { IfOk result (λ command. app_of command ≡ packets_line) }
    ensures local { IfOk result (λ command. (out-Command command).has_globals ≡ false) }
{
    let unwrap = number_argument(
        alloc,
        "unwrap",
        "PORT",
        MAX_PORT,
        packet_help::PACKETS_UNWRAP,
    );
    let command = plain_command(
        alloc,
        "packets",
        packet_help::PACKETS,
        packet_help::PACKETS_MORE,
    );
    with_argument(Ok(command), unwrap)
}

fn flood_command<'a>(alloc: Global) -> Result<Command<'a>, AllocError>
    ensures app { IfOk result (λ command. app_of command ≡ flood_line) }
    ensures local { IfOk result (λ command. (out-Command command).has_globals ≡ false) }
{
    let workers = workers_argument(alloc, help::FLOOD_WORKERS);
    let command = plain_command(alloc, "flood", help::FLOOD, help::FLOOD_MORE);
    let command = with_argument(Ok(command), workers);
    let most = MAX_DATAGRAMS;
    let datagrams = number_argument(alloc, "datagrams", "D", most, help::FLOOD_DATAGRAMS);
    with_argument(command, datagrams)
}

pub(crate) fn serve_command<'a>(alloc: Global) -> Result<Command<'a>, AllocError>
    ensures app { IfOk result (λ command. app_of command ≡ serve_line) }
    ensures local { IfOk result (λ command. (out-Command command).has_globals ≡ false) }
{
    let front = value_argument(alloc, "front", "A", help::SERVE_FRONT);
    let command = plain_command(alloc, "serve", help::SERVE, help::SERVE_MORE);
    let command = with_argument(Ok(command), front);
    let control = value_argument(alloc, "control", "A", help::SERVE_CONTROL);
    let command = with_argument(command, control);
    let command = with_argument(command, workers_argument(alloc, help::SERVE_WORKERS));
    let rules = named_argument(alloc, "rules", "FILE", help::SERVE_RULES);
    let command = with_argument(command, rules);
    let log = flag_argument(alloc, "log", help::SERVE_LOG);
    let command = with_argument(command, log);
    // `clap` accepts any way here: a parser with a list of names has a reference, which no definition can name. `read_words` refuses a
    // text that names no way.
    let receive = named_argument(alloc, "receive", "WAY", help::SERVE_RECEIVE);
    let command = with_argument(command, receive);
    let buffer = number_argument(
        alloc,
        "receive-buffer",
        "BYTES",
        MAX_RECEIVE_BUFFER as u64,
        help::SERVE_RECEIVE_BUFFER,
    );
    with_argument(command, buffer)
}

fn tell_command<'a>(alloc: Global) -> Result<Command<'a>, AllocError>
    ensures app { IfOk result (λ command. app_of command ≡ tell_line) }
    ensures local { IfOk result (λ command. (out-Command command).has_globals ≡ false) }
{
    let control = value_argument(alloc, "control", "A", help::TELL_CONTROL);
    let command = plain_command(alloc, "tell", help::TELL, help::TELL_MORE);
    let command = with_argument(Ok(command), control);
    let timeout = timeout_argument(alloc);
    let command = with_argument(command, timeout);
    let all = flag_argument(alloc, "all", help::TELL_ALL);
    let command = with_argument(command, all);
    with_argument(command, lines_argument(alloc))
}

fn rules_command<'a>(alloc: Global) -> Result<Command<'a>, AllocError>
    ensures app { IfOk result (λ command. app_of command ≡ rules_line) }
    ensures local { IfOk result (λ command. (out-Command command).has_globals ≡ false) }
{
    let control = value_argument(alloc, "control", "A", help::TELL_CONTROL);
    let command = plain_command(alloc, "rules", help::RULES, help::RULES_MORE);
    let command = with_argument(Ok(command), control);
    let timeout = timeout_argument(alloc);
    with_argument(command, timeout)
}

fn load_command<'a>(alloc: Global) -> Result<Command<'a>, AllocError>
    ensures app { IfOk result (λ command. app_of command ≡ load_line) }
    ensures local { IfOk result (λ command. (out-Command command).has_globals ≡ false) }
{
    let control = named_argument(alloc, "control", "A", help::LOAD_CONTROL);
    let command = plain_command(alloc, "load", help::LOAD, help::LOAD_MORE);
    let command = with_argument(Ok(command), control);
    let timeout = timeout_argument(alloc);
    let command = with_argument(command, timeout);
    let check = flag_argument(alloc, "check", help::LOAD_CHECK);
    let command = with_argument(command, check);
    let diff = flag_argument(alloc, "diff", help::LOAD_DIFF);
    let command = with_argument(command, diff);
    let file = positional_argument(alloc, "FILE", help::LOAD_FILE);
    with_argument(command, file)
}

fn drain_command<'a>(alloc: Global) -> Result<Command<'a>, AllocError>
    ensures app { IfOk result (λ command. app_of command ≡ drain_line) }
    ensures local { IfOk result (λ command. (out-Command command).has_globals ≡ false) }
{
    let (about, more) = (bucket_help::DRAIN, bucket_help::DRAIN_MORE);
    let control = value_argument(alloc, "control", "A", help::TELL_CONTROL);
    let command = plain_command(alloc, "drain", about, more);
    let command = with_argument(Ok(command), control);
    let timeout = timeout_argument(alloc);
    let command = with_argument(command, timeout);
    let key = positional_argument(alloc, "KEY", bucket_help::DRAIN_KEY);
    let command = with_argument(command, key);
    let member = positional_argument(alloc, "ID", bucket_help::DRAIN_MEMBER);
    with_argument(command, member)
}

fn metrics_command<'a>(alloc: Global) -> Result<Command<'a>, AllocError>
    ensures app { IfOk result (λ command. app_of command ≡ metrics_line) }
    ensures local { IfOk result (λ command. (out-Command command).has_globals ≡ false) }
{
    let control = value_argument(alloc, "control", "A", help::TELL_CONTROL);
    let command = plain_command(alloc, "metrics", help::METRICS, help::METRICS_MORE);
    let command = with_argument(Ok(command), control);
    let front = named_argument(alloc, "front", "A", help::METRICS_FRONT);
    let command = with_argument(command, front);
    let timeout = timeout_argument(alloc);
    with_argument(command, timeout)
}

fn top_command<'a>(alloc: Global) -> Result<Command<'a>, AllocError>
    ensures app { IfOk result (λ command. app_of command ≡ top_line) }
    ensures local { IfOk result (λ command. (out-Command command).has_globals ≡ false) }
{
    let control = value_argument(alloc, "control", "A", help::TELL_CONTROL);
    let command = plain_command(alloc, "top", help::TOP, help::TOP_MORE);
    let command = with_argument(Ok(command), control);
    let interval = number_argument(
        alloc,
        "interval",
        "SECONDS",
        MAX_INTERVAL,
        help::TOP_INTERVAL,
    );
    let command = with_argument(command, interval);
    let count = number_argument(alloc, "count", "N", u64::MAX, help::TOP_COUNT);
    let command = with_argument(command, count);
    let timeout = timeout_argument(alloc);
    with_argument(command, timeout)
}

// The program before its commands.
fn without_commands<'a>(alloc: Global) -> Result<Command<'a>, AllocError>
    ensures { IfOk result (λ program. app_of program ≡ without_commands) }
{
    Ok(
        Command::new(alloc, "dswitch")
            .bin_name("dswitch")?
            .about(help::PROGRAM)
            .after_help(help::STATUSES)
            .version("0.3.0")
            .no_binary_name(true)
            .subcommand_required(true),
    )
}

// Adds a command, if memory for both was found.
fn with_command<'a>(
    program: Result<Command<'a>, AllocError>,
    command: Result<Command<'a>, AllocError>,
) -> Result<Command<'a>, AllocError>
    ensures { (before line : App) → IfOk program.entry (λ made. app_of made ≡ before)
        → IfOk command.entry (λ made. (app_of made ≡ line) × ((out-Command made).has_globals ≡ false))
        → IfOk result (λ made. app_of made ≡ with_subcommand before line.top) }
{
    program?.subcommand(command?)
}

// The program with its commands up to `spread`.
fn with_queries<'a>(alloc: Global) -> Result<Command<'a>, AllocError>
    ensures { IfOk result (λ program. app_of program ≡ with_queries) }
{
    let program = without_commands(alloc);
    let first = plain_command(alloc, "first", help::FIRST, help::FIRST_MORE);
    let program = with_command(program, Ok(first));
    let program = with_command(program, check_command(alloc));
    let program = with_command(program, compile_command(alloc));
    let program = with_command(program, run_command(alloc));
    let program = with_command(program, pack_command(alloc));
    let program = with_command(program, explain_command(alloc));
    with_command(program, spread_command(alloc))
}

// The program with its commands up to `serve`.
fn with_workers<'a>(alloc: Global) -> Result<Command<'a>, AllocError>
    ensures { IfOk result (λ program. app_of program ≡ with_workers) }
{
    let program = with_command(with_queries(alloc), replay_command(alloc));
    let program = with_command(program, packets_command(alloc));
    let program = with_command(program, flood_command(alloc));
    with_command(program, serve_command(alloc))
}

// The program with its commands up to `drain`.
fn with_rules<'a>(alloc: Global) -> Result<Command<'a>, AllocError>
    ensures { IfOk result (λ program. app_of program ≡ with_rules) }
{
    let program = with_command(with_workers(alloc), tell_command(alloc));
    let program = with_command(program, rules_command(alloc));
    let program = with_command(program, load_command(alloc));
    with_command(program, drain_command(alloc))
}

pub(crate) fn program<'a>(alloc: Global) -> Result<Command<'a>, AllocError>
    ensures { IfOk result (λ program. app_of program ≡ command_line) }
{
    let program = with_command(with_rules(alloc), metrics_command(alloc));
    with_command(program, top_command(alloc))
}
