//! Which command the words name, with its arguments as `clap` found them (docs/COMMANDS.md).

ghost use Rattle.std.specs.Prelude.{◌≡◌, ◌≤◌, IfOk, IfSome, Some, codes, map, string_bytes};
ghost use Rattle.std.specs.Option.{option_map};
ghost use Rattle.clap.specs.Walk.{first_of};
ghost use Rattle.clap.specs.Words.{FailsBy, found_of, rows_of};
ghost use Rattle.command_line.specs.CommandLine.{command_in, command_named, command_of, count_in, datagrams_in, drain_in, explain, faults_in, flood_in, format_in, interval_in, is_set, load_in, metrics_in, number_in, pack_in, packets_in, query_request, receive_buffer_in, receive_in, receive_named, request_of, returning, rules_in, run_or_judge, serve_in, spread_in, tell_in, timeout_in, top_in, unwrap_in, value_in, values_in, workers_in};

use crate::builders::program;
use crate::command::{
    MAX_DATAGRAMS, MAX_INTERVAL, MAX_PORT, MAX_TIMEOUT, Query, Returning, Subcommand, Waiting,
    Workers,
};
use crate::receive::{MAX_RECEIVE_BUFFER, ReceiveBuffer, ReceiveWay};
use crate::shares;
use crate::value_fault::value_fault;
use clap::{ArgMatches, Error};
use std::alloc::{AllocError, Global};
use versions::WORKERS;

// The value of an argument, which a required one has.
pub(crate) fn value_of<'a>(found: &ArgMatches<'a>, id: &str) -> &'a str
    ensures { result.now ≡ value_in (rows_of (found_of found.now)) id.now }
{
    found.get_str(id).unwrap_or("")
}

// The value of an argument, if it has one.
fn given<'a>(found: &ArgMatches<'a>, id: &str) -> Option<&'a str>
    ensures { option_map (λ value. value.now) result ≡ first_of id.now (rows_of (found_of found.now)) }
{
    found.get_str(id)
}

// The values of an argument that may have any number of them.
pub(crate) fn values_of<'a>(
    alloc: Global,
    found: &ArgMatches<'a>,
    id: &str,
) -> Result<Vec<&'a str>, AllocError>
    ensures { IfOk result (λ values. map (λ value. value.now) values.items ≡ values_in (rows_of (found_of found.now)) id.now) }
{
    match found.get_raw(id) {
        None => Ok(Vec::new(alloc)),
        Some(values) => Vec::from_slice(alloc, values),
    }
}

// Reads the number of a text, `None` if it is not one from 1 to `most`.
fn number(most: u64, text: &str) -> Option<u64>
    ensures number { result ≡ number_in most text.now }
    ensures in_range { IfSome result (λ number. (1 ≤ number) × (number ≤ most)) }
{
    match text.parse::<u64>() {
        Ok(number) if (1..=most).contains(&number) => Some(number),
        _ => None,
    }
}

fn workers_of(found: &ArgMatches) -> Option<Workers>
    ensures { option_map (λ workers. workers.count) result ≡ workers_in (rows_of (found_of found.now)) }
{
    let Some(count) = number(WORKERS as u64, value_of(found, "workers")) else {
        return None;
    };
    Some(Workers {
        count: count as usize,
    })
}

fn timeout_of(found: &ArgMatches) -> Option<u64>
    ensures { result ≡ timeout_in (rows_of (found_of found.now)) }
{
    number(MAX_TIMEOUT, found.get_str("timeout").unwrap_or("1"))
}

fn interval_of(found: &ArgMatches) -> Option<u64>
    ensures { result ≡ interval_in (rows_of (found_of found.now)) }
{
    number(MAX_INTERVAL, found.get_str("interval").unwrap_or("1"))
}

fn count_of(found: &ArgMatches) -> Option<u64>
    ensures { result ≡ count_in (rows_of (found_of found.now)) }
{
    let text = found.get_str("count").unwrap_or("18446744073709551615");
    number(u64::MAX, text)
}

fn datagrams_of(found: &ArgMatches) -> Option<u64>
    ensures { result ≡ datagrams_in (rows_of (found_of found.now)) }
{
    let text = found.get_str("datagrams").unwrap_or("4096");
    number(MAX_DATAGRAMS, text)
}

// The way to receive that a text names.
fn receive_named(text: &str) -> Option<ReceiveWay>
    ensures { result ≡ receive_named text.now }
{
    match text {
        "queued" => Some(ReceiveWay::Queued),
        "direct" => Some(ReceiveWay::Direct),
        _ => None,
    }
}

fn receive_of(found: &ArgMatches) -> Option<ReceiveWay>
    ensures { result ≡ receive_in (rows_of (found_of found.now)) }
{
    receive_named(found.get_str("receive").unwrap_or("queued"))
}

// The receive buffer, if it is given; `None` if what is given is none.
fn receive_buffer_of(found: &ArgMatches) -> Option<Option<ReceiveBuffer>>
    ensures { option_map (λ given. option_map (λ buffer. buffer.bytes) given) result ≡ receive_buffer_in (rows_of (found_of found.now)) }
{
    let Some(text) = given(found, "receive-buffer") else {
        return Some(None);
    };
    let Some(bytes) = number(MAX_RECEIVE_BUFFER as u64, text) else {
        return None;
    };
    Some(Some(ReceiveBuffer {
        bytes: bytes as u32,
    }))
}

// Whether a flag is given.
fn is_set(found: &ArgMatches, id: &str) -> bool
    ensures { result ≡ is_set (rows_of (found_of found.now)) id.now }
{
    value_of(found, id) == "true"
}

fn format_of<'a>(found: &ArgMatches<'a>) -> &'a str
    ensures { result.now ≡ format_in (rows_of (found_of found.now)) }
{
    found.get_str("format").unwrap_or("asm")
}

fn run_or_judge<'a>(found: &ArgMatches<'a>) -> Query<'a>
    ensures { query_request result
        ≡ run_or_judge (value_in (rows_of (found_of found.now)) (codes "packet")) (format_in (rows_of (found_of found.now)))
        (first_of (codes "expr") (rows_of (found_of found.now))) }
{
    let packet = value_of(found, "packet");
    let format = format_of(found);
    match found.get_str("expr") {
        None => Query::Run { packet, format },
        Some(expression) => Query::Judge { packet, expression },
    }
}

fn pack<'a>(found: &ArgMatches<'a>) -> Query<'a>
    ensures { query_request result ≡ pack_in (rows_of (found_of found.now)) }
{
    Query::Pack {
        from: value_of(found, "from"),
        to: value_of(found, "to"),
        payload: given(found, "payload"),
        text: given(found, "text"),
    }
}

// The port to unwrap, if it is given; `None` if what is given is none.
fn unwrap_of(found: &ArgMatches) -> Option<Option<u16>>
    ensures { result ≡ unwrap_in (rows_of (found_of found.now)) }
{
    let Some(text) = given(found, "unwrap") else {
        return Some(None);
    };
    let Some(port) = number(MAX_PORT, text) else {
        return None;
    };
    Some(Some(port as u16))
}

fn packets<'a>(found: &ArgMatches<'a>) -> Option<Subcommand<'a>>
    ensures { option_map command_of result ≡ packets_in (rows_of (found_of found.now)) }
{
    let unwrap = unwrap_of(found)?;
    Some(Subcommand::Returning(Returning::Packets { unwrap }))
}

fn flood<'a>(found: &ArgMatches<'a>) -> Option<Subcommand<'a>>
    ensures { option_map command_of result ≡ flood_in (rows_of (found_of found.now)) }
{
    let workers = workers_of(found)?;
    let datagrams = datagrams_of(found)? as usize;
    Some(Subcommand::Waiting(Waiting::Flood { workers, datagrams }))
}

fn serve<'a>(found: &ArgMatches<'a>) -> Option<Subcommand<'a>>
    ensures { option_map command_of result ≡ serve_in (rows_of (found_of found.now)) }
{
    let workers = workers_of(found)?;
    let receive = receive_of(found)?;
    let buffer = receive_buffer_of(found)?;
    Some(Subcommand::Waiting(Waiting::Serve {
        front: value_of(found, "front"),
        control: value_of(found, "control"),
        workers,
        rules: given(found, "rules"),
        log: is_set(found, "log"),
        receive,
        buffer,
    }))
}

fn rules<'a>(found: &ArgMatches<'a>) -> Option<Subcommand<'a>>
    ensures { option_map command_of result ≡ rules_in (rows_of (found_of found.now)) }
{
    let timeout = timeout_of(found)?;
    Some(Subcommand::Waiting(Waiting::Rules {
        control: value_of(found, "control"),
        timeout,
    }))
}

fn load<'a>(found: &ArgMatches<'a>) -> Option<Subcommand<'a>>
    ensures { option_map command_of result ≡ load_in (rows_of (found_of found.now)) }
{
    let timeout = timeout_of(found)?;
    Some(Subcommand::Waiting(Waiting::Load {
        control: given(found, "control"),
        timeout,
        file: value_of(found, "FILE"),
        check: is_set(found, "check"),
        diff: is_set(found, "diff"),
    }))
}

fn drain<'a>(found: &ArgMatches<'a>) -> Option<Subcommand<'a>>
    ensures { option_map command_of result ≡ drain_in (rows_of (found_of found.now)) }
{
    let timeout = timeout_of(found)?;
    Some(Subcommand::Waiting(Waiting::Drain {
        control: value_of(found, "control"),
        timeout,
        key: value_of(found, "KEY"),
        member: value_of(found, "ID"),
    }))
}

fn metrics<'a>(found: &ArgMatches<'a>) -> Option<Subcommand<'a>>
    ensures { option_map command_of result ≡ metrics_in (rows_of (found_of found.now)) }
{
    let timeout = timeout_of(found)?;
    Some(Subcommand::Waiting(Waiting::Metrics {
        control: value_of(found, "control"),
        front: given(found, "front"),
        timeout,
    }))
}

fn top<'a>(found: &ArgMatches<'a>) -> Option<Subcommand<'a>>
    ensures { option_map command_of result ≡ top_in (rows_of (found_of found.now)) }
{
    let interval = interval_of(found)?;
    let count = count_of(found)?;
    let timeout = timeout_of(found)?;
    Some(Subcommand::Waiting(Waiting::Top {
        control: value_of(found, "control"),
        interval,
        count,
        timeout,
    }))
}

// `explain`, `spread` and `tell` take memory for their arguments.
fn explain<'a>(alloc: Global, found: &ArgMatches<'a>) -> Result<Option<Subcommand<'a>>, AllocError>
    ensures { IfOk result (λ command. option_map command_of command ≡ Some (returning (explain (values_in (rows_of (found_of found.now)) (codes "WORD"))))) }
{
    returning(Returning::Query(Query::Explain {
        words: values_of(alloc, found, "WORD")?,
    }))
}

fn spread<'a>(alloc: Global, found: &ArgMatches<'a>) -> Result<Option<Subcommand<'a>>, AllocError>
    ensures { IfOk result (λ command. option_map command_of command ≡ spread_in (rows_of (found_of found.now))) }
{
    let words = values_of(alloc, found, "ID=WEIGHT")?;
    let buckets = value_of(found, "buckets");
    let by = value_of(found, "by");
    let Some(asked) = shares::spreading_in(alloc, buckets, by, &words)? else {
        return Ok(None);
    };
    returning(Returning::Query(Query::Spread(asked)))
}

fn tell<'a>(alloc: Global, found: &ArgMatches<'a>) -> Result<Option<Subcommand<'a>>, AllocError>
    ensures { IfOk result (λ command. option_map command_of command ≡ tell_in (rows_of (found_of found.now))) }
{
    let lines = values_of(alloc, found, "LINE")?;
    let Some(timeout) = timeout_of(found) else {
        return Ok(None);
    };
    Ok(Some(Subcommand::Waiting(Waiting::Tell {
        control: value_of(found, "control"),
        timeout,
        all: is_set(found, "all"),
        lines,
    })))
}

fn returning<'a>(command: Returning<'a>) -> Result<Option<Subcommand<'a>>, AllocError>
    ensures { IfOk result (λ made. option_map command_of made ≡ Some (returning (request_of command.entry))) }
{
    Ok(Some(Subcommand::Returning(command)))
}

// The command of that name, with its arguments as `clap` found them.
fn subcommand_of<'a>(
    alloc: Global,
    name: &str,
    found: &ArgMatches<'a>,
) -> Result<Option<Subcommand<'a>>, AllocError>
    ensures { IfOk result (λ command. option_map command_of command ≡ command_named name.now (rows_of (found_of found.now))) }
{
    match name {
        "first" => returning(Returning::Query(Query::First)),
        "check" => returning(Returning::Query(Query::Check {
            format: format_of(found),
        })),
        "compile" => returning(Returning::Query(Query::Compile {
            expression: value_of(found, "EXPR"),
            format: format_of(found),
        })),
        "run" => returning(Returning::Query(run_or_judge(found))),
        "pack" => returning(Returning::Query(pack(found))),
        "explain" => explain(alloc, found),
        "spread" => spread(alloc, found),
        "replay" => returning(Returning::Replay {
            summary: is_set(found, "summary"),
            quiet: is_set(found, "quiet"),
        }),
        "packets" => Ok(packets(found)),
        "flood" => Ok(flood(found)),
        "serve" => Ok(serve(found)),
        "tell" => tell(alloc, found),
        "rules" => Ok(rules(found)),
        "load" => Ok(load(found)),
        "drain" => Ok(drain(found)),
        "metrics" => Ok(metrics(found)),
        "top" => Ok(top(found)),
        _ => Ok(None),
    }
}

/// Reads the words after the program's name. `Err` is a fault of the words, or the help or the version that they ask for.
pub fn read_words<'a>(alloc: Global, words: &'a [String]) -> Result<Subcommand<'a>, Error>
    ensures faults { FailsBy (faults_in (map string_bytes words.entry.now)) result }
    ensures named { IfOk result (λ command. command_in (map string_bytes words.entry.now) ≡ Some (command_of command)) }
{
    let program = program(alloc)?;
    let matches = program.try_get_matches_from(words)?;
    let Some((name, found)) = matches.subcommand() else {
        unreachable!();
    };
    match subcommand_of(alloc, name, found)? {
        Some(command) => Ok(command),
        None => Err(value_fault(alloc, name, found)?),
    }
}
