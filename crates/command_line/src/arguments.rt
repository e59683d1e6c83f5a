//! The arguments of the commands, as `clap` reads them: a function for each kind.

ghost use Rattle.std.specs.Prelude.{◌≡◌, codes, false};
ghost use Rattle.clap.specs.Words.{rule_of};
ghost use Rattle.command_line.specs.Arguments.{any_number_of, flag, named_argument, number_argument, required_argument, required_named_argument, some_number_of, timeout_argument, workers_argument};

use crate::command::MAX_TIMEOUT;
use crate::help;
use clap::builder::ValueParser;
use clap::{Arg, ArgAction};
use std::alloc::Global;
use versions::WORKERS;

// A word without an option before it, which is required.
pub(crate) fn positional_argument<'a>(alloc: Global, name: &'a str, help: &'a str) -> Arg<'a>
    ensures rule { rule_of result ≡ required_argument name.entry.now }
    ensures local { result.global ≡ false }
{
    Arg::new(alloc, name).required(true).help(help)
}

// `--NAME VALUE`, if it is there. `value` says in the help what the value is.
pub(crate) fn named_argument<'a>(
    alloc: Global,
    name: &'a str,
    value: &'a str,
    help: &'a str,
) -> Arg<'a>
    ensures rule { rule_of result ≡ named_argument name.entry.now }
    ensures local { result.global ≡ false }
{
    Arg::new(alloc, name)
        .long(name)
        .value_name(value)
        .help(help)
}

// `--NAME VALUE`, which is required.
pub(crate) fn value_argument<'a>(
    alloc: Global,
    name: &'a str,
    value: &'a str,
    help: &'a str,
) -> Arg<'a>
    ensures rule { rule_of result ≡ required_named_argument name.entry.now }
    ensures local { result.global ≡ false }
{
    Arg::new(alloc, name)
        .long(name)
        .value_name(value)
        .required(true)
        .help(help)
}

// `--NAME N`, if it is there: a number from 1 to `most`.
pub(crate) fn number_argument<'a>(
    alloc: Global,
    name: &'a str,
    value: &'a str,
    most: u64,
    help: &'a str,
) -> Arg<'a>
    ensures rule { rule_of result ≡ number_argument name.entry.now most }
    ensures local { result.global ≡ false }
{
    Arg::new(alloc, name)
        .long(name)
        .value_name(value)
        .value_parser(ValueParser::unsigned(1, most))
        .help(help)
}

// `--timeout SECONDS`
pub(crate) fn timeout_argument<'a>(alloc: Global) -> Arg<'a>
    ensures rule { rule_of result ≡ timeout_argument }
    ensures local { result.global ≡ false }
{
    number_argument(alloc, "timeout", "SECONDS", MAX_TIMEOUT, help::TELL_TIMEOUT)
}

// `--workers N`
pub(crate) fn workers_argument<'a>(alloc: Global, help: &'a str) -> Arg<'a>
    ensures rule { rule_of result ≡ workers_argument }
    ensures local { result.global ≡ false }
{
    Arg::new(alloc, "workers")
        .long("workers")
        .value_name("N")
        .required(true)
        .value_parser(ValueParser::unsigned(1, WORKERS as u64))
        .help(help)
}

// `--NAME`
pub(crate) fn flag_argument<'a>(alloc: Global, name: &'a str, help: &'a str) -> Arg<'a>
    ensures rule { rule_of result ≡ flag name.entry.now }
    ensures local { result.global ≡ false }
{
    Arg::new(alloc, name)
        .long(name)
        .action(ArgAction::SetTrue)
        .help(help)
}

// `NAME..`, one or more words.
pub(crate) fn words_argument<'a>(alloc: Global, name: &'a str, help: &'a str) -> Arg<'a>
    ensures rule { rule_of result ≡ some_number_of name.entry.now }
    ensures local { result.global ≡ false }
{
    Arg::new(alloc, name)
        .required(true)
        .action(ArgAction::Append)
        .help(help)
}

// `LINE..`
pub(crate) fn lines_argument<'a>(alloc: Global) -> Arg<'a>
    ensures rule { rule_of result ≡ any_number_of (codes "LINE") }
    ensures local { result.global ≡ false }
{
    Arg::new(alloc, "LINE")
        .action(ArgAction::Append)
        .help(help::TELL_LINES)
}
