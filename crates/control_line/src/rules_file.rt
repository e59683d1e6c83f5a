//! Rules files, and the configuration that one makes (docs/COMMANDS.md, "Rules files").

ghost use Rattle.std.specs.Prelude.{◌≡◌, ◌≤◌, ◌↔◌, IsTrue, MatchOption, MatchResult, [], length};
ghost use Rattle.control_line.specs.Rules.{IsConfigOf, IsFaultOfFile, IsShortFile, is_blank, is_skipped, line_numbered, lines_in, rule_of, rules_in, without_return};
ghost use Rattle.control_line.specs.body.Rules.{AreRulesDone, IsFileFaultAt, IsFirstLine, IsLineDone, IsLineFaultAt};

use crate::change::do_line;
use crate::program::LineFault;
use crate::reason::Reason;
use crate::{BLOCK_LIMIT, MOST_LINES};
use ipv4_fields::split_at;
use member_group::Config;
use retire::PublishFault;
use std::alloc::Global;
use versions::CHARGE_LIMIT;

/// Why a rules file makes no configuration.
#[derive(Clone, Copy, Debug, PartialEq, Eq)]
pub enum RulesFault {
    /// The file is refused: its line, counted from 1 among all lines, if the fault is a line's, and why.
    Refused { line: Option<u32>, reason: Reason },
    /// Memory was refused.
    OutOfMemory,
}

fn is_blank(byte: u8) -> bool
    ensures { result ≡ is_blank byte }
{
    byte == b' ' || byte == b'\t' || byte == b'\r'
}

/// Tests whether a line is skipped: it is empty, or has only spaces, tabs and CR, or its first other byte is `#`.
pub fn is_skipped(line: &[u8]) -> bool
    ensures { result ≡ is_skipped line.now }
{
    let mut left = line;
    while let [byte, rest @ ..] = left {
        if !is_blank(*byte) {
            return *byte == b'#';
        }
        left = rest;
    }
    true
}

/// Returns the line without the CR at its end, if there is one.
#[tactic(auto, using(crate::proofs::RulesLemmas::return_is_cut, crate::proofs::RulesLemmas::other_is_kept))]
pub fn without_return(line: &[u8]) -> &[u8]
    ensures { result.now ≡ without_return line.now }
{
    match line.split_last() {
        Some((last, front)) if *last == b'\r' => front,
        _ => line,
    }
}

// The next line of a text, without its LF, and the rest.
#[tactic(auto, using(crate::proofs::RulesLemmas::first_line_cut, crate::proofs::RulesLemmas::first_line_last))]
fn next_line(text: &[u8]) -> Option<(&[u8], &[u8])>
    ensures { MatchOption result (text.now ≡ []) (λ parts. IsFirstLine text.now parts.0.now parts.1.now) }
{
    if text.is_empty() {
        return None;
    }
    match split_at(b'\n', text) {
        Some((line, rest)) => Some((line, rest)),
        None => Some((text, &text[text.len()..])),
    }
}

/// Returns the line of a text with this number, from 1, without its LF and without the CR at its end. It is empty if there is none.
pub fn line_at(text: &[u8], number: u32) -> &[u8]
    ensures { result.now ≡ without_return (line_numbered number (lines_in text.now)) }
{
    let mut before = number;
    let mut left = text;
    while let Some((line, rest)) = next_line(left) {
        if before <= 1 {
            return without_return(line);
        }
        before -= 1;
        left = rest;
    }
    left
}

// How many rules are in a line: none if it is skipped, else one.
fn rules_at(line: &[u8]) -> usize
    ensures count { result ≡ length (rule_of 1 line.now) }
    ensures one { result ≤ 1 }
{
    if is_skipped(line) { 0 } else { 1 }
}

// How many lines of a text are not skipped.
fn count_rules(text: &[u8]) -> usize
    ensures { result ≡ length (rules_in text.now) }
{
    let mut count = 0;
    let mut left = text;
    while let Some((line, rest)) = next_line(left) {
        count += rules_at(line);
        left = rest;
    }
    count
}

// Changes a configuration by a line of a file.
#[tactic(auto, using(crate::proofs::RulesLemmas::line_skipped, crate::proofs::RulesLemmas::line_is_done, crate::proofs::RulesLemmas::line_is_refused))]
fn do_rule(alloc: Global, config: &mut Config, line: &[u8], number: u32) -> Result<(), RulesFault>
    ensures { MatchResult result (λ _. IsLineDone config.old line.now config.new) (IsLineFaultAt config.old line.now number) }
{
    if is_skipped(line) {
        return Ok(());
    }
    match do_line(alloc, config, without_return(line)) {
        Ok(()) => Ok(()),
        Err(LineFault::Refused(reason)) => Err(RulesFault::Refused {
            line: Some(number),
            reason,
        }),
        Err(LineFault::OutOfMemory) => Err(RulesFault::OutOfMemory),
    }
}

// Applies the lines of a file, one after the other, whatever their charge.
#[tactic(auto, using(crate::proofs::RulesLemmas::none_done))]
fn config_of_rules(alloc: Global, text: &[u8]) -> Result<Config, RulesFault>
    requires { length text.now ≤ BLOCK_LIMIT }
    ensures { MatchResult result (AreRulesDone text.now) (IsFileFaultAt text.now) }
{
    let mut config = Config::new(alloc);
    let mut number = 0;
    let mut left = text;
    while let Some((line, rest)) = next_line(left) {
        number += 1;
        do_rule(alloc, &mut config, line, number)?;
        left = rest;
    }
    Ok(config)
}

fn is_short(text: &[u8]) -> bool
    ensures { IsTrue result ↔ IsShortFile text.now }
{
    text.len() <= BLOCK_LIMIT && count_rules(text) <= MOST_LINES as usize
}

/// Makes the configuration of a rules file, beginning without groups.
///
/// A file that is too long, or has too many lines that are not skipped, is refused first. Then come the lines in their order, and
/// the charge of the configuration last. The text may be any bytes.
#[tactic(auto, using(crate::proofs::RulesLemmas::big_file, crate::proofs::RulesLemmas::file_made))]
pub fn rules(alloc: Global, text: &[u8]) -> Result<Config, RulesFault>
    ensures { MatchResult result (IsConfigOf text.now) (IsFaultOfFile text.now) }
{
    if !is_short(text) {
        return Err(RulesFault::Refused {
            line: None,
            reason: Reason::LineTooLong,
        });
    }
    let config = config_of_rules(alloc, text)?;
    if config.charge() > CHARGE_LIMIT {
        return Err(RulesFault::Refused {
            line: None,
            reason: Reason::Publishing(PublishFault::TooBig),
        });
    }
    Ok(config)
}
