//! The rules of a switch, compared with those of a rules file and replaced by them (docs/COMMANDS.md, "load").

ghost use Rattle.std.specs.Prelude.{◌≡◌, ◌↔◌, ◌⊎◌, IfErr, IfOk, IfSome, IsTrue, MatchResult};
ghost use Rattle.config_diff.specs.Words.{words_config};
ghost use Rattle.control_line.specs.Rules.{IsConfigOf};
ghost use Rattle.control_rules.specs.Failing.{StopsAsking};
ghost use Rattle.control_rules.specs.History.{IsReadLine, Learns};
ghost use Rattle.control_rules.specs.Load.{FailsLoad, IsDifference, IsRequestFor, Loads, TryFails};
ghost use Rattle.control_rules.specs.body.Attempt.{IsAttempt, IsReplyRead};

use crate::ask_failure::AskFailure;
use crate::change_text::changes_text;
use crate::client::Client;
use crate::reading::{AGAIN, read_rules};
use crate::replies::read_published;
use config_diff::diff;
use control_client::{FromRead, InputLines, Wire, block_of, is_refusal};
use control_line::{RulesFault, rules};
use member_group::Config;
use std::alloc::{AllocError, Global};
use std::thread::sleep;
use std::time::{Clock, Duration};

/// How loading a rules file ended.
#[derive(Drop)]
pub enum Loaded {
    /// The switch has the file's rules at this version, by the words of their programs. Only lines that read were sent.
    Unchanged { version: u64 },
    /// The file's rules are this version.
    Published { version: u64 },
    /// The switch refused them with this reply, or they are too long to be sent. Nothing was changed.
    Refused(Vec<u8>),
    /// The rules changed, or a publication was busy, each time.
    Changed,
}

// How one attempt ended.
#[derive(Drop)]
pub(crate) enum Attempt {
    Ended(Loaded),
    // The version is another one, a publication is busy, or the reply is not one to a change. The rules show what was done.
    Again { busy: bool },
}

// The configuration that a switch has at a version, by the words of its programs.
#[derive(Drop)]
pub(crate) struct Running {
    pub(crate) version: u64,
    pub(crate) config: Config,
}

// How long a busy publication is waited for, in milliseconds.
const PAUSE: u64 = 10;

// The reply of a switch if a publication is busy, and the beginning of its reply if the version is another one.
const BUSY: &[u8] = b"refused B2";

const OUTDATED: &[u8] = b"refused M1 ";

// The configuration of a switch, or none if its rules changed each time that they were read.
pub(crate) fn read_running<D: Wire + Drop>(
    client: &mut Client<D>,
) -> Result<Option<Running>, AskFailure>
    ensures { MatchResult result
        (λ answer. Learns client.old client.new (λ history.
        IfSome answer (λ running. words_config running.config ≡ words_config (history running.version))))
        (λ failure. StopsAsking IsReadLine failure client.old client.new) }
{
    control_line::one_request();
    bpf_asm::one_value();
    let Some(read) = read_rules(client)? else {
        return Ok(None);
    };
    match rules(client.allocator(), &read.text) {
        Ok(config) => Ok(Some(Running {
            version: read.version,
            config,
        })),
        Err(RulesFault::OutOfMemory) => Err(AskFailure::OutOfMemory),
        Err(RulesFault::Refused { line: _, reason: _ }) => Ok(None),
    }
}

/// Returns the lines that lead from the rules of a switch to those of a configuration, each with LF. Returns `None` if the rules changed
/// each time that they were read. Changes nothing.
pub fn differences<D: Wire + Drop>(
    client: &mut Client<D>,
    config: &Config,
) -> Result<Option<Vec<u8>>, AskFailure>
    ensures read { IfOk result (λ answer. Learns client.old client.new (λ history.
        IfSome answer (λ text. IsDifference history (words_config config.now) text.items))) }
    ensures failed { IfErr result (λ failure. StopsAsking IsReadLine failure client.old client.new) }
{
    let Some(now) = read_running(client)? else {
        return Ok(None);
    };
    let alloc = client.allocator();
    let changes = diff(alloc, &now.config, config)?;
    Ok(Some(changes_text(alloc, &changes)?))
}

fn is_same(alloc: Global, one: &Config, other: &Config) -> Result<bool, AllocError>
    ensures { IfOk result (λ same. IsTrue same ↔ (words_config one.now ≡ words_config other.now)) }
{
    Ok(diff(alloc, one, other)?.is_empty())
}

// The rules of a file as one change of a version.
fn request_for(alloc: Global, version: u64, file: &[u8]) -> Result<Vec<u8>, AskFailure>
    ensures { MatchResult result
        (λ request. IsRequestFor file.now version request.items)
        (λ failure. (failure ≡ AskFailure.ReadFailed) ⊎ (failure ≡ AskFailure.OutOfMemory)) }
{
    let front = format!(in alloc; "at {version} anew ")?;
    match block_of(
        alloc,
        front.as_bytes(),
        &mut InputLines::new(alloc, &mut FromRead::new(file)),
    ) {
        Ok(request) => Ok(request),
        Err(failure) => Err(AskFailure::of(failure)),
    }
}

pub(crate) fn read_reply(reply: Vec<u8>) -> Attempt
    ensures { IsReplyRead reply.items result }
{
    if let Some(version) = read_published(&reply) {
        return Attempt::Ended(Loaded::Published { version });
    }
    if reply.starts_with(OUTDATED) {
        return Attempt::Again { busy: false };
    }
    if reply.as_slice() == BUSY {
        return Attempt::Again { busy: true };
    }
    if is_refusal(&reply) {
        return Attempt::Ended(Loaded::Refused(reply));
    }
    Attempt::Again { busy: false }
}

fn try_once<D: Wire + Drop>(
    client: &mut Client<D>,
    file: &[u8],
    config: &Config,
) -> Result<Attempt, AskFailure>
    ensures { MatchResult result
        (IsAttempt file.now (words_config config.now) client.old client.new)
        (λ failure. TryFails file.now (words_config config.now) failure client.old client.new) }
{
    let Some(now) = read_running(client)? else {
        return Ok(Attempt::Ended(Loaded::Changed));
    };
    let alloc = client.allocator();
    let version = now.version;
    if is_same(alloc, &now.config, config)? {
        return Ok(Attempt::Ended(Loaded::Unchanged { version }));
    }
    let request = request_for(alloc, version, file)?;
    let reply = client.ask(&request)?;
    Ok(read_reply(reply))
}

pub(crate) fn pause<R: Clock>(clock: &R, busy: bool) {
    if busy {
        sleep(clock, Duration::from_millis(PAUSE));
    }
}

/// Replaces the rules of a switch by those of a rules file, which makes this configuration, as one version. If they are the same, only
/// lines that read are sent.
///
/// If the switch has another version meanwhile, or is busy, the call begins again with reading, at most `AGAIN` times.
pub fn load<R: Clock, D: Wire + Drop>(
    clock: &R,
    client: &mut Client<D>,
    file: &[u8],
    config: &Config,
) -> Result<Loaded, AskFailure>
    requires { IsConfigOf file.now config.now }
    ensures loaded { IfOk result (Loads file.now (words_config config.now) client.old client.new) }
    ensures failed { IfErr result (λ failure. FailsLoad file.now (words_config config.now) failure client.old client.new) }
{
    for _turn in 0..=AGAIN {
        match try_once(client, file, config)? {
            Attempt::Ended(loaded) => return Ok(loaded),
            Attempt::Again { busy } => pause(clock, busy),
        }
    }
    Ok(Loaded::Changed)
}
