//! A member that is drained: its buckets go to the other members of its group, and it leaves (docs/COMMANDS.md, "drain").

ghost use Rattle.std.specs.Prelude.{◌≡◌, ◌⊎◌, IfErr, IfOk, List, MatchResult, ℕ};
ghost use Rattle.control_rules.specs.Drain.{DrainTryFails, Drains, FailsDrain, IsDrainRequest};
ghost use Rattle.control_rules.specs.Text.{changes_text};
ghost use Rattle.control_rules.specs.body.Attempt.{IsReplyRead};
ghost use Rattle.control_rules.specs.body.Draining.{IsDrainAttempt, IsDrainReplyRead};
ghost use Rattle.member_group.specs.declared.command.Command.{Command as CommandValue};

use crate::ask_failure::AskFailure;
use crate::client::Client;
use crate::drain_refusal::DrainRefusal;
use crate::loading::{Attempt, Loaded, pause, read_reply, read_running};
use crate::planning::{Plan, planned};
use crate::reading::AGAIN;
use control_client::{FromRead, InputLines, Wire, block_of};
use ipv4_fields::Endpoint;
use std::alloc::Global;
use std::time::Clock;

/// How draining a member ended.
#[derive(Drop)]
pub enum Drained {
    /// The member has left at this version, and others have its buckets.
    Published { version: u64 },
    /// The switch refused the change with this reply, or it is too long to be sent. Nothing was changed.
    Refused(Vec<u8>),
    /// The member cannot be drained. Only lines that read were sent.
    Unsent(DrainRefusal),
    /// The rules changed, or a publication was busy, each time.
    Changed,
}

// How one attempt ended.
#[derive(Drop)]
enum DrainAttempt {
    Ended(Drained),
    // The version is another one, a publication is busy, or the reply is not one to a change. The rules show what was done.
    Again { busy: bool },
}

// Two lines as one change of a version.
fn request_for(alloc: Global, version: u64, lines: &[u8]) -> Result<Vec<u8>, AskFailure>
    ensures { MatchResult result
        (λ request. (commands : List (CommandValue (List ℕ))) → lines.now ≡ changes_text commands → IsDrainRequest version commands request.items)
        (λ failure. (failure ≡ AskFailure.ReadFailed) ⊎ (failure ≡ AskFailure.OutOfMemory)) }
{
    let front = format!(in alloc; "at {version} all ")?;
    match block_of(
        alloc,
        front.as_bytes(),
        &mut InputLines::new(alloc, &mut FromRead::new(lines)),
    ) {
        Ok(request) => Ok(request),
        Err(failure) => Err(AskFailure::of(failure)),
    }
}

fn attempt_of(read: Attempt) -> DrainAttempt
    ensures { (reply : List ℕ) → IsReplyRead reply read → IsDrainReplyRead reply result }
{
    match read {
        Attempt::Ended(Loaded::Published { version }) => {
            DrainAttempt::Ended(Drained::Published { version })
        }
        Attempt::Ended(Loaded::Refused(reply)) => DrainAttempt::Ended(Drained::Refused(reply)),
        Attempt::Ended(Loaded::Unchanged { version: _ }) => DrainAttempt::Again { busy: false },
        Attempt::Ended(Loaded::Changed) => DrainAttempt::Again { busy: false },
        Attempt::Again { busy } => DrainAttempt::Again { busy },
    }
}

fn try_drain<D: Wire + Drop>(
    client: &mut Client<D>,
    key: Endpoint,
    id: u32,
) -> Result<DrainAttempt, AskFailure>
    ensures { MatchResult result
        (IsDrainAttempt key id client.old client.new)
        (λ failure. DrainTryFails key id failure client.old client.new) }
{
    let Some(now) = read_running(client)? else {
        return Ok(DrainAttempt::Ended(Drained::Changed));
    };
    let alloc = client.allocator();
    let lines = match planned(alloc, &now.config, key, id)? {
        Plan::Refused(refusal) => return Ok(DrainAttempt::Ended(Drained::Unsent(refusal))),
        Plan::Lines(lines) => lines,
    };
    let request = request_for(alloc, now.version, &lines)?;
    let reply = client.ask(&request)?;
    Ok(attempt_of(read_reply(reply)))
}

/// Takes the member of a number out of a group whose selector `spread` made, as one version: the other members take its buckets, and
/// it leaves.
///
/// If the switch has another version meanwhile, or is busy, the call begins again with reading, at most `AGAIN` times.
pub fn drain<R: Clock, D: Wire + Drop>(
    clock: &R,
    client: &mut Client<D>,
    key: Endpoint,
    id: u32,
) -> Result<Drained, AskFailure>
    ensures drained { IfOk result (Drains key id client.old client.new) }
    ensures failed { IfErr result (λ failure. FailsDrain key id failure client.old client.new) }
{
    for _turn in 0..=AGAIN {
        match try_drain(client, key, id)? {
            DrainAttempt::Ended(drained) => return Ok(drained),
            DrainAttempt::Again { busy } => pause(clock, busy),
        }
    }
    Ok(Drained::Changed)
}
