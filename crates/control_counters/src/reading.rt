//! One reading of all counters of a switch (docs/COMMANDS.md, "metrics").

ghost use Rattle.std.specs.Prelude.{◌≡◌, IfErr, IfSome, IsTrue, MatchResult, Some};
ghost use Rattle.control_rules.specs.Shown.{IsShownOf};
ghost use Rattle.control_counters.specs.Failing.{FailsCounting, FailsWatching};
ghost use Rattle.control_counters.specs.Reading.{AreCountersOf, IsKnown};
ghost use Rattle.control_counters.specs.Watching.{Watches};
ghost use Rattle.control_counters.specs.body.Framed.{AreCountsOf};

use crate::asking::ask_measures;
use crate::counting::counted;
use crate::frame::read_frame;
use control_client::Wire;
use control_rules::{AGAIN, AskFailure, Client, Shown};
use counter_text::{Counters, totals_again};
use std::time::{Clock, Instant};

/// The counters of a switch.
#[derive(Drop)]
pub struct Reading {
    pub counters: Counters,
    /// The time at which counting began, after the groups and members were known.
    pub begun: Instant,
}

fn now<R: Clock>(clock: &R) -> Result<Instant, AskFailure>
    ensures { IfErr result (λ failure. failure ≡ AskFailure.PollFailed) }
{
    match Instant::now(clock) {
        Ok(now) => Ok(now),
        Err(_) => Err(AskFailure::PollFailed),
    }
}

// Tests whether the rules are still those of an earlier reading, as far as their measures say so.
fn is_unchanged(known: &Counters, shown: Shown) -> bool
    ensures { IsTrue result → known.now.version ≡ shown.version }
{
    known.version == shown.version
        && known.charge == shown.charge
        && known.groups.len() == shown.groups as usize
        && known.members.len() == shown.members as usize
}

// Counts the groups and members of an earlier reading. Returns `None` if a total fell: the switch is another one.
fn recounted<R: Clock, D: Wire + Drop>(
    clock: &R,
    client: &mut Client<D>,
    known: &Counters,
) -> Result<Option<Reading>, AskFailure>
    ensures { MatchResult result
        (λ answer. Watches client.old client.new (λ history told. IsKnown history (Some known.entry) →
        IfSome answer (λ reading. AreCountsOf history known.entry.now.version told reading.counters)))
        (λ failure. FailsWatching (λ told. Unit {0}) failure client.old client.new) }
{
    let begun = now(clock)?;
    let Some(counters) = counted(client, known)? else {
        return Ok(None);
    };
    if totals_again(known.totals, counters.totals) {
        return Ok(None);
    }
    Ok(Some(Reading { counters, begun }))
}

// Reads the groups and members that were shown, and counts them.
fn read_anew<R: Clock, D: Wire + Drop>(
    clock: &R,
    client: &mut Client<D>,
    shown: Shown,
) -> Result<Option<Reading>, AskFailure>
    ensures { MatchResult result
        (λ answer. Watches client.old client.new (λ history told. IsShownOf (history shown.version) shown →
        IfSome answer (λ reading. AreCountsOf history shown.version told reading.counters)))
        (λ failure. FailsWatching (λ told. Unit {0}) failure client.old client.new) }
{
    let Some(frame) = read_frame(client, shown)? else {
        return Ok(None);
    };
    let begun = now(clock)?;
    let Some(counters) = counted(client, &frame)? else {
        return Ok(None);
    };
    Ok(Some(Reading { counters, begun }))
}

fn read_once<R: Clock, D: Wire + Drop>(
    clock: &R,
    client: &mut Client<D>,
    earlier: Option<&Counters>,
) -> Result<Option<Reading>, AskFailure>
    ensures { MatchResult result
        (λ answer. Watches client.old client.new (λ history told. IsKnown history earlier.entry →
        IfSome answer (λ reading. AreCountersOf history told reading.counters)))
        (λ failure. FailsCounting failure client.old client.new) }
{
    let Some(shown) = ask_measures(client)? else {
        return Ok(None);
    };
    match earlier {
        Some(known) if is_unchanged(known, shown) => recounted(clock, client, known),
        _ => read_anew(clock, client, shown),
    }
}

/// Reads the counters of a switch. If a reply is of another version, or has no counts, begins again, at most `AGAIN` times. Returns
/// `None` if no attempt came to the end.
///
/// The groups and members of an earlier reading are not read again if the version and the measures are still the same, and no total
/// fell.
/// The reason: docs/INTERNALS.md, "Members are not read again".
pub fn read_counters<R: Clock, D: Wire + Drop>(
    clock: &R,
    client: &mut Client<D>,
    earlier: Option<&Counters>,
) -> Result<Option<Reading>, AskFailure>
    ensures { MatchResult result
        (λ answer. Watches client.old client.new (λ history told. IsKnown history earlier.entry →
        IfSome answer (λ reading. AreCountersOf history told reading.counters)))
        (λ failure. FailsCounting failure client.old client.new) }
{
    let mut known = earlier;
    for _turn in 0..=AGAIN {
        if let Some(reading) = read_once(clock, client, known)? {
            return Ok(Some(reading));
        }
        known = None;
    }
    Ok(None)
}
