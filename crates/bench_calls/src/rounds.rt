//! The calls, repeated.

ghost use Rattle.std.specs.Prelude.{◌≡◌, ◌≤◌, ◌⊎◌, length};

use bpf_insn::Words;
use bpf_verify::Program;
use control_line::line;
use ipv4_fields::Endpoint;
use member_counts::{MemberTable, VerdictLog};
use member_group::{Command, Config};
use packet_verdict::{Kind, Verdict, judge};
use read_section::{Operator, Worker};
use retire::Retire;
use std::alloc::Global;

pub(crate) fn section_rounds(worker: &mut Worker, rounds: u64) -> u64
    ensures { result ≡ rounds }
{
    for _ in 0..rounds {
        let mut section = worker.enter();
        if section.count() > 0 {
            let _ = section.word(0);
        }
        section.leave();
    }
    rounds
}

// Not inlined, like the function of dispatch that judges packets. The verdict is written where the caller wants it, so that a caller that
// reads some of its fields loads no others.
#[inline(never)]
fn judge_in_section(worker: &mut Worker, packet: &[u8], verdict: &mut Verdict)
    requires { length packet.now ≤ 65535 }
{
    let mut section = worker.enter();
    *verdict = judge(&mut section, packet);
    section.leave();
}

pub(crate) fn judge_rounds(worker: &mut Worker, packet: &[u8], rounds: u64) -> u64
    requires { length packet.now ≤ 65535 }
    ensures { result ≡ rounds }
{
    let mut verdict = Verdict::Malformed;
    for _ in 0..rounds {
        judge_in_section(worker, packet, &mut verdict);
    }
    rounds
}

const KINDS: usize = 7;

// Words of its own, not those of a tally, which threads share.
#[inline]
fn count_kind(counts: &mut [u64; KINDS], kind: Kind) {
    let place = kind as usize;
    counts[place] = counts[place].wrapping_add(1);
}

/// Returns how many kinds were counted.
pub(crate) fn kind_rounds(worker: &mut Worker, packet: &[u8], rounds: u64) -> u64
    requires { length packet.now ≤ 65535 }
    ensures { result ≤ rounds }
{
    let mut counts = [0; KINDS];
    let mut verdict = Verdict::Malformed;
    for _ in 0..rounds {
        judge_in_section(worker, packet, &mut verdict);
        count_kind(&mut counts, verdict.kind());
    }
    let mut sum = 0u64;
    for count in counts {
        sum = sum.wrapping_add(count);
    }
    sum.min(rounds)
}

// A worker's log is handed on after this many verdicts.
const BATCH: u64 = 64;

// Adds the log to the table, if that is asked, and empties it.
fn hand_on(log: &mut VerdictLog, table: &mut MemberTable, adds: bool) {
    if adds {
        table.count(log);
    }
    log.clear();
}

// Counts a verdict that may begin a run, if there is room.
#[inline(never)]
fn begin_run(log: &mut VerdictLog, verdict: &Verdict) {
    if !log.judged_again(verdict) && !log.is_full() {
        log.judged(verdict);
    }
}

// Judges the packet and counts the verdict in the log, if there is room.
#[inline]
fn judge_and_log(worker: &mut Worker, packet: &[u8], verdict: &mut Verdict, log: &mut VerdictLog)
    requires { length packet.now ≤ 65535 }
{
    judge_in_section(worker, packet, verdict);
    if !log.delivered_again(verdict) {
        begin_run(log, verdict);
    }
}

pub(crate) fn count_rounds(
    alloc: Global,
    worker: &mut Worker,
    packet: &[u8],
    adds: bool,
    rounds: u64,
) -> u64
    requires { length packet.now ≤ 65535 }
    ensures { (result ≡ rounds) ⊎ (result ≡ 0) }
{
    let mut table = MemberTable::new(alloc);
    let Ok(mut log) = VerdictLog::new(alloc, BATCH as usize) else {
        return 0;
    };
    let mut verdict = Verdict::Malformed;
    for _ in 0..rounds / BATCH {
        for _ in 0..BATCH {
            judge_and_log(worker, packet, &mut verdict, &mut log);
        }
        hand_on(&mut log, &mut table, adds);
    }
    for _ in 0..rounds % BATCH {
        judge_and_log(worker, packet, &mut verdict, &mut log);
    }
    rounds
}

pub(crate) fn line_rounds(
    alloc: Global,
    text: &[u8],
    other: &[u8],
    operator: &mut Operator,
    rounds: u64,
) -> u64
    ensures { result ≡ rounds }
{
    for round in 0..rounds {
        let given = if round % 2 == 0 { text } else { other };
        let _ = line(alloc, given, operator);
    }
    rounds
}

// The configuration with a selector of one instruction, `ret #0`, for the group.
fn changed(alloc: Global, config: &Config) -> Option<Config> {
    let Ok(words) = vec![in alloc; 0x0006_0000_0000_0000; 1] else {
        return None;
    };
    let key = Endpoint {
        address: 0x0a00_0002,
        port: 53,
    };
    let Ok(program) = Program::new(words) else {
        return None;
    };
    config.apply(&Command::SetSelector { key, program }).ok()
}

/// Makes the next configuration, and publishes it if that is asked. Stops if it cannot.
pub(crate) fn change(alloc: Global, operator: &mut Operator, publishes: bool, rounds: u64) -> u64
    ensures { result ≤ rounds }
{
    for round in 0..rounds {
        let Some(next) = changed(alloc, operator.config()) else {
            return round;
        };
        if publishes && operator.publish(next).is_err() {
            return round;
        }
    }
    rounds
}
