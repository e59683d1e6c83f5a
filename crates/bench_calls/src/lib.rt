//! The calls by which bench/ measures the version table. A driver in C makes them; each repeats one call of the table.
//!
//! Each opens a table, gives the lines of a script to its operator, each ended by an LF, and then repeats. Opening is
//! expensive, so a driver subtracts the time of no rounds. Each returns the number of rounds that it made: all of them,
//! or none if memory was refused. `measured_change` may also stop after fewer rounds.
#![tactic(auto)]

ghost use Rattle.std.specs.Prelude.{◌≡◌, ◌≤◌, ◌⊎◌, length};

mod rounds;
mod script;

use rounds::{change, count_rounds, judge_rounds, kind_rounds, line_rounds, section_rounds};
use script::opened;
use std::alloc::Global;

/// Enters a section, reads its first word and leaves.
#[unsafe(no_mangle)]
pub extern "C" fn measured_section(alloc: Global, script: &[u8], rounds: u64) -> u64
    ensures rounds { (result ≡ rounds) ⊎ (result ≡ 0) }
{
    match opened(alloc, script) {
        Some((_operator, mut worker)) => section_rounds(&mut worker, rounds),
        None => 0,
    }
}

/// Enters a section, judges a packet there and leaves.
#[unsafe(no_mangle)]
pub extern "C" fn measured_judge(alloc: Global, script: &[u8], packet: &[u8], rounds: u64) -> u64
    requires packet { length packet.now ≤ 65535 }
    ensures rounds { (result ≡ rounds) ⊎ (result ≡ 0) }
{
    match opened(alloc, script) {
        Some((_operator, mut worker)) => judge_rounds(&mut worker, packet, rounds),
        None => 0,
    }
}

/// Judges a packet, as `measured_judge` does, and counts the kind of each verdict in an array. Returns the sum of the counts.
#[unsafe(no_mangle)]
pub extern "C" fn measured_kind(alloc: Global, script: &[u8], packet: &[u8], rounds: u64) -> u64
    requires packet { length packet.now ≤ 65535 }
    ensures rounds { result ≤ rounds }
{
    match opened(alloc, script) {
        Some((_operator, mut worker)) => kind_rounds(&mut worker, packet, rounds),
        None => 0,
    }
}

/// Judges a packet, as `measured_judge` does, and counts each verdict in a log. After each 64 the log is added to a table of counters if
/// `adds` is not 0, and emptied.
#[unsafe(no_mangle)]
pub extern "C" fn measured_count(
    alloc: Global,
    script: &[u8],
    packet: &[u8],
    adds: u64,
    rounds: u64,
) -> u64
    requires packet { length packet.now ≤ 65535 }
    ensures rounds { (result ≡ rounds) ⊎ (result ≡ 0) }
{
    match opened(alloc, script) {
        Some((_operator, mut worker)) => {
            count_rounds(alloc, &mut worker, packet, adds != 0, rounds)
        }
        None => 0,
    }
}

/// Gives a line to the operator, and every other round another line.
#[unsafe(no_mangle)]
pub extern "C" fn measured_line(
    alloc: Global,
    script: &[u8],
    text: &[u8],
    other: &[u8],
    rounds: u64,
) -> u64
    ensures rounds { (result ≡ rounds) ⊎ (result ≡ 0) }
{
    match opened(alloc, script) {
        Some((mut operator, _worker)) => line_rounds(alloc, text, other, &mut operator, rounds),
        None => 0,
    }
}

/// Makes the next configuration, with another selector of the group 10.0.0.2:53, and publishes it if `publishes` is not
/// 0.
#[unsafe(no_mangle)]
pub extern "C" fn measured_change(alloc: Global, script: &[u8], publishes: u64, rounds: u64) -> u64
    ensures rounds { result ≤ rounds }
{
    match opened(alloc, script) {
        Some((mut operator, _worker)) => change(alloc, &mut operator, publishes != 0, rounds),
        None => 0,
    }
}
