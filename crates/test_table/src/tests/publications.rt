//! Sections on versions that are published meanwhile: by one thread in a written order, and by workers in threads of their own.

ghost use Rattle.std.specs.Prelude.{◌<◌};

use super::beside::{Course, run_beside};
use super::numbered::{applied, config_of, differing, is_config_of, key_of, program_of};
use super::sections::{has_one_row, read_whole, reads};
use super::tables::{on_table, on_workers, published};
use bpf_insn::Words;
use member_group::{Command, Config};
use read_section::{Operator, ROWS, Reclaimed, Worker};
use retire::{PublishFault, Retire};
use std::alloc::Global;
use std::process::Abort;

// The configuration of a version.
fn version(rt: &impl Abort, operator: &Operator, number: u64) -> Config {
    let alloc = *operator.config().allocator();
    config_of(rt, alloc, u32::try_from(number).unwrap_or(0))
}

// Publishes the configuration of the next version, and returns its number.
fn publish(rt: &impl Abort, operator: &mut Operator, number: u64) -> u64 {
    let next = version(rt, operator, number);
    published(rt, operator, next)
}

fn publishes(rt: &impl Abort, operator: &mut Operator, number: u64) {
    assert!(rt; publish(rt, operator, number) == number);
}

// Tries to publish, which is refused: why, and the configuration that comes back.
fn refused(rt: &impl Abort, operator: &mut Operator, config: Config) -> (PublishFault, Config) {
    operator.publish(config).err().expect(rt, "it is refused")
}

// Tries to publish: no row is free, and the configuration comes back.
fn is_busy(rt: &impl Abort, operator: &mut Operator) {
    let next = version(rt, operator, 1);
    let (fault, config) = refused(rt, operator, next);
    assert!(rt; fault == PublishFault::Busy && is_config_of(&config, 1));
}

// The last version that finds a row while a worker stays in version 0.
const LAST_WITH_ROW: u64 = ROWS as u64 - 1;

// Publishes until no row is free: that is after that version.
fn fills_all_rows(rt: &impl Abort, operator: &mut Operator) {
    for number in 0..LAST_WITH_ROW {
        publishes(rt, operator, number + 1);
    }
    is_busy(rt, operator);
}

// The publication of version 2 beside a section on version 1 leaves that section its version.
fn keeps_its_version(rt: &impl Abort, operator: &mut Operator, worker: &mut Worker) {
    publishes(rt, operator, 1);
    let mut section = worker.enter();
    let count = section.count();
    let second = publish(rt, operator, 2);
    let number = section.number();
    let wrong = differing(&mut section, 1);
    section.leave();
    assert!(rt; (count, number, wrong) == (8192, 1, 0));
    assert!(rt; second == 2);
    reads(rt, worker, 2);
}

#[test]
fn publication_beside_a_section(rt: HostRuntime) {
    on_table(&rt, config_of(&rt, rt.alloc(), 0), keeps_its_version);
}

// Stores a stray word in the row, if it is free.
fn stray(operator: &mut Operator, row: usize, place: usize)
    requires { place < 8192 }
{
    if operator.is_free(row) {
        operator.fill(row, place, 1);
    }
}

// The row in which a version is published, if a worker reads each and stays in none: rows 1 to 15 in turn, then the
// fifteen that a round of scans frees, from row 0 on.
fn row_of(number: u64) -> usize {
    let rows = ROWS as u64;
    let row = if number < rows {
        number
    } else {
        (number - rows) % (rows - 1)
    };
    row as usize
}

// Each word of a row is fetched, and a shorter image leaves no word of a longer one in it.
fn is_used_again(rt: &impl Abort, operator: &mut Operator, worker: &mut Worker, number: u64) {
    // Stray words after the image, which the publication has to clear.
    for row in 0..ROWS {
        stray(operator, row, 7000);
        stray(operator, row, 8191);
    }
    publishes(rt, operator, number);
    reads(rt, worker, number);
    let row = row_of(number);
    assert!(rt; row < ROWS && operator.zeros_from(row) <= 6);
}

// Two rounds of scans.
fn are_used_again(rt: &impl Abort, operator: &mut Operator, worker: &mut Worker) {
    assert!(rt; has_one_row(operator));
    for number in 1..44u64 {
        is_used_again(rt, operator, worker, number);
    }
    assert!(rt; operator.number() == 43);
}

#[test]
fn rows_are_used_again(rt: HostRuntime) {
    on_table(&rt, config_of(&rt, rt.alloc(), 0), are_used_again);
}

// Enters `times` times; returns the number of sections that were not whole, or older than one before.
pub fn bad_sections(worker: &mut Worker, times: u32) -> u32 {
    let mut newest = 0;
    let mut bad = 0u32;
    for _ in 0..times {
        let (number, wrong) = read_whole(worker);
        if wrong != 0 || number < newest {
            bad = bad.wrapping_add(1);
        }
        newest = number;
    }
    bad
}

// Tries to publish `times` versions; returns the number of results that were neither the next number nor `Busy` with
// the configuration.
pub fn bad_publications(rt: &impl Abort, operator: &mut Operator, times: u32) -> u32 {
    let mut bad = 0u32;
    for _ in 0..times {
        let number = operator.number().wrapping_add(1);
        let next = version(rt, operator, number);
        let result = operator.publish(next);
        let right = match &result {
            Ok(found) => *found == number,
            Err((PublishFault::Busy, config)) => config.groups().len() == 1,
            Err(_) => false,
        };
        if !right {
            bad = bad.wrapping_add(1);
        }
    }
    bad
}

// Four workers read in threads of their own while the operator publishes: each section is one whole version, in every schedule.
#[test]
fn sections_beside_publications(rt: HostRuntime) {
    let config = config_of(&rt, rt.alloc(), 0);
    let (bad_publications, bad_sections, last) = run_beside(&rt, config, Course::Numbers);
    assert!(rt; bad_publications == 0);
    assert!(rt; bad_sections == 0);
    // As many versions as there are other rows find one that was never used, whoever reads.
    assert!(rt; last >= LAST_WITH_ROW);
}

// A sweep reports `count` versions, from the first on.
fn reclaims(rt: &impl Abort, operator: &mut Operator, first: u64, count: u64) {
    assert!(rt; operator.sweep() == (Reclaimed { first, count }));
}

// Worker 0 stays in version 0: fifteen more versions have a row, and then none is free before it leaves.
fn is_busy_beside(rt: &impl Abort, operator: &mut Operator, workers: &mut Vec<Worker>) {
    let worker = workers.first_mut().expect(rt, "a table has workers");
    let section = worker.enter();
    fills_all_rows(rt, operator);
    section.leave();
    reclaims(rt, operator, 0, 15);
    reclaims(rt, operator, 15, 0);
    publishes(rt, operator, 16);
}

#[test]
fn busy_when_no_row_is_free(rt: HostRuntime) {
    on_workers(&rt, config_of(&rt, rt.alloc(), 0), is_busy_beside);
}

// Worker 0 abandons its section, and is gone.
fn loses_a_worker(rt: &impl Abort, workers: &mut Vec<Worker>) {
    assert!(rt; !workers.is_empty());
    let mut worker = workers.swap_remove(0);
    worker.enter().abandon();
}

// Fifteen more versions have a row, and then none is free for good.
fn lost_worker_stays(rt: &impl Abort, operator: &mut Operator, workers: &mut Vec<Worker>) {
    loses_a_worker(rt, workers);
    fills_all_rows(rt, operator);
    for _ in 0..3usize {
        reclaims(rt, operator, 0, 0);
        is_busy(rt, operator);
    }
    assert!(rt; operator.number() == 15);
}

// The lost worker's section is on version 0.
#[test]
fn lost_worker_keeps_its_version(rt: HostRuntime) {
    on_workers(&rt, config_of(&rt, rt.alloc(), 0), lost_worker_stays);
}

// Adds a member with a filter of `count` instructions.
fn with_filter(rt: &impl Abort, config: &Config, member: u32, count: usize) -> Config {
    let key = key_of(1);
    let join = Command::Join {
        key,
        member,
        to: key,
    };
    let words = vec![in *config.allocator(); 0x0006_0000_0000_0000; count].expect(rt, "memory");
    let set = Command::SetFilter {
        key,
        member,
        program: program_of(rt, words),
    };
    applied(rt, &applied(rt, config, join), set)
}

// One group with two members, whose filters have these numbers of instructions: its charge is 14 more than theirs.
fn with_filters(rt: &impl Abort, alloc: Global, first: usize, second: usize) -> Config {
    let one = with_filter(rt, &config_of(rt, alloc, 1), 1, first);
    with_filter(rt, &one, 2, second)
}

// Tries to publish a charge of one more than the greatest: that is refused.
fn one_more_is_refused(rt: &impl Abort, operator: &mut Operator) {
    let greater = with_filters(rt, *operator.config().allocator(), 4096, 4083);
    let (fault, config) = refused(rt, operator, greater);
    assert!(rt; fault == PublishFault::TooBig && config.charge() == 8193);
}

fn publishes_up_to_the_limit(rt: &impl Abort, operator: &mut Operator, _worker: &mut Worker) {
    let greatest = with_filters(rt, *operator.config().allocator(), 4096, 4082);
    assert!(rt; greatest.charge() == 8192);
    assert!(rt; published(rt, operator, greatest) == 1);
    one_more_is_refused(rt, operator);
    assert!(rt; operator.number() == 1);
}

#[test]
fn largest_charge_is_published(rt: HostRuntime) {
    on_table(
        &rt,
        config_of(&rt, rt.alloc(), 0),
        publishes_up_to_the_limit,
    );
}
