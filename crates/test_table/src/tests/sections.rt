//! Sections and single steps, in a written order. `publications` has sections beside publications.

ghost use Rattle.std.specs.Prelude.{◌≡◌, ◌++◌, ◌<◌, ◌≤◌, ◌∷◌, [], length, suc};
ghost use Rattle.config_image.specs.Pooled.{parts};
ghost use Rattle.versions.specs.declared.layout.TheConstants.{LAST_NUMBER};
ghost use Rattle.versions.specs.Free.{IsFreeRow, number_after};
ghost use Rattle.versions.specs.Table.{the_shape};
ghost use Rattle.read_section.specs.Layout.{IsPublishable};
ghost use Rattle.read_section.specs.Section.{IsWholeSection};
ghost use Rattle.read_section.specs.Worker.{WorkerValue};

use super::numbered::{applied, config_of, differing, selected};
use super::replacing;
use bpf_insn::Words;
use config_image::{page_count, stored_word};
use ipv4_fields::Endpoint;
use member_group::{Command, Config};
use read_section::{
    CHARGE_LIMIT, LAST_NUMBER, OpenFault, Operator, ROW_WORDS, ROWS, Reclaimed, WORKERS, Worker,
    open,
};
use std::alloc::Global;
use std::process::Abort;

// Two groups, whose selectors have these numbers of instructions: the charge is 10 more than theirs.
fn with_selectors(rt: &impl Abort, alloc: Global, counts: [usize; 2]) -> Config {
    let mut config = Config::new(alloc);
    for (port, count) in [(1, counts[0]), (2, counts[1])] {
        let key = Endpoint { address: 1, port };
        config = applied(rt, &config, Command::AddGroup { key });
        let words = vec![in alloc; 0x0006_0000_0000_0000; count].expect(rt, "memory");
        config = selected(rt, &config, key, words);
    }
    config
}

// Enters, reads the section through its `Words` alone, and leaves. It is proved that these steps were added to the
// worker's log and no others. Returns the version, and the number of words that were not its row's.
pub fn read_whole(worker: &mut Worker) -> (u64, usize)
    ensures whole { (inside : WorkerValue) × IsWholeSection worker.old inside worker.new }
{
    let mut section = worker.enter();
    let number = section.number();
    let wrong = differing(&mut section, number);
    section.leave();
    (number, wrong)
}

/// A section of this version is whole.
pub fn reads(rt: &impl Abort, worker: &mut Worker, number: u64) {
    assert!(rt; read_whole(worker) == (number, 0));
}

// A table at version 0, with its first worker and its last.
fn opened(rt: &impl Abort, config: Config) -> (Operator, Worker, Worker)
    ensures first { result.1.table ≡ result.0.table }
    ensures last { result.2.table ≡ result.0.table }
{
    let (operator, mut workers) = open(config).expect(rt, "a table opens");
    assert!(rt; workers.len() == WORKERS);
    let last = workers.swap_remove(WORKERS - 1);
    let first = workers.swap_remove(0);
    (operator, first, last)
}

/// The checks of workers that are known to be of the operator's table.
pub enum Check {
    EntersAfterAbandon,
    IsAtVersionZero,
    SectionKeepsItsVersion,
    IsTold,
    VerdictsKeepTheirVersion,
}

fn makes(
    rt: &impl Abort,
    check: Check,
    operator: &mut Operator,
    first: &mut Worker,
    last: &mut Worker,
)
    requires first { first.old.table ≡ operator.old.table }
    requires last { last.old.table ≡ operator.old.table }
{
    match check {
        Check::EntersAfterAbandon => counts_as_inside(rt, operator, last),
        Check::IsAtVersionZero => is_at_version_zero(rt, operator, first),
        Check::SectionKeepsItsVersion => keeps_its_version(rt, operator, first),
        Check::IsTold => is_told(rt, operator, first, last),
        Check::VerdictsKeepTheirVersion => replacing::keeps_its_version(rt, operator, first),
    }
}

/// Opens a table at this configuration, and makes a check with its operator, its first worker and its last. It alone
/// owns them.
pub fn on_ends(rt: &impl Abort, config: Config, check: Check) {
    let (mut operator, mut first, mut last) = opened(rt, config);
    makes(rt, check, &mut operator, &mut first, &mut last);
}

// Fills a row word by word, and publishes the configuration from it, which has no programs.
fn fill_and_put(operator: &mut Operator, row: usize, config: Config)
    requires free { IsFreeRow the_shape operator.old.view row }
    requires publishable { IsPublishable config }
    requires no_pages { length (parts config) ≡ 0 }
    requires number { number_after operator.old.view.log < LAST_NUMBER }
    ensures published { operator.new.view.published ≡ operator.old.view.published ++ config ∷ [] }
    ensures same_table { operator.new.table ≡ operator.old.table }
{
    for place in 0..ROW_WORDS {
        operator.fill(row, place, stored_word(&config, &[], place));
    }
    operator.put(row, config);
}

// Publishes the configuration of this number, in the row of the same number.
fn publish(rt: &impl Abort, operator: &mut Operator, number: u32)
    ensures same_table { operator.new.table ≡ operator.old.table }
{
    let row = number as usize;
    let config = config_of(rt, *operator.config().allocator(), number);
    if config.charge() > CHARGE_LIMIT
        || page_count(&config) > 0
        || operator.number() >= LAST_NUMBER
    {
        panic!(rt; "a small configuration and a small number");
    }
    if operator.is_free(row) {
        fill_and_put(operator, row, config);
        assert!(rt; operator.number() == u64::from(number));
    } else {
        panic!(rt; "the row is free");
    }
}

// Enters once another worker passed on what it has seen: the version is the last of that, or a later one.
fn enter_told(worker: &mut Worker, other: &mut Worker) -> (u64, usize)
    requires { worker.old.table ≡ other.old.table }
    ensures told { length other.old.view.seen ≤ suc result.0 }
{
    worker.meet_worker(other);
    let mut section = worker.enter();
    let number = section.number();
    let wrong = differing(&mut section, number);
    section.leave();
    (number, wrong)
}

// The last worker, after it abandoned its section, counts as inside, even if it meets the operator, until it enters
// again and leaves.
fn counts_as_inside(rt: &impl Abort, operator: &mut Operator, worker: &mut Worker)
    requires { worker.old.table ≡ operator.old.table }
{
    worker.enter().abandon();
    assert!(rt; operator.scan(WORKERS - 1) == 1);
    worker.meet(operator);
    assert!(rt; operator.scan(WORKERS - 1) == 1);
    reads(rt, worker, 0);
    assert!(rt; operator.scan(WORKERS - 1) == 0);
}

#[test]
fn entering_after_abandon(rt: HostRuntime) {
    on_ends(
        &rt,
        config_of(&rt, rt.alloc(), 0),
        Check::EntersAfterAbandon,
    );
}

/// Whether row 0 has the configuration of a number, and the other rows are free.
pub fn has_one_row(operator: &Operator) -> bool {
    operator.zeros_from(0) == 6
        && operator.zeros_from(1) == 0
        && !operator.is_free(0)
        && operator.is_free(1)
        && !operator.is_free(ROWS)
}

fn is_at_version_zero(rt: &impl Abort, operator: &mut Operator, worker: &mut Worker) {
    assert!(rt; operator.number() == 0);
    assert!(rt; has_one_row(operator));
    assert!(rt; operator.report() == (Reclaimed { first: 0, count: 0 }));
    reads(rt, worker, 0);
}

#[test]
fn table_at_version_zero(rt: HostRuntime) {
    on_ends(&rt, config_of(&rt, rt.alloc(), 0), Check::IsAtVersionZero);
}

// A worker in a section keeps its version while the next one is published, and enters on that one when it met the operator.
fn keeps_its_version(rt: &impl Abort, operator: &mut Operator, worker: &mut Worker)
    requires { worker.old.table ≡ operator.old.table }
{
    publish(rt, operator, 1);
    let mut section = worker.enter();
    let count = section.count();
    publish(rt, operator, 2);
    let number = section.number();
    let wrong = differing(&mut section, 1);
    section.leave();
    assert!(rt; (count, number, wrong) == (8192, 1, 0));
    worker.meet(operator);
    reads(rt, worker, 2);
}

#[test]
fn section_keeps_its_version(rt: HostRuntime) {
    on_ends(
        &rt,
        config_of(&rt, rt.alloc(), 0),
        Check::SectionKeepsItsVersion,
    );
}

// The last worker never met the operator: it learns of a version from the first one, which did.
fn is_told(rt: &impl Abort, operator: &mut Operator, first: &mut Worker, last: &mut Worker)
    requires first { first.old.table ≡ operator.old.table }
    requires last { last.old.table ≡ operator.old.table }
{
    publish(rt, operator, 1);
    first.meet(operator);
    assert!(rt; enter_told(last, first) == (1, 0));
}

#[test]
fn told_by_another_worker(rt: HostRuntime) {
    on_ends(&rt, config_of(&rt, rt.alloc(), 0), Check::IsTold);
}

// The charge of version 0, if the table opens.
fn opened_charge(config: Config) -> Result<u64, OpenFault> {
    let (operator, _workers) = open(config)?;
    Ok(operator.config().charge())
}

// A configuration has this charge, and opens a table so.
fn opens(rt: &impl Abort, config: Config, charge: u64, opened: Result<u64, OpenFault>) {
    assert!(rt; config.charge() == charge);
    assert!(rt; opened_charge(config) == opened);
}

#[test]
fn largest_charge_opens(rt: HostRuntime) {
    let largest = with_selectors(&rt, rt.alloc(), [4096, 4086]);
    opens(&rt, largest, 8192, Ok(8192));
    let greater = with_selectors(&rt, rt.alloc(), [4096, 4087]);
    opens(&rt, greater, 8193, Err(OpenFault::TooBig));
}
