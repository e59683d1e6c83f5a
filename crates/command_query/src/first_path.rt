//! The command `first`: one packet through two versions.

ghost use Rattle.std.specs.Prelude.{◌≡◌, ◌<◌, IfOk, List, OnOk, Some, ℕ};
ghost use Rattle.bpf_verify.specs.Accepted.{IsAccepted};
ghost use Rattle.config_image.specs.Image.{Group};
ghost use Rattle.config_image.specs.Lookup.{BeginsWithImage};
ghost use Rattle.read_section.specs.Operator.{HasFreeRow};
ghost use Rattle.command_query.specs.FirstPath.{first_lines, line_text};
ghost use Rattle.command_query.specs.body.FirstTable.{IsLineOf, IsOpenedWith, IsRunOf, PublishesNothing, PublishesProgram, RunsInSection, Selects, SelectsNow};
ghost use Rattle.versions.specs.Free.{number_after};
ghost use Rattle.versions.specs.declared.layout.TheConstants.{LAST_NUMBER};

use bpf_insn::Words;
use bpf_machine::{Outcome, run};
use command_line::{SAMPLE_GROUP, SAMPLE_PACKET, applied, program};
use config_image::{find_group, selector_of};
use member_group::{Command, Config};
use read_section::{Operator, Worker, open_within};
use retire::Retire;
use std::alloc::{AllocError, Global};
use std::fmt;

// ldb [9]; jeq #17,0,1; ret #65535; ret #0
const FIRST_PROGRAM: &[u64] = &[
    0x0030_0000_0000_0009,
    0x0015_0001_0000_0011,
    0x0006_0000_0000_ffff,
    0x0006_0000_0000_0000,
];

// ret #0
const SECOND_PROGRAM: &[u64] = &[0x0006_0000_0000_0000];

/// The result of one version for the packet.
#[derive(Clone, Copy)]
pub struct Line {
    pub version: u64,
    pub value: u32,
    pub steps: u32,
    /// How many of the packet's bytes are kept.
    pub kept: usize,
}

impl fmt::Display for Line {
    ghost output = { λ line. Some (line_text line) };

    fn fmt<W: fmt::Write>(&self, f: &mut fmt::Formatter<W>) -> fmt::Result {
        let Line {
            version,
            value,
            steps,
            kept,
        } = *self;
        write!(
            f,
            "version {version} value {value} steps {steps} kept {kept}"
        )
    }
}

// The sample group alone, without members; the words are its selector.
fn configuration(alloc: Global, words: &[u64]) -> Result<Config, AllocError>
    requires accepted { IsAccepted words.now }
    ensures selects { IfOk result (Selects words.now) }
{
    let key = SAMPLE_GROUP;
    let selector = program(alloc, words)?;
    let empty = Config::new(alloc);
    let added = applied(&empty, &Command::AddGroup { key })?;
    let select = Command::SetSelector {
        key,
        program: selector,
    };
    applied(&added, &select)
}

// The operator of a new table, and one of its workers.
fn open_first(alloc: Global) -> Result<(Operator, Worker), AllocError>
    ensures opened { IfOk result (λ parts. IsOpenedWith FIRST_PROGRAM.now parts.0 parts.1) }
{
    let (operator, mut workers) = open_within(configuration(alloc, FIRST_PROGRAM)?)?;
    match workers.pop() {
        Some(worker) => Ok((operator, worker)),
        None => unreachable!(),
    }
}

fn publish_second(alloc: Global, operator: &mut Operator) -> Result<(), AllocError>
    requires free { HasFreeRow operator.old.view }
    requires number { number_after operator.old.view.log < LAST_NUMBER }
    ensures published { OnOk result (PublishesProgram SECOND_PROGRAM.now operator.old operator.new) }
{
    match operator.publish(configuration(alloc, SECOND_PROGRAM)?) {
        Ok(_) => Ok(()),
        Err(_) => unreachable!(),
    }
}

// Runs the sample group's selector on the sample packet, from words that begin with an image. Returns `None` if there is no
// selector.
fn run_selector<W: Words>(words: &mut W) -> Option<Outcome>
    requires { (config : List Group) × BeginsWithImage (W.words words.old) config }
    ensures runs { (config : List Group) (selector : List ℕ) → BeginsWithImage (W.words words.old) config → Selects selector config → IsRunOf selector result }
    ensures words_kept { W.words words.new ≡ W.words words.old }
    ensures rest_kept { W.rest words.new ≡ W.rest words.old }
{
    let Some(group) = find_group(words, SAMPLE_GROUP) else {
        return None;
    };
    let Some(place) = selector_of(words, group.index) else {
        return None;
    };
    Some(run(words, place.from, place.len, SAMPLE_PACKET))
}

// The same in a section, with the section's version.
fn run_in_section(worker: &mut Worker) -> (u64, Option<Outcome>)
    ensures { RunsInSection worker.old worker.new result.0 result.1 }
{
    let mut section = worker.enter();
    let outcome = run_selector(&mut section);
    let version = section.number();
    section.leave();
    (version, outcome)
}

// Runs the current version's program. The worker meets the operator before and after, so no other version came between.
fn run_current(worker: &mut Worker, operator: &mut Operator) -> Line
    requires table { worker.old.table ≡ operator.old.table }
    requires selects { (selector : List ℕ) × SelectsNow selector operator.old.view }
    ensures line { (selector : List ℕ) → SelectsNow selector operator.old.view → IsLineOf selector operator.old.view result }
    ensures versions_kept { PublishesNothing operator.old operator.new }
    ensures table_kept { worker.new.table ≡ worker.old.table }
{
    worker.meet(operator);
    let (version, outcome) = run_in_section(worker);
    worker.meet(operator);
    let Some(Outcome { value, steps }) = outcome else {
        unreachable!();
    };
    Line {
        version,
        value,
        steps,
        kept: (value as usize).min(SAMPLE_PACKET.len()),
    }
}

/// Runs the sample program on the sample packet at version 0, and its successor at version 1: a line for each.
pub fn lines(alloc: Global) -> Result<[Line; 2], AllocError>
    ensures { IfOk result (λ lines. lines ≡ first_lines) }
{
    let (mut operator, mut worker) = open_first(alloc)?;
    let at_first = run_current(&mut worker, &mut operator);
    publish_second(alloc, &mut operator)?;
    let at_second = run_current(&mut worker, &mut operator);
    Ok([at_first, at_second])
}
