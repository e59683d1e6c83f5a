//! Lists of steps: a worker that stalls before it announces, steps with their results, and refused allocations.

use super::history::{EMPTY_ROW, begin_of};
use super::numbered::applied;
use ipv4_fields::Endpoint;
use linked_list_allocator::LocalHeap;
use member_group::{Command, Config};
use std::alloc::Global;
use std::process::Abort;
use versions::Step::{self, Announce, Fetch, Fill, Leave, Peek, Pin, Publish, Scan};
use versions::{ROWS, StepFault, TABLE_WORDS, WORKERS, World};

/// A world at version 0, which is this configuration.
pub fn world_of(rt: &impl Abort, config: Config) -> World {
    World::new(config).expect(rt, "a world opens")
}

// Makes a step that is legal, and returns its word.
fn made(rt: &impl Abort, world: &mut World, step: Step) -> u64 {
    world.step(step).expect(rt, "the step is legal")
}

/// Makes a step that is legal, and has this word.
pub fn makes(rt: &impl Abort, world: &mut World, step: Step, word: u64) {
    assert!(rt; world.step(step) == Ok(word));
}

// Publishes the empty configuration from the least free row, and returns the word stored; 0 if no row is free.
fn publish(rt: &impl Abort, alloc: Global, world: &mut World) -> u64 {
    for row in 0..ROWS {
        let place = begin_of(row);
        let word = EMPTY_ROW[0];
        if world.step(Fill { place, word }).is_ok() {
            world
                .propose(Config::new(alloc))
                .expect(rt, "a configuration is proposed");
            return made(rt, world, Publish { row });
        }
    }
    0
}

fn scan_all(rt: &impl Abort, world: &mut World) -> u64 {
    let mut greatest = 0;
    for place in 1..WORKERS + 1 {
        greatest = made(rt, world, Scan { place }).max(greatest);
    }
    greatest
}

// The number of free rows; each row adds at most 1.
fn free_rows(world: &mut World) -> usize {
    let mut count = 0;
    for row in 0..ROWS {
        let place = begin_of(row);
        let word = EMPTY_ROW[0];
        if world.step(Fill { place, word }).is_ok() {
            count = row.min(count) + 1;
        }
    }
    count
}

// The result of `publish` must be this version, in some row.
fn publishes(rt: &impl Abort, alloc: Global, world: &mut World, number: u64) {
    let mut word = publish(rt, alloc, world);
    if word == 0 {
        assert!(rt; scan_all(rt, world) == 0);
        word = publish(rt, alloc, world);
    }
    assert!(rt; word / ROWS as u64 == number);
}

// Scans show at most this version's read word, and leave this many free rows.
fn frees(rt: &impl Abort, world: &mut World, greatest: u64, free: usize) {
    assert!(rt; scan_all(rt, world) == greatest);
    assert!(rt; free_rows(world) == free);
}

// While the worker's read word shows version 3, no more becomes free than was before.
fn holds_back(rt: &impl Abort, alloc: Global, world: &mut World) {
    makes(rt, world, Announce { worker: 0 }, 4);
    assert!(rt; made(rt, world, Pin { worker: 0 }) / ROWS as u64 == 90);
    for _ in 0..3usize {
        frees(rt, world, 4, 0);
    }
    assert!(rt; publish(rt, alloc, world) == 0);
    makes(rt, world, Leave { worker: 0 }, 0);
    frees(rt, world, 0, ROWS - 1);
}

fn stalls(rt: &impl Abort, alloc: Global, world: &mut World) {
    for number in 1..4u64 {
        publishes(rt, alloc, world, number);
    }
    // Version 3 in row 3.
    makes(rt, world, Peek { worker: 0 }, 51);
    for number in 4..91u64 {
        publishes(rt, alloc, world, number);
    }
    // The last round of scans came before version 76: 75 to 89 are replaced and not free, each in a row of its own.
    assert!(rt; free_rows(world) == 0);
    holds_back(rt, alloc, world);
}

#[test]
fn stalled_worker_holds_back_more(rt: HostRuntime) {
    let mut world = world_of(&rt, Config::new(rt.alloc()));
    stalls(&rt, rt.alloc(), &mut world);
}

// Each step with its result, in a world whose version 0 is the empty configuration; no result is "not legal".
static ANSWERS: [(Step, Option<u64>); 37] = [
    (Announce { worker: 0 }, None),
    (Pin { worker: 0 }, None),
    (Leave { worker: 0 }, None),
    (
        Fetch {
            worker: 0,
            place: 65,
        },
        None,
    ),
    (Peek { worker: 64 }, None),
    (Scan { place: 0 }, None),
    (Scan { place: 65 }, None),
    (Scan { place: 64 }, Some(0)),
    (Peek { worker: 0 }, Some(0)),
    (Peek { worker: 0 }, Some(0)),
    (Announce { worker: 0 }, Some(1)),
    (Peek { worker: 0 }, None),
    (Announce { worker: 0 }, None),
    (Pin { worker: 0 }, Some(0)),
    (
        Fetch {
            worker: 0,
            place: 65,
        },
        Some(0x0002_0002_0000),
    ),
    (
        Fetch {
            worker: 0,
            place: 8256,
        },
        Some(0),
    ),
    (
        Fetch {
            worker: 0,
            place: 8257,
        },
        None,
    ),
    (
        Fetch {
            worker: 0,
            place: 64,
        },
        None,
    ),
    (Peek { worker: 0 }, Some(0)),
    (Announce { worker: 0 }, None),
    (Fill { place: 65, word: 2 }, None),
    (Fill { place: 64, word: 2 }, None),
    (
        Fetch {
            worker: 0,
            place: 131_137,
        },
        None,
    ),
    (
        Fill {
            place: 131_137,
            word: 2,
        },
        Some(2),
    ),
    (
        Fill {
            place: 655_424,
            word: 3,
        },
        Some(3),
    ),
    (
        Fill {
            place: 655_425,
            word: 2,
        },
        None,
    ),
    (
        Fetch {
            worker: 0,
            place: 131_137,
        },
        None,
    ),
    (Publish { row: 1 }, None),
    (
        Fill {
            place: 8257,
            word: 0x0002_0002_0000,
        },
        Some(0x0002_0002_0000),
    ),
    (Publish { row: 1 }, None),
    (Publish { row: 16 }, None),
    (
        Fill {
            place: 131_136,
            word: 7,
        },
        Some(7),
    ),
    (Scan { place: 1 }, Some(1)),
    (Leave { worker: 0 }, Some(0)),
    (Announce { worker: 0 }, None),
    (
        Fetch {
            worker: 0,
            place: 65,
        },
        None,
    ),
    (Scan { place: 1 }, Some(0)),
];

// Once a configuration is proposed: publications from a row, with their results.
static PUBLICATIONS: [(Step, Option<u64>); 3] = [
    (Publish { row: 7 }, None),
    (Publish { row: 1 }, Some(17)),
    (Publish { row: 1 }, None),
];

// Each step with its result; no result is "not legal".
pub fn answers(rt: &impl Abort, world: &mut World, steps: &[(Step, Option<u64>)]) {
    for (step, answer) in steps {
        assert!(rt; world.step(*step) == answer.ok_or(StepFault::NotLegal));
    }
}

fn answers_before_and_after(rt: &impl Abort, alloc: Global, world: &mut World) {
    answers(rt, world, &ANSWERS);
    world
        .propose(Config::new(alloc))
        .expect(rt, "a configuration is proposed");
    answers(rt, world, &PUBLICATIONS);
}

#[test]
fn steps_and_their_answers(rt: HostRuntime) {
    let mut world = world_of(&rt, Config::new(rt.alloc()));
    answers_before_and_after(&rt, rt.alloc(), &mut world);
}

// The group 10.0.0.2:53 with the member 7 at 127.0.0.1:9001, without programs, and its row in the pooled form: its
// image, except for the first word, which has the image's length, the place at which programs would begin, and no
// parts.
const GROUP: Endpoint = Endpoint {
    address: 0x0a00_0002,
    port: 53,
};

static GROUP_ROW: [u64; 10] = [
    0x000a_000a_0000,
    1,
    0x0a00_0002_0035,
    6,
    1,
    0,
    7,
    0x7f00_0001_2329,
    0,
    0,
];

fn with_group(rt: &impl Abort, alloc: Global) -> Config {
    let added = applied(rt, &Config::new(alloc), Command::AddGroup { key: GROUP });
    let join = Command::Join {
        key: GROUP,
        member: 7,
        to: Endpoint {
            address: 0x7f00_0001,
            port: 9001,
        },
    };
    applied(rt, &added, join)
}

// Each of these words is filled in row 5, and there is no publication before the last word that is not 0.
fn fills_group(rt: &impl Abort, world: &mut World) {
    for (i, word) in GROUP_ROW.iter().enumerate() {
        // The last of them is 0, as the row has it.
        if i < 8 {
            assert!(rt; world.step(Publish { row: 5 }) == Err(StepFault::NotLegal));
        }
        let place = begin_of(5).wrapping_add(i);
        makes(rt, world, Fill { place, word: *word }, *word);
    }
}

static ENTERS_ON_THE_GROUP: [(Step, Option<u64>); 3] = [
    (Peek { worker: 63 }, Some(21)),
    (Announce { worker: 63 }, Some(2)),
    (Pin { worker: 63 }, Some(21)),
];

// The last worker enters on version 1 in row 5, and fetches each word.
fn fetches_group(rt: &impl Abort, world: &mut World) {
    answers(rt, world, &ENTERS_ON_THE_GROUP);
    for (i, word) in GROUP_ROW.iter().enumerate() {
        let place = begin_of(5).wrapping_add(i);
        makes(rt, world, Fetch { worker: 63, place }, *word);
    }
}

fn publishes_group(rt: &impl Abort, alloc: Global, world: &mut World) {
    world
        .propose(with_group(rt, alloc))
        .expect(rt, "a configuration is proposed");
    fills_group(rt, world);
    makes(rt, world, Publish { row: 5 }, 21);
    assert!(rt; world.word(0) == Some(21) && world.word(TABLE_WORDS) == None);
    fetches_group(rt, world);
}

#[test]
fn group_is_published_word_by_word(rt: HostRuntime) {
    let mut world = world_of(&rt, Config::new(rt.alloc()));
    publishes_group(&rt, rt.alloc(), &mut world);
}

static ROUND: [Step; 4] = [
    Peek { worker: 3 },
    Announce { worker: 3 },
    Pin { worker: 3 },
    Leave { worker: 3 },
];

// Steps a worker's round, until one is refused; returns the number of rounds that were made.
fn rounds_of<'a>(rt: &impl Abort, heap: &'a LocalHeap, world: &mut World<&'a LocalHeap>) -> usize {
    for round in 1..40usize {
        match world.propose(Config::new(heap)) {
            Ok(()) => {}
            Err(StepFault::OutOfMemory) => return round,
            Err(_) => panic!(rt; "only memory is refused"),
        }
        for step in &ROUND {
            match world.step(*step) {
                Ok(_) => {}
                // The world is as before: the same step is refused again for lack of memory alone.
                Err(StepFault::OutOfMemory) if world.step(*step) == Err(StepFault::OutOfMemory) =>
                    return round,
                Err(_) => panic!(rt; "only memory is refused"),
            }
        }
    }
    40
}

fn rounds_within(rt: &impl Abort, heap: &LocalHeap) -> usize {
    match World::new(Config::new(heap)) {
        Ok(mut world) => rounds_of(rt, heap, &mut world),
        Err(StepFault::OutOfMemory) => 0,
        Err(_) => panic!(rt; "only memory is refused"),
    }
}

// The rounds within a heap of this size: no fewer than in a smaller one, and its memory is given back.
fn rounds_at(rt: &impl Abort, alloc: Global, size: usize, least: usize) -> usize {
    let heap = LocalHeap::new(alloc, size).expect(rt, "memory");
    let rounds = rounds_within(rt, &heap);
    assert!(rt; least <= rounds, "a heap of {size} bytes");
    assert!(rt; heap.used() == 0);
    rounds
}

#[test]
fn world_under_each_refused_growth(rt: HostRuntime) {
    let mut least = 0;
    // From the sizes at which the words of the table are refused, and from those at which the numbers of the pages are.
    for (first, sizes) in [(5_243_000usize, 40usize), (5_505_000, 340)] {
        let mut size = first;
        for _ in 0..sizes {
            least = rounds_at(&rt, rt.alloc(), size, least);
            size = size.saturating_add(128);
        }
    }
    assert!(rt; least == 40);
}
