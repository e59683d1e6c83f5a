//! Steps in no order, beside a slow reference.

ghost use Rattle.std.specs.Prelude.{◌<◌};

use super::history::{EMPTY_ROW, History, begin_of, begin_of_page};
use super::worlds::world_of;
use member_group::Config;
use std::alloc::Global;
use std::process::Abort;
use versions::Step::{self, Announce, Fetch, Fill, Leave, Peek, Pin, Publish, Scan};
use versions::{PAGES, ROWS, StepFault, TABLE_WORDS, WORKERS, World};

// Numbers in no order: the linear congruential generator of Knuth's MMIX, and its high bits.
#[derive(Drop)]
struct Numbers(u64);

impl Numbers {
    fn below(&mut self, bound: u64) -> u64
        requires { 0 < bound }
    {
        self.0 = self
            .0
            .wrapping_mul(6364136223846793005)
            .wrapping_add(1442695040888963407);
        (self.0 >> 33) % bound
    }

    fn step(&mut self) -> Step {
        let worker = self.below(3) as usize;
        let row = self.below(ROWS as u64 + 1) as usize;
        match self.below(17) {
            0 | 1 => Peek { worker },
            2 | 3 => Announce { worker },
            4 | 5 => Pin { worker },
            6 => Fetch {
                worker,
                place: begin_of(row).wrapping_add(self.below(2) as usize),
            },
            7 => Leave { worker },
            8 | 9 | 10 => Fill {
                place: begin_of(row),
                word: EMPTY_ROW[0],
            },
            11 => Fill {
                place: begin_of(row).wrapping_add(1),
                word: self.below(8) / 7,
            },
            12 | 13 => Publish { row },
            14 => Fill {
                place: begin_of_page(self.below(PAGES as u64 + 1) as usize).wrapping_add(
                    self.below(16) as usize,
                ),
                word: self.below(8),
            },
            _ => Scan {
                place: self.below(WORKERS as u64 + 2) as usize,
            },
        }
    }
}

// Makes a step in both, if it is legal, and returns whether it is.
fn steps(rt: &impl Abort, world: &mut World, history: &mut History, step: Step) -> bool {
    let wanted = history.answer(step);
    assert!(rt; world.step(step) == wanted.ok_or(StepFault::NotLegal));
    if let Some(word) = wanted {
        history.make(rt, step, word);
    }
    wanted.is_some()
}

// Returns the number of steps that were legal.
fn steps_at_random(
    rt: &impl Abort,
    alloc: Global,
    world: &mut World,
    history: &mut History,
) -> u32 {
    let mut numbers = Numbers(1);
    let mut legal = 0u32;
    for turn in 0..4000u32 {
        if turn % 8 == 0 {
            world
                .propose(Config::new(alloc))
                .expect(rt, "a configuration is proposed");
            history.proposed = true;
        }
        if steps(rt, world, history, numbers.step()) {
            legal = legal.wrapping_add(1);
        }
    }
    legal
}

// The history of a table at version 0, which is the empty configuration.
fn opened(rt: &impl Abort, alloc: Global) -> History {
    let mut words = vec![in alloc; 0; TABLE_WORDS].expect(rt, "memory");
    if let Some(first) = words.get_mut(begin_of(0)) {
        *first = EMPTY_ROW[0];
    }
    History {
        words,
        made: Vec::new(alloc),
        proposed: false,
    }
}

#[test]
fn steps_in_no_order(rt: HostRuntime) {
    let mut world = world_of(&rt, Config::new(rt.alloc()));
    let mut history = opened(&rt, rt.alloc());
    let legal = steps_at_random(&rt, rt.alloc(), &mut world, &mut history);
    assert!(rt; 800 < legal && 20 < history.number());
}
