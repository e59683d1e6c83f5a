//! Four workers that read in threads of their own, beside an operator that publishes. A function that owns a table and
//! starts threads costs much to prove, so the tests share one.

use super::{publications, sharing};
use member_group::Config;
use read_section::{Operator, Worker, open};
use std::process::Abort;
use std::sync::{Mutex, Wait};
use std::thread::{self, Threads};

/// What is published and read: configurations that have a number, or programs that change.
#[derive(Clone, Copy)]
pub enum Course {
    Numbers,
    Programs,
}

impl Course {
    fn bad_sections(self, worker: &mut Worker) -> u32 {
        match self {
            Course::Numbers => publications::bad_sections(worker, 1000),
            Course::Programs => sharing::bad_sections(worker),
        }
    }

    fn bad_publications(self, rt: &impl Abort, operator: &mut Operator) -> u32 {
        match self {
            Course::Numbers => publications::bad_publications(rt, operator, 4000),
            Course::Programs => sharing::bad_publications(rt, operator),
        }
    }
}

fn add(rt: &impl Wait, sum: &Mutex<u32>, number: u32) {
    let mut sum = sum.lock(rt);
    *sum = sum.wrapping_add(number);
}

/// Opens a table at this configuration, and reads and publishes by the course. Returns the numbers of publications and
/// of sections that were wrong, and the number of the last version.
pub fn run_beside<R: Abort + Threads + Wait + Sync>(
    rt: &R,
    config: Config,
    course: Course,
) -> (u32, u32, u64) {
    let bad = Mutex::new(0u32);
    let sum = &bad;
    let (mut operator, mut readers) = open(config).expect(rt, "a table opens");
    readers.truncate(4);
    let bad_publications = thread::scope(thread::scope_env(), rt, |scope| {
        for worker in readers {
            let reading = scope.spawn(move || {
                let mut worker = worker;
                add(rt, sum, course.bad_sections(&mut worker));
            });
            if reading.is_err() {
                add(rt, sum, 1);
            }
        }
        course.bad_publications(rt, &mut operator)
    });
    (bad_publications, bad.into_inner(), operator.number())
}
