//! The order in which a command takes workers: eight apart first, and those beside `current` last.

ghost use Rattle.std.specs.Prelude.{◌<◌};

use member_group::Config;
use read_section::{Operator, WORKERS, Worker, open, spread};
use std::process::Abort;

// The number of a worker: that of the read word which shows that it is inside a section.
fn number_of(operator: &mut Operator, worker: &mut Worker) -> Option<usize> {
    let section = worker.enter();
    let mut found = None;
    for number in 0..WORKERS {
        if operator.scan(number) != 0 {
            found = Some(number);
        }
    }
    section.leave();
    found
}

// The worker of a turn: 7, 15 .. 63, then 14, 22 .. 62, and so on to 8, 16 .. 56, and then 6 to 0.
fn taken(turn: usize) -> usize
    requires { turn < 64 }
{
    match turn {
        0..=7 => 7 + 8 * turn,
        8..=56 => {
            let line = (turn - 8) % 7;
            let left = (turn - 8) / 7;
            14 - left + 8 * line
        }
        _ => 63 - turn,
    }
}

fn taken_eight_apart(rt: &impl Abort, operator: &mut Operator, workers: &mut Vec<Worker>) {
    for turn in 0..64usize {
        let mut worker = workers.pop().expect(rt, "a worker is left");
        let number = number_of(operator, &mut worker);
        assert!(rt; number == Some(taken(turn)), "turn {turn}");
    }
    assert!(rt; workers.is_empty());
}

#[test]
fn workers_are_taken_eight_apart(rt: HostRuntime) {
    let (mut operator, mut workers) = open(Config::new(rt.alloc())).expect(&rt, "a table");
    spread(&mut workers);
    taken_eight_apart(&rt, &mut operator, &mut workers);
}
