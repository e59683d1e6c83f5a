//! The order in which a command takes workers (docs/INTERNALS.md, "Which worker is taken first").

ghost use Rattle.std.specs.Prelude.{◌≡◌, ◌≤◌, vec_len, IsPermutation};
ghost use Rattle.read_section.specs.WorkerOrder.{IsSpread};
ghost use Rattle.read_section.specs.body.Order.{first_of_lines_moved, moved_to_end};
ghost use Rattle.read_section.specs.declared.worker_order.TheConstants.{APART};
ghost use Rattle.versions.specs.declared.layout.TheConstants.{WORKERS};

use crate::worker::Worker;
use versions::WORKERS;

// Read words that are this many words apart never share a cache line of 64 bytes.
const APART: usize = 8;

// The workers after the first eight, in lines of eight.
const LINES: usize = WORKERS / APART - 1;

// Moves the worker at a place to the end.
fn move_to_end(workers: &mut Vec<Worker>, place: usize)
    ensures moved { workers.new.items ≡ moved_to_end place workers.old.items }
    ensures same_workers { IsPermutation workers.old.items workers.new.items }
    ensures count { vec_len workers.new ≡ vec_len workers.old }
{
    if place >= workers.len() {
        return;
    }
    let worker = workers.remove(place);
    let Ok(()) = workers.push(worker) else {
        unreachable!()
    };
}

// Each line has `left` workers left. Moves the first worker of each line to the end, the last line's before the
// others'. Worker 7 is before the lines.
fn move_first_of_lines(workers: &mut Vec<Worker>, left: usize)
    requires { left ≤ APART }
    ensures moved { workers.new.items ≡ first_of_lines_moved left 7 workers.old.items }
    ensures same_workers { IsPermutation workers.old.items workers.new.items }
    ensures count { vec_len workers.new ≡ vec_len workers.old }
{
    for line in 0..LINES {
        move_to_end(workers, 1 + (LINES - 1 - line) * left);
    }
}

/// Puts the workers that `open` made into the order in which `pop` is to take them. Takes no memory.
///
/// First come workers 7, 15, 23 .. 63, whose read words are eight apart from each other and from `current`; then 14, 22 .. 62, and so
/// on; and last 6, 5 .. 0, whose read words lie beside `current`.
pub fn spread(workers: &mut Vec<Worker>)
    ensures order { vec_len workers.old ≡ WORKERS → IsSpread workers.old.items workers.new.items }
    ensures same_workers { IsPermutation workers.old.items workers.new.items }
    ensures count { vec_len workers.new ≡ vec_len workers.old }
{
    for _first in 0..APART - 1 {
        move_to_end(workers, 0);
    }
    for moved in 0..APART {
        move_first_of_lines(workers, APART - moved);
    }
    move_to_end(workers, 0);
}
