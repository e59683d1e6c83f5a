//! Lines while a worker is inside its section.

use control::line;
use member_group::Config;
use read_section::{Operator, Worker, open};
use std::alloc::Global;
use std::process::Abort;

// A line, and its reply.
type Case = (&'static str, &'static str);

fn expect_each(rt: &impl Abort, alloc: Global, operator: &mut Operator, session: &[Case]) {
    for (text, expected) in session {
        let reply = line(alloc, text.as_bytes(), operator).expect(rt, "the line is answered");
        assert!(rt; reply.bytes() == expected.as_bytes(), "{text}");
    }
}

// A worker that stays inside at version 0 keeps fifteen versions from being free. A command's refusal comes before the operator's.
const WHILE_IT_STAYS: [Case; 19] = [
    ("add 10.0.0.2:1", "ok version 1"),
    ("add 10.0.0.2:2", "ok version 2"),
    ("add 10.0.0.2:3", "ok version 3"),
    ("add 10.0.0.2:4", "ok version 4"),
    ("add 10.0.0.2:5", "ok version 5"),
    ("add 10.0.0.2:6", "ok version 6"),
    ("add 10.0.0.2:7", "ok version 7"),
    ("add 10.0.0.2:8", "ok version 8"),
    ("add 10.0.0.2:9", "ok version 9"),
    ("add 10.0.0.2:10", "ok version 10"),
    ("add 10.0.0.2:11", "ok version 11"),
    ("add 10.0.0.2:12", "ok version 12"),
    ("add 10.0.0.2:13", "ok version 13"),
    ("add 10.0.0.2:14", "ok version 14"),
    ("add 10.0.0.2:15", "ok version 15"),
    ("add 10.0.0.2:16", "refused B2"),
    ("add 10.0.0.2:15", "refused G2"),
    ("sweep", "reclaimed 0 0"),
    ("show", "version 15 groups 15 members 0 charge 62"),
];

const AFTER_IT_LEFT: [Case; 2] = [
    ("add 10.0.0.2:16", "ok version 16"),
    ("sweep", "reclaimed 0 16"),
];

fn is_busy_until_it_leaves(
    rt: &impl Abort,
    alloc: Global,
    operator: &mut Operator,
    worker: &mut Worker,
) {
    let section = worker.enter();
    expect_each(rt, alloc, operator, &WHILE_IT_STAYS);
    section.leave();
    expect_each(rt, alloc, operator, &AFTER_IT_LEFT);
}

#[test]
fn busy_while_a_worker_stays(rt: HostRuntime) {
    let (mut operator, mut workers) = open(Config::new(rt.alloc())).expect(&rt, "a table opens");
    let worker = workers.first_mut().expect(&rt, "a table has workers");
    is_busy_until_it_leaves(&rt, rt.alloc(), &mut operator, worker);
}
