//! A table that is lent to a test. A function that owns a table and its workers costs much to prove, since it drops
//! them on each return, so only these do.

ghost use Rattle.std.specs.Prelude.{◌≡◌};

use member_group::Config;
use read_section::{Operator, Worker, open};
use retire::Retire;
use std::process::Abort;

/// Opens a table at this configuration, and makes a check with its operator and its workers.
pub fn on_workers<R: Abort, F: FnOnce(&R, &mut Operator, &mut Vec<Worker>)>(
    rt: &R,
    config: Config,
    check: F,
)
    requires { F.IsAlwaysCallable check }
{
    let (mut operator, mut workers) = open(config).expect(rt, "a table opens");
    check(rt, &mut operator, &mut workers);
}

/// The same with the last of its workers.
pub fn on_table<R: Abort, F: FnOnce(&R, &mut Operator, &mut Worker)>(
    rt: &R,
    config: Config,
    check: F,
)
    requires { F.IsAlwaysCallable check }
{
    let (mut operator, mut workers) = open(config).expect(rt, "a table opens");
    let worker = workers.last_mut().expect(rt, "a table has workers");
    check(rt, &mut operator, worker);
}

/// Publishes a configuration, and returns the version's number.
pub fn published(rt: &impl Abort, operator: &mut Operator, config: Config) -> u64
    ensures same_table { operator.new.table ≡ operator.old.table }
{
    operator.publish(config).ok().expect(rt, "a row is free")
}

/// The current version names these pages.
pub fn has_pages(rt: &impl Abort, operator: &Operator, wanted: &[u32]) {
    assert!(rt; operator.current_pages() == wanted);
}
