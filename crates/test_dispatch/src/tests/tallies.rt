//! Counters of one tally, in turn, and the line of their totals.

ghost use Rattle.std.specs.Prelude.{◌≡◌, IfOk};
ghost use Rattle.atomic_table.specs.Seated.{TableId};
ghost use Rattle.dispatch.specs.Tally.{AreCountersOf};

use dispatch::{COUNTERS, Counter, Kind, Tally, Totals, gather};
use std::alloc::{AllocError, Global};
use std::test::Fail;

// Counts once, if the counter is not full.
fn count(counter: &mut Counter, kind: Kind)
    ensures { counter.new.table ≡ counter.old.table }
{
    let _ = counter.count(kind);
}

// Each counter counts twice: the fourth malformed packets, the others delivered ones.
fn count_each(alloc: Global, counters: Vec<Counter>) -> Result<Vec<Counter>, AllocError>
    ensures { IfOk result (λ back. (table : TableId) → AreCountersOf table counters.items → AreCountersOf table back.items) }
{
    let mut back = Vec::new(alloc);
    for mut counter in counters {
        let kind = if back.len() == 3 {
            Kind::Malformed
        } else {
            Kind::Delivered
        };
        count(&mut counter, kind);
        count(&mut counter, kind);
        back.push(counter)?;
    }
    Ok(back)
}

#[test]
fn counts_are_summed(rt: HostRuntime) -> Result<(), Fail> {
    let (mut tally, counters) = Tally::open(rt.alloc())?;
    assert!(rt; counters.len() == COUNTERS);
    assert!(rt; tally.read(Kind::Malformed) == 0);
    let counters = count_each(rt.alloc(), counters)?;
    assert!(rt; tally.read(Kind::Malformed) == 2);
    assert!(rt; tally.read(Kind::Delivered) == 126);
    assert!(rt; tally.read(Kind::SendFailed) == 0);
    let totals = gather(tally, counters);
    assert!(rt; totals.counts == [2, 0, 0, 0, 126, 0, 0]);
    assert!(rt; (totals.of(Kind::Malformed), totals.of(Kind::Delivered)) == (2, 126));
    Ok(())
}

#[test]
fn totals_in_one_line(rt: HostRuntime) {
    let totals = Totals {
        counts: [1, 0, 20, 3, 18_446_744_073_709_551_615, 500, 6],
    };
    let line = format!(in rt.alloc(); "{totals}").expect(&rt, "memory");
    let wanted =
        "malformed 1 nogroup 0 nomembers 20 dropped 3 delivered 18446744073709551615 sendfailed 500 receivefailed 6";
    assert!(rt; line.as_str() == wanted);
}
