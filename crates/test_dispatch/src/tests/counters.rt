//! Counters by member: their texts, packets that need no room in a log, and keys that the configuration lacks.

use super::configurations::applied;
use ipv4_fields::Endpoint;
use member_counts::{Counts, KEPT_LIMIT, MemberTable, VerdictLog};
use member_group::{Command, Config};
use packet_verdict::Verdict;
use std::alloc::Global;
use std::process::Abort;

const GROUP: Endpoint = Endpoint {
    address: 0x0a00_0002,
    port: 53,
};

// Its address is another one, its port is the same.
const OTHER: Endpoint = Endpoint {
    address: 0x0a00_0003,
    port: 53,
};

// An entry for a log: a verdict, and whether its send failed; or the key of a group without members.
#[derive(Clone, Copy)]
enum Given {
    Verdict(Verdict, bool),
    NoMembers(Endpoint),
}

fn delivered(group: Endpoint, member: u32, bytes: usize) -> Verdict {
    Verdict::Deliver {
        group,
        member,
        to: OTHER,
        bytes,
    }
}

// Packets for the group's member 1, for its member 2, and for member 1 of the other group.
const FIRST: Verdict = Verdict::Deliver {
    group: GROUP,
    member: 1,
    to: OTHER,
    bytes: 28,
};

const FIRST_MOST: Verdict = Verdict::Deliver {
    group: GROUP,
    member: 1,
    to: OTHER,
    bytes: usize::MAX,
};

const FIRST_DROPS: Verdict = Verdict::Dropped {
    group: GROUP,
    member: 1,
};

const SECOND_DROPS: Verdict = Verdict::Dropped {
    group: GROUP,
    member: 2,
};

const OTHER_FIRST: Verdict = Verdict::Deliver {
    group: OTHER,
    member: 1,
    to: OTHER,
    bytes: 100,
};

static GIVEN: [Given; 10] = [
    Given::Verdict(Verdict::Malformed, false),
    Given::Verdict(FIRST, false),
    Given::Verdict(FIRST, true),
    Given::Verdict(Verdict::NoGroup, false),
    Given::Verdict(SECOND_DROPS, true),
    Given::Verdict(OTHER_FIRST, false),
    Given::Verdict(Verdict::NoMembers, false),
    Given::NoMembers(OTHER),
    Given::NoMembers(OTHER),
    Given::Verdict(FIRST_MOST, false),
];

// Counts them in the log, and each full log in the table.
fn count_all(rt: &impl Abort, table: &mut MemberTable, log: &mut VerdictLog, given: &[Given]) {
    for one in given {
        if log.is_full() {
            table.count(log);
            log.clear();
        }
        assert!(rt; !log.is_full());
        match one {
            Given::NoMembers(group) => log.no_members(*group),
            Given::Verdict(verdict, failed) => {
                log.judged(verdict);
                if *failed {
                    log.send_failed();
                }
            }
        }
    }
    table.count(log);
    log.clear();
}

fn is_member(alloc: Global, table: &MemberTable, group: Endpoint, member: u32, text: &str) -> bool {
    match format!(in alloc; "{}", table.member(group, member)) {
        Ok(printed) => printed.as_str() == text,
        Err(_) => false,
    }
}

fn is_group(alloc: Global, table: &MemberTable, group: Endpoint, text: &str) -> bool {
    match format!(in alloc; "{}", table.group(group)) {
        Ok(printed) => printed.as_str() == text,
        Err(_) => false,
    }
}

// A group's member, and its counts.
static MEMBERS: [(Endpoint, u32, &str); 3] = [
    (
        GROUP,
        1,
        "delivered 3 dropped 0 sendfailed 1 bytes 18446744073709551615",
    ),
    (GROUP, 2, "delivered 0 dropped 1 sendfailed 0 bytes 0"),
    (OTHER, 2, "delivered 0 dropped 0 sendfailed 0 bytes 0"),
];

static GROUPS: [(Endpoint, &str); 2] = [
    (GROUP, "delivered 3 dropped 1 nomembers 0 sendfailed 1"),
    (OTHER, "delivered 1 dropped 0 nomembers 2 sendfailed 0"),
];

fn prints_counts(rt: &impl Abort, alloc: Global, table: &mut MemberTable, log: &mut VerdictLog) {
    count_all(rt, table, log, &GIVEN);
    assert!(rt; log.is_empty() && table.len() == 4);
    for (group, member, text) in &MEMBERS {
        assert!(rt; is_member(alloc, table, *group, *member, text));
    }
    for (group, text) in &GROUPS {
        assert!(rt; is_group(alloc, table, *group, text));
    }
}

#[test]
fn counts_are_printed(rt: HostRuntime) {
    let mut table = MemberTable::new(rt.alloc());
    let mut log = VerdictLog::new(rt.alloc(), 3).expect(&rt, "a log");
    prints_counts(&rt, rt.alloc(), &mut table, &mut log);
}

// Packets for other members than the first one need room.
static OTHERS: [(Endpoint, u32); 3] = [(GROUP, 0), (GROUP, 2), (OTHER, 1)];

fn others_need_room(rt: &impl Abort, log: &mut VerdictLog) {
    for (group, member) in &OTHERS {
        assert!(rt; !log.judged_again(&delivered(*group, *member, 28)));
    }
}

// One run fills the log. Packets of its member, and packets of no member, are counted all the same.
fn judges_again(rt: &impl Abort, log: &mut VerdictLog) {
    others_need_room(rt, log);
    assert!(rt; log.judged_again(&Verdict::NoMembers));
    assert!(rt; log.is_empty() && !log.is_full());
    log.judged(&FIRST);
    assert!(rt; log.is_full() && log.judged_again(&FIRST_MOST) && log.judged_again(&FIRST_DROPS));
    others_need_room(rt, log);
}

fn counts_without_room(
    rt: &impl Abort,
    alloc: Global,
    table: &mut MemberTable,
    log: &mut VerdictLog,
) {
    judges_again(rt, log);
    table.count(log);
    let first = "delivered 2 dropped 1 sendfailed 0 bytes 18446744073709551615";
    assert!(rt; is_member(alloc, table, GROUP, 1, first) && table.len() == 1);
}

#[test]
fn counts_again_without_room(rt: HostRuntime) {
    let mut table = MemberTable::new(rt.alloc());
    let mut log = VerdictLog::new(rt.alloc(), 1).expect(&rt, "a log");
    counts_without_room(&rt, rt.alloc(), &mut table, &mut log);
}

const NOTHING: &str = "delivered 0 dropped 0 sendfailed 0 bytes 0";

// The first verdict after a log with one packet for the group's member 1 was counted and cleared; whether the log counts it as one of the same
// member, and whether its send fails; then the counts of the group's members 1 and 2.
static CLEARED: [(Verdict, bool, bool, &str, &str); 5] = [
    (
        FIRST,
        true,
        false,
        "delivered 2 dropped 0 sendfailed 0 bytes 56",
        NOTHING,
    ),
    (
        FIRST,
        true,
        true,
        "delivered 2 dropped 0 sendfailed 1 bytes 56",
        NOTHING,
    ),
    (
        FIRST_MOST,
        true,
        true,
        "delivered 2 dropped 0 sendfailed 1 bytes 18446744073709551615",
        NOTHING,
    ),
    (
        FIRST_DROPS,
        true,
        true,
        "delivered 1 dropped 1 sendfailed 0 bytes 28",
        NOTHING,
    ),
    (
        SECOND_DROPS,
        false,
        false,
        "delivered 1 dropped 0 sendfailed 0 bytes 28",
        "delivered 0 dropped 1 sendfailed 0 bytes 0",
    ),
];

// A send that fails right after `clear` is not counted.
fn clears(rt: &impl Abort, table: &mut MemberTable, log: &mut VerdictLog) {
    count_all(rt, table, log, &[Given::Verdict(FIRST, false)]);
    log.send_failed();
    table.count(log);
    assert!(rt; log.is_empty() && !log.is_full() && log.last().is_none());
}

// Counts the verdict, and returns whether the log counts it as one of the same member.
fn count_one(
    rt: &impl Abort,
    table: &mut MemberTable,
    log: &mut VerdictLog,
    verdict: &Verdict,
    failed: bool,
) -> bool {
    let again = log.judged_again(verdict);
    if again && failed {
        log.send_failed();
    }
    if again {
        assert!(rt; log.is_full());
        table.count(log);
        log.clear();
    } else {
        count_all(rt, table, log, &[Given::Verdict(*verdict, failed)]);
    }
    again
}

fn counts_after_clear(rt: &impl Abort, alloc: Global, log: &mut VerdictLog) {
    for (verdict, is_again, failed, first, second) in &CLEARED {
        let mut table = MemberTable::new(alloc);
        clears(rt, &mut table, log);
        assert!(rt; count_one(rt, &mut table, log, verdict, *failed) == *is_again);
        assert!(rt;
            is_member(alloc, &table, GROUP, 1, first) && is_member(alloc, &table, GROUP, 2, second)
        );
    }
}

// A log without room counts only verdicts that name no member.
fn counts_nothing(rt: &impl Abort, log: &mut VerdictLog) {
    for _ in 0..2 {
        assert!(rt; !log.judged_again(&FIRST) && !log.judged_again(&FIRST_DROPS));
        assert!(rt; log.judged_again(&Verdict::NoGroup) && !log.delivered_again(&FIRST));
        log.send_failed();
        assert!(rt; log.is_empty() && log.is_full());
        log.clear();
    }
}

#[test]
fn cleared_logs_count_as_new_ones(rt: HostRuntime) {
    let mut log = VerdictLog::new(rt.alloc(), 1).expect(&rt, "a log");
    counts_after_clear(&rt, rt.alloc(), &mut log);
    let mut log = VerdictLog::new(rt.alloc(), 0).expect(&rt, "a log");
    counts_nothing(&rt, &mut log);
}

// As many members of one group as are kept.
fn fills(rt: &impl Abort, table: &mut MemberTable, log: &mut VerdictLog) {
    for member in 0..KEPT_LIMIT as u32 {
        let given = [Given::Verdict(delivered(GROUP, member, 1), false)];
        count_all(rt, table, log, &given);
    }
}

// Member 7 of the group is kept, and no other key.
fn one_is_kept(table: &MemberTable) -> bool {
    let gone = table.gone();
    table.len() == 1
        && table.member(GROUP, 7).delivered == 1
        && table.member(GROUP, 8).delivered == 0
        && gone.delivered == KEPT_LIMIT as u64 - 1
        && gone.no_members == 1
}

// The configuration has member 7 of those that are kept; then one key more is counted.
fn lets_go(rt: &impl Abort, config: &Config, table: &mut MemberTable, log: &mut VerdictLog) {
    fills(rt, table, log);
    table.settle(config);
    assert!(rt; table.len() == KEPT_LIMIT && table.gone() == Counts::none());
    count_all(rt, table, log, &[Given::NoMembers(OTHER)]);
    table.settle(config);
    assert!(rt; one_is_kept(table));
}

// The group with member 7.
fn one_member(rt: &impl Abort, alloc: Global) -> Config {
    let key = GROUP;
    let config = applied(rt, &Config::new(alloc), &Command::AddGroup { key });
    let member = Command::Join {
        key,
        member: 7,
        to: OTHER,
    };
    applied(rt, &config, &member)
}

#[test]
fn lacking_keys_are_gone(rt: HostRuntime) {
    let config = one_member(&rt, rt.alloc());
    let mut table = MemberTable::new(rt.alloc());
    let mut log = VerdictLog::new(rt.alloc(), 64).expect(&rt, "a log");
    lets_go(&rt, &config, &mut table, &mut log);
}
