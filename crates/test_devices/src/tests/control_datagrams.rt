//! Answers to control datagrams.

use dispatch::{Counter, Kind, Tally};
use ipv4_fields::Endpoint;
use member_counts::{MemberTable, VerdictLog};
use member_group::Config;
use packet_verdict::Verdict;
use read_section::{Operator, open};
use serve_control::{BoundAddresses, ControlAnswer, answer};
use std::alloc::Global;
use std::process::Abort;

// The state that answers: a table without groups, the tally of all workers, and the counters by member.
#[derive(Drop)]
struct Switch {
    operator: Operator,
    tally: Tally,
    members: MemberTable,
}

// Lends a new switch, and the counters of its workers, to a check.
fn on_switch<F: FnOnce(&mut Switch, &mut Vec<Counter>)>(rt: &impl Abort, alloc: Global, check: F)
    requires { F.IsAlwaysCallable check }
{
    let (operator, _workers) = open(Config::new(alloc)).expect(rt, "a table");
    let (tally, mut counters) = Tally::open(alloc).expect(rt, "a tally");
    let mut switch = Switch {
        operator,
        tally,
        members: MemberTable::new(alloc),
    };
    check(&mut switch, &mut counters);
}

// 127.0.0.1
const LOOPBACK: u32 = 0x7f00_0001;

// The front is at 127.0.0.1 alone, control at all addresses.
const BOUND: BoundAddresses = BoundAddresses {
    front: Endpoint {
        address: LOOPBACK,
        port: 5300,
    },
    control: Endpoint {
        address: 0,
        port: 5301,
    },
};

const CLIENT: Endpoint = Endpoint {
    address: LOOPBACK,
    port: 40000,
};

impl Switch {
    fn answer(&mut self, alloc: Global, sender: Endpoint, text: &[u8]) -> Option<ControlAnswer> {
        answer(
            alloc,
            &BOUND,
            sender,
            text,
            &mut self.operator,
            &mut self.tally,
            &mut self.members,
        )
    }
}

// The text of a datagram, and its reply.
type Case<'a> = (&'a [u8], &'a [u8]);

fn expect_each(rt: &impl Abort, alloc: Global, switch: &mut Switch, cases: &[Case]) {
    for (text, reply) in cases {
        let answer = switch.answer(alloc, CLIENT, text).expect(rt, "an answer");
        let mut bytes = Vec::new(alloc);
        answer.append_to(&mut bytes).expect(rt, "memory");
        assert!(rt; bytes.as_slice() == *reply, "{text:?}");
    }
}

// A text with LF is a control line if its program may contain one, and otherwise not.
const ANSWERS: [Case; 16] = [
    (b"show", b"version 0 groups 0 members 0 charge 2"),
    (b"", b"refused C1"),
    (b"stop\n", b"refused C1"),
    (b"Stop", b"refused C1"),
    (b" stop", b"refused C1"),
    (b"totals ", b"refused C1"),
    (b"show\n", b"refused C1"),
    (b"packet 4500", b"refused C1"),
    (b"packet ", b"refused C1"),
    (b"add 10.0.0.2:53", b"ok version 1"),
    (b"selector 10.0.0.2:53 asm neg\nret a", b"ok version 2"),
    (b"join 10.0.0.2:53 1 127.0.0.1:9001\n", b"refused C1"),
    (b"join 10.0.0.2:53 1 127.0.0.1:9001", b"ok version 3"),
    (b"stop", b"ok stop"),
    (b"sweep", b"reclaimed 0 3"),
    (
        b"totals",
        b"malformed 0 nogroup 0 nomembers 0 dropped 0 delivered 0 sendfailed 0 receivefailed 0",
    ),
];

#[test]
fn datagrams_are_answered_in_turn(rt: HostRuntime) {
    on_switch(&rt, rt.alloc(), |switch, _counters| {
        expect_each(&rt, rt.alloc(), switch, &ANSWERS);
    });
}

// Each word that begins replies, and other texts that look like a reply.
const REPLIES: [&[u8]; 11] = [
    b"ok stop",
    b"ok version 1",
    b"ok ",
    b"refused C1",
    b"failed E3",
    b"version 0 groups 0 members 0 charge 2",
    b"reclaimed 0 3",
    b"malformed 0 nogroup 0 nomembers 0 dropped 0 delivered 0 sendfailed 0 receivefailed 0",
    b"delivered 0 dropped 0",
    b"ready 127.0.0.1:5300 127.0.0.1:5301",
    b"version \xff\x00\n",
];

// No reply begins so.
const ALMOST_REPLIES: [&[u8]; 10] = [
    b"ok",
    b"ready",
    b"ok\tversion 1",
    b" ok version 1",
    b"Ok version 1",
    b"okay version 1",
    b"versions 0",
    b"o k",
    b"groups 0",
    b"dropped 0",
];

fn is_ignored(alloc: Global, switch: &mut Switch, sender: Endpoint, text: &[u8]) -> bool {
    switch.answer(alloc, sender, text).is_none()
}

#[test]
fn replies_are_ignored(rt: HostRuntime) {
    on_switch(&rt, rt.alloc(), |switch, _counters| {
        for text in &REPLIES {
            assert!(rt; is_ignored(rt.alloc(), switch, CLIENT, text), "{text:?}");
        }
        for text in &ALMOST_REPLIES {
            expect_each(&rt, rt.alloc(), switch, &[(*text, b"refused C1")]);
        }
    });
}

// A sender's address and port, and whether it is the switch. Each address with control's port is the switch's.
const SENDERS: [(u32, u16, bool); 8] = [
    (LOOPBACK, 5300, true),
    (0x7f00_0002, 5300, false),
    (0, 5300, false),
    (LOOPBACK, 5301, true),
    (0x0a00_0001, 5301, true),
    (0, 5301, true),
    (LOOPBACK, 5302, false),
    (LOOPBACK, 40000, false),
];

// `show` is a line, so it is answered if its sender is not ignored.
#[test]
fn own_datagrams_are_ignored(rt: HostRuntime) {
    on_switch(&rt, rt.alloc(), |switch, _counters| {
        for (address, port, is_own) in &SENDERS {
            let sender = Endpoint {
                address: *address,
                port: *port,
            };
            let ignored = is_ignored(rt.alloc(), switch, sender, b"show");
            assert!(rt; ignored == *is_own, "{sender:?}");
        }
        assert!(rt; is_ignored(rt.alloc(), switch, BOUND.front, b"add 10.0.0.2:53"));
        expect_each(
            &rt,
            rt.alloc(),
            switch,
            &[(b"add 10.0.0.2:53", b"ok version 1")],
        );
    });
}

// The longest that one datagram carries is no line, and not too long for one.
#[test]
fn longest_control_datagram(rt: HostRuntime) {
    let text = vec![in rt.alloc(); b'z'; 65_507].expect(&rt, "memory");
    on_switch(&rt, rt.alloc(), |switch, _counters| {
        expect_each(&rt, rt.alloc(), switch, &[(&text, b"refused C1")]);
    });
}

const COUNTED: [Case; 1] = [(
    b"totals",
    b"malformed 1 nogroup 2 nomembers 3 dropped 4 delivered 5 sendfailed 6 receivefailed 7",
)];

const COUNTS: [(Kind, u32); 7] = [
    (Kind::Malformed, 1),
    (Kind::NoGroup, 2),
    (Kind::NoMembers, 3),
    (Kind::Dropped, 4),
    (Kind::Delivered, 5),
    (Kind::SendFailed, 6),
    (Kind::ReceiveFailed, 7),
];

#[test]
fn totals_tell_each_kind(rt: HostRuntime) {
    on_switch(&rt, rt.alloc(), |switch, counters| {
        let counter = counters.last_mut().expect(&rt, "a counter");
        for (kind, count) in &COUNTS {
            for _ in 0..*count {
                assert!(rt; counter.count(*kind).is_ok());
            }
        }
        expect_each(&rt, rt.alloc(), switch, &COUNTED);
    });
}

const GROUP: Endpoint = Endpoint {
    address: 0x0a00_0002,
    port: 53,
};

// Lines, and their replies after member 1 of 10.0.0.2:53 got 28 bytes and dropped a packet, and member 2, which has
// left, got 9.
const COUNTERS: [Case; 12] = [
    (b"totals 10.0.0.2:53", b"refused G1"),
    (b"totals 10.0.0.2:53 1", b"refused G1"),
    (b"add 10.0.0.2:53", b"ok version 1"),
    (
        b"totals 10.0.0.2:53",
        b"delivered 2 dropped 1 nomembers 1 sendfailed 0",
    ),
    (b"totals 10.0.0.2:53 1", b"refused G3"),
    (b"join 10.0.0.2:53 1 127.0.0.1:9001", b"ok version 2"),
    (
        b"totals 10.0.0.2:53 1",
        b"delivered 1 dropped 1 sendfailed 0 bytes 28",
    ),
    (b"totals 10.0.0.2:53 2", b"refused G3"),
    (b"totals 10.0.0.2:54 1", b"refused G1"),
    (b"totals 10.0.0.2:53 01", b"refused C1"),
    (b"totals 10.0.0.2:53 1 ", b"refused C1"),
    (b"totals 10.0.0.2", b"refused C1"),
];

const JUDGED: [Verdict; 3] = [
    Verdict::Deliver {
        group: GROUP,
        member: 1,
        to: CLIENT,
        bytes: 28,
    },
    Verdict::Dropped {
        group: GROUP,
        member: 1,
    },
    Verdict::Deliver {
        group: GROUP,
        member: 2,
        to: CLIENT,
        bytes: 9,
    },
];

fn log_of(rt: &impl Abort, alloc: Global) -> VerdictLog {
    let mut log = VerdictLog::new(alloc, 4).expect(rt, "memory");
    for verdict in &JUDGED {
        assert!(rt; !log.is_full());
        log.judged(verdict);
    }
    assert!(rt; !log.is_full());
    log.no_members(GROUP);
    log
}

#[test]
fn counters_by_member(rt: HostRuntime) {
    let log = log_of(&rt, rt.alloc());
    on_switch(&rt, rt.alloc(), |switch, _counters| {
        switch.members.count(&log);
        expect_each(&rt, rt.alloc(), switch, &COUNTERS);
    });
}

const STOPS: [(&[u8], bool); 4] = [
    (b"stop", true),
    (b"totals", false),
    (b"stop ", false),
    (b"sto", false),
];

#[test]
fn only_stop_stops(rt: HostRuntime) {
    on_switch(&rt, rt.alloc(), |switch, _counters| {
        for (text, wanted) in &STOPS {
            let answer = switch.answer(rt.alloc(), CLIENT, text);
            let stops = matches!(&answer, Some(ControlAnswer::Stop));
            assert!(rt; stops == *wanted, "{text:?}");
        }
    });
}
