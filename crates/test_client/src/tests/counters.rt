//! Counters read over a wire in memory, and their printed text.

ghost use Rattle.std.specs.Prelude.{◌≤◌};

use super::memory_wire::{SWITCH, ScriptWire};
use command_line::Failure;
use control_counters::read_counters;
use control_rules::Client;
use counter_text::{Counters, FrontDrops, drops_at, metrics_text, screen_text};
use ipv4_fields::Endpoint;
use std::alloc::Global;
use std::process::Abort;
use std::time::Clock;

// A line that is sent, and its reply.
type Told = (&'static str, Option<&'static str>);

const SHOWN: Told = ("show", Some("version 2 groups 1 members 1 charge 10"));

const EMPTY: Told = ("show", Some("version 3 groups 0 members 0 charge 2"));

const GROUP: Told = (
    "group 0",
    Some("version 2 group 0 of 1 10.0.0.2:53 members 1 selector 0"),
);

const MEMBER: Told = (
    "member 10.0.0.2:53 0",
    Some("version 2 member 0 of 1 7 127.0.0.1:9001 filter 0 locked 0"),
);

const TOTALS: Told = (
    "totals",
    Some("malformed 1 nogroup 2 nomembers 3 dropped 4 delivered 5 sendfailed 6 receivefailed 7"),
);

const OF_GROUP: Told = (
    "totals 10.0.0.2:53",
    Some("delivered 5 dropped 4 nomembers 3 sendfailed 6"),
);

const OF_MEMBER: Told = (
    "totals 10.0.0.2:53 7",
    Some("delivered 5 dropped 4 sendfailed 6 bytes 18446744073709551615"),
);

const GONE: Told = ("totals 10.0.0.2:53 7", Some("refused G3"));

const OTHER_VERSION: Told = (
    "group 0",
    Some("version 3 group 0 of 1 10.0.0.2:53 members 1 selector 0"),
);

const TOO_GREAT: Told = (
    "totals",
    Some(
        "malformed 18446744073709551616 nogroup 2 nomembers 3 dropped 4 delivered 5 sendfailed 6 receivefailed 7",
    ),
);

// Each line with its reply, and the number of members that were counted at the end.
const ROWS: [(&[Told], Result<usize, Failure>); 6] = [
    (&[SHOWN, GROUP, MEMBER, TOTALS, OF_GROUP, OF_MEMBER], Ok(1)),
    (
        &[
            SHOWN,
            OTHER_VERSION,
            SHOWN,
            GROUP,
            MEMBER,
            TOTALS,
            OF_GROUP,
            OF_MEMBER,
        ],
        Ok(1),
    ),
    (
        &[SHOWN, GROUP, MEMBER, TOTALS, OF_GROUP, GONE, EMPTY, TOTALS],
        Ok(0),
    ),
    (&[EMPTY, TOO_GREAT, EMPTY, TOTALS], Ok(0)),
    (&[SHOWN, ("group 0", None)], Err(Failure::NoAnswer)),
    (
        &[SHOWN, GROUP, MEMBER, ("totals", None)],
        Err(Failure::NoAnswer),
    ),
];

// The counters of a switch that gets these lines and no others.
fn read<R: Clock>(
    clock: &R,
    alloc: Global,
    lines: &'static [Told],
    earlier: Option<&Counters>,
) -> Result<Option<Counters>, Failure> {
    let wire = ScriptWire { lines, next: 0 };
    let mut client = Client::new(alloc, wire, SWITCH)?;
    match read_counters(clock, &mut client, earlier)? {
        Some(reading) => Ok(Some(reading.counters)),
        None => Ok(None),
    }
}

#[test]
fn counters_are_read_line_by_line(rt: HostRuntime) {
    for (lines, expected) in &ROWS {
        let found = match read(&rt, rt.alloc(), lines, None) {
            Ok(Some(counters)) => Ok(counters.members.len()),
            Ok(None) => Err(Failure::RulesChanged),
            Err(failure) => Err(failure),
        };
        assert!(rt; found == *expected, "{found:?}");
    }
}

fn counters_of<R: Clock + Abort>(
    rt: &R,
    alloc: Global,
    lines: &'static [Told],
    earlier: Option<&Counters>,
) -> Counters {
    let found = read(rt, alloc, lines, earlier).expect(rt, "a reading");
    found.expect(rt, "counters")
}

const METRICS: &str =
    r#"# HELP dswitch_datagrams_total Datagrams that came to the front, by what became of them.
# TYPE dswitch_datagrams_total counter
dswitch_datagrams_total{result="malformed"} 1
dswitch_datagrams_total{result="nogroup"} 2
dswitch_datagrams_total{result="nomembers"} 3
dswitch_datagrams_total{result="dropped"} 4
dswitch_datagrams_total{result="delivered"} 5
# HELP dswitch_send_failures_total Delivered datagrams that could not be sent.
# TYPE dswitch_send_failures_total counter
dswitch_send_failures_total 6
# HELP dswitch_receive_failures_total Failed receives at the front.
# TYPE dswitch_receive_failures_total counter
dswitch_receive_failures_total 7
# HELP dswitch_rules_version The version of the rules.
# TYPE dswitch_rules_version gauge
dswitch_rules_version 2
# HELP dswitch_rules_charge The charge of the rules.
# TYPE dswitch_rules_charge gauge
dswitch_rules_charge 10
# HELP dswitch_rules_charge_limit The largest charge that rules may have.
# TYPE dswitch_rules_charge_limit gauge
dswitch_rules_charge_limit 8192
# HELP dswitch_groups Groups of the rules.
# TYPE dswitch_groups gauge
dswitch_groups 1
# HELP dswitch_members Members of all groups.
# TYPE dswitch_members gauge
dswitch_members 1
# HELP dswitch_group_datagrams_total Datagrams to a group, by what became of them. Members that left are counted too.
# TYPE dswitch_group_datagrams_total counter
dswitch_group_datagrams_total{group="10.0.0.2:53",result="nomembers"} 3
dswitch_group_datagrams_total{group="10.0.0.2:53",result="dropped"} 4
dswitch_group_datagrams_total{group="10.0.0.2:53",result="delivered"} 5
# HELP dswitch_group_send_failures_total Delivered datagrams of a group that could not be sent.
# TYPE dswitch_group_send_failures_total counter
dswitch_group_send_failures_total{group="10.0.0.2:53"} 6
# HELP dswitch_member_datagrams_total Datagrams to a member, by what became of them.
# TYPE dswitch_member_datagrams_total counter
dswitch_member_datagrams_total{group="10.0.0.2:53",member="7",to="127.0.0.1:9001",result="dropped"} 4
dswitch_member_datagrams_total{group="10.0.0.2:53",member="7",to="127.0.0.1:9001",result="delivered"} 5
# HELP dswitch_member_send_failures_total Delivered datagrams of a member that could not be sent.
# TYPE dswitch_member_send_failures_total counter
dswitch_member_send_failures_total{group="10.0.0.2:53",member="7",to="127.0.0.1:9001"} 6
# HELP dswitch_member_bytes_total Bytes of the datagrams that were delivered to a member.
# TYPE dswitch_member_bytes_total counter
dswitch_member_bytes_total{group="10.0.0.2:53",member="7",to="127.0.0.1:9001"} 18446744073709551615
# HELP dswitch_front_kernel_drops_total Datagrams that the kernel dropped at the sockets of the front.
# TYPE dswitch_front_kernel_drops_total counter
dswitch_front_kernel_drops_total{front="127.0.0.1:5300"} 15
"#;

const FRONT: Endpoint = Endpoint {
    address: 0x7f00_0001,
    port: 5300,
};

// proc(5): /proc/net/udp. The port 5300 is 14B4.
const TABLE: &[u8] =
    b"   sl  local_address rem_address   st tx_queue rx_queue tr tm->when retrnsmt   uid  timeout inode ref pointer drops             \n  533: 0100007F:14B4 00000000:0000 07 00000000:00000000 00:00000000 00000000     0        0 13371 2 0000000000000000 12         \n  533: 00000000:14B4 00000000:0000 07 00000000:00000000 00:00000000 00000000     0        0 13372 2 0000000000000000 3          \n  534: 0100007F:14B5 00000000:0000 07 00000000:00000000 00:00000000 00000000     0        0 13373 2 0000000000000000 7          \n";

const OTHER_FRONT: Endpoint = Endpoint {
    address: 0x7f00_0001,
    port: 5302,
};

#[test]
fn counters_are_printed(rt: HostRuntime) {
    let alloc = rt.alloc();
    let first = counters_of(&rt, alloc, ROWS[0].0, None);
    let drops = drops_at(alloc, TABLE, FRONT).expect(&rt, "memory");
    let front = Some(FrontDrops {
        front: FRONT,
        drops: drops.expect(&rt, "a socket"),
    });
    let text = metrics_text(alloc, &first, front).expect(&rt, "memory");
    assert!(rt; text.as_str() == METRICS, "{}", text.as_str());
    assert!(rt; drops_at(alloc, TABLE, OTHER_FRONT) == Ok(None));
}

// The same rules, half a second later than two seconds.
const AGAIN: &[Told] = &[
    SHOWN,
    (
        "totals",
        Some(
            "malformed 1 nogroup 2 nomembers 4 dropped 10 delivered 2505 sendfailed 8 receivefailed 7",
        ),
    ),
    (
        "totals 10.0.0.2:53",
        Some("delivered 2505 dropped 10 nomembers 4 sendfailed 8"),
    ),
    (
        "totals 10.0.0.2:53 7",
        Some("delivered 2503 dropped 10 sendfailed 8 bytes 18446744073709551615"),
    ),
];

const SCREEN: &str = "\
totals malformed 1 nogroup 2 nomembers 4 dropped 10 delivered 2505 sendfailed 8 receivefailed 7
rates malformed 0 nogroup 0 nomembers 0 dropped 2 delivered 1000 sendfailed 0 receivefailed 0
GROUP                     MEMBER    PACKETS/S         BYTES/S    DROPPED/S     FAILED  SHARE
10.0.0.2:53                    -         1002               0            2          2      -
10.0.0.2:53                    7         1001               0            2          2   99.8

";

// Two readings, and the milliseconds between them, make this screen.
fn expect_screen<R: Clock + Abort>(
    rt: &R,
    alloc: Global,
    readings: [&'static [Told]; 2],
    between: u32,
    screen: &str,
)
    requires { 1000 ≤ between }
{
    let [lines, more] = readings;
    let first = counters_of(rt, alloc, lines, None);
    let later = counters_of(rt, alloc, more, Some(&first));
    let text = screen_text(alloc, &first, &later, between).expect(rt, "memory");
    assert!(rt; text.as_str() == screen, "{}", text.as_str());
}

#[test]
fn two_readings_are_a_screen(rt: HostRuntime) {
    expect_screen(&rt, rt.alloc(), [ROWS[0].0, AGAIN], 2500, SCREEN);
}

// No group was there at the first reading. Its counts may be of an earlier time.
const NOTHING: &[Told] = &[EMPTY, TOTALS];

const SCREEN_OF_NEW: &str = "\
totals malformed 1 nogroup 2 nomembers 3 dropped 4 delivered 5 sendfailed 6 receivefailed 7
rates malformed 0 nogroup 0 nomembers 0 dropped 0 delivered 0 sendfailed 0 receivefailed 0
GROUP                     MEMBER    PACKETS/S         BYTES/S    DROPPED/S     FAILED  SHARE
10.0.0.2:53                    -            0               0            0          0      -
10.0.0.2:53                    7            0               0            0          0    0.0

";

#[test]
fn what_was_not_there_has_not_grown(rt: HostRuntime) {
    expect_screen(&rt, rt.alloc(), [NOTHING, ROWS[0].0], 1000, SCREEN_OF_NEW);
}

// The switch is another one: a total fell.
const RESTARTED: &[Told] = &[
    SHOWN,
    (
        "totals",
        Some(
            "malformed 0 nogroup 2 nomembers 3 dropped 4 delivered 5 sendfailed 6 receivefailed 7",
        ),
    ),
    OF_GROUP,
    OF_MEMBER,
    SHOWN,
    GROUP,
    MEMBER,
    TOTALS,
    OF_GROUP,
    OF_MEMBER,
];

#[test]
fn another_switch_is_read_anew(rt: HostRuntime) {
    let first = counters_of(&rt, rt.alloc(), ROWS[0].0, None);
    let later = counters_of(&rt, rt.alloc(), RESTARTED, Some(&first));
    assert!(rt; later.totals.malformed == 1);
}
