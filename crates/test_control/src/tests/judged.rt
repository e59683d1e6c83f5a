//! The replies to packets, one for each kind of verdict.

use control::{REPLY_LIMIT, judged_reply};
use dispatch::Verdict;
use ipv4_fields::Endpoint;

const GROUP: Endpoint = Endpoint {
    address: 0x0a00_0002,
    port: 53,
};

const LAST: Endpoint = Endpoint {
    address: u32::MAX,
    port: u16::MAX,
};

const JUDGED: [(u64, Verdict, &str); 6] = [
    (0, Verdict::Malformed, "version 0 malformed"),
    (7, Verdict::NoGroup, "version 7 nogroup"),
    (10, Verdict::NoMembers, "version 10 nomembers"),
    (
        12,
        Verdict::Dropped {
            group: GROUP,
            member: 3,
        },
        "version 12 dropped 10.0.0.2:53 3",
    ),
    (
        12,
        Verdict::Deliver {
            group: GROUP,
            member: 0,
            to: Endpoint {
                address: 0x7f00_0001,
                port: 9001,
            },
            bytes: 28,
        },
        "version 12 deliver 10.0.0.2:53 0 127.0.0.1:9001 28",
    ),
    (
        u64::MAX,
        Verdict::Deliver {
            group: LAST,
            member: u32::MAX,
            to: LAST,
            bytes: 65_535,
        },
        "version 18446744073709551615 deliver 255.255.255.255:65535 4294967295 255.255.255.255:65535 65535",
    ),
];

#[test]
fn verdicts_as_replies(rt: HostRuntime) {
    for (version, verdict, text) in &JUDGED {
        let reply = judged_reply(*version, *verdict);
        assert!(rt; reply.bytes() == text.as_bytes(), "{text}");
    }
    assert!(rt; REPLY_LIMIT == 128);
}
