//! The counters of a switch, as they are read of it.

use ipv4_fields::Endpoint;

/// How often each result came, since the switch began.
#[derive(Clone, Copy)]
pub struct Totals {
    pub malformed: u64,
    pub nogroup: u64,
    pub nomembers: u64,
    pub dropped: u64,
    pub delivered: u64,
    /// How many of those delivered could not be sent.
    pub sendfailed: u64,
    /// How often receiving failed.
    pub receivefailed: u64,
}

/// The counts of a group. Members that left are counted too.
#[derive(Clone, Copy)]
pub struct GroupCount {
    pub key: Endpoint,
    pub delivered: u64,
    pub dropped: u64,
    pub nomembers: u64,
    pub sendfailed: u64,
}

/// The counts of a member of a group.
#[derive(Clone, Copy)]
pub struct MemberCount {
    pub key: Endpoint,
    pub id: u32,
    pub to: Endpoint,
    pub delivered: u64,
    pub dropped: u64,
    pub sendfailed: u64,
    /// How many bytes of packets were delivered.
    pub bytes: u64,
}

/// The counters found by one reading of a switch.
#[derive(Drop)]
pub struct Counters {
    pub version: u64,
    pub charge: u32,
    pub totals: Totals,
    /// In the order of their keys.
    pub groups: Vec<GroupCount>,
    /// In the order of their groups, and of their indexes.
    pub members: Vec<MemberCount>,
}

/// How many datagrams the kernel dropped at the sockets of a front.
#[derive(Clone, Copy)]
pub struct FrontDrops {
    pub front: Endpoint,
    pub drops: u64,
}
