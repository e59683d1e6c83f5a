//! The counters by member, read from the table that all workers count in.

use crate::members::MemberTotals;
use ipv4_fields::Endpoint;
use member_counts::{GroupCounts, MemberCounts, MemberTable};
use member_group::Config;
use std::sync::{Mutex, Wait};

/// Takes the table's lock for each reading. Nothing is known about the table, since the workers count meanwhile.
#[derive(Drop)]
pub struct SharedTotals<'a, R: Wait> {
    pub rt: &'a R,
    pub counts: &'a Mutex<MemberTable>,
}

impl<'a, R: Wait> MemberTotals for SharedTotals<'a, R> {
    ghost use Rattle.std.specs.Prelude.{None};

    ghost table = { λ _. None };

    fn settle(&mut self, config: &Config) {
        self.counts.lock(self.rt).settle(config);
    }

    fn group(&mut self, key: Endpoint) -> GroupCounts {
        self.counts.lock(self.rt).group(key)
    }

    fn member(&mut self, key: Endpoint, id: u32) -> MemberCounts {
        self.counts.lock(self.rt).member(key, id)
    }
}
