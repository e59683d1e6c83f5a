//! The outbox of a worker that counts by member (docs/SWITCH.md, "Devices of a server"): a socket of its own, a log of its own, and
//! the table that all workers count in.

ghost use Rattle.std.specs.Prelude.{◌≡◌, ◌<◌, IfOk, IsTrue, length};
ghost use Rattle.dispatch.specs.Device.{CountsFailure, Takes, taken_by};
ghost use Rattle.member_counts.specs.Log.{begins_no_run, cleared, with_no_members, with_verdict};
ghost use Rattle.member_counts.specs.Table.{CountsLog};
ghost use Rattle.serve_devices.specs.Devices.{Logs, MakesRoom, after_send, emptied, new_outbox};
ghost use Rattle.serve_devices.specs.declared.member_outbox.TheConstants.{LOG_ROOM};

use crate::egress::Egress;
use crate::socket_outbox::SocketOutbox;
use dispatch::{Failed, Outbox};
use ipv4_fields::Endpoint;
use member_counts::{MemberTable, VerdictLog};
use packet_verdict::Verdict;
use std::alloc::{AllocError, Global};
use std::marker::Model;
use std::sync::{Mutex, Wait};

/// The most runs that a worker logs before it adds them to the table.
pub const LOG_ROOM: usize = 64;

/// The table that all workers count in.
pub type SharedCounts = Mutex<MemberTable>;

/// An outbox over an egress, which counts by member.
///
/// It logs the verdicts of a batch in its own log. It takes the lock of the table when the log is handed on, and never
/// while a packet is judged. Contracts see how often a send failed, what was sent (if the egress shows it), and what is
/// in the log.
#[derive(Drop)]
pub struct MemberOutbox<'a, E: Egress + Drop, R: Wait> {
    rt: &'a R,
    outbox: SocketOutbox<E>,
    log: VerdictLog,
    counts: &'a SharedCounts,
}

impl<'a, E: Egress + Drop, R: Wait> Model for MemberOutbox<'a, E, R> {
    ghost use Rattle.std.specs.Prelude.{◌≡◌};
    ghost use Rattle.serve_devices.specs.Devices.{MemberOutboxValue};
    ghost use Rattle.serve_devices.specs.declared.member_outbox.TheConstants.{LOG_ROOM};

    ghost Value = { MemberOutboxValue };

    ghost view = { λ o. record { outbox = o.outbox.outbox; log = o.log } };

    ghost invariant = { λ o. o.log.room ≡ LOG_ROOM };
}

// Adds the log to the table, and empties it.
fn hand_log_on(log: &mut VerdictLog, table: &mut MemberTable)
    ensures counted { CountsLog table.old log.old.entries table.new }
    ensures empty { log.new ≡ cleared log.old }
{
    table.count(log);
    log.clear();
}

impl<'a, E: Egress + Drop, R: Wait> MemberOutbox<'a, E, R> {
    /// Takes the egress, and the memory for the log.
    pub fn new(
        rt: &'a R,
        alloc: Global,
        egress: E,
        counts: &'a SharedCounts,
    ) -> Result<MemberOutbox<'a, E, R>, AllocError>
        ensures new { IfOk result (λ outbox. outbox ≡ new_outbox (E.taken egress)) }
    {
        Ok(MemberOutbox {
            rt,
            outbox: SocketOutbox::new(egress),
            log: VerdictLog::new(alloc, LOG_ROOM)?,
            counts,
        })
    }

    // Hands the log on, if there is something in it.
    fn empty_log(&mut self)
        ensures empty { self.new.log ≡ emptied self.old.log }
        ensures unchanged { self.new.outbox ≡ self.old.outbox }
    {
        if self.log.is_empty() {
            return;
        }
        let mut table = self.counts.lock(self.rt);
        hand_log_on(&mut self.log, &mut table);
    }

    // Hands a full log on.
    #[inline]
    fn make_room(&mut self)
        ensures made { MakesRoom self.old.log self.new.log }
        ensures room { length self.new.log.entries < LOG_ROOM }
        ensures unchanged { self.new.outbox ≡ self.old.outbox }
    {
        if self.log.is_full() {
            self.empty_log();
        }
    }

    // Logs a verdict that may need room. It is not inlined, as packets that come one after another seldom need it.
    #[inline(never)]
    fn begin_run(&mut self, verdict: Verdict)
        ensures unchanged { self.new.outbox ≡ self.old.outbox }
        ensures logged { Logs (with_verdict verdict) self.old.log self.new.log }
        ensures in_place { IsTrue (begins_no_run verdict self.old.log) → self.new.log ≡ with_verdict verdict self.old.log }
    {
        if self.log.judged_again(&verdict) {
            return;
        }
        self.make_room();
        self.log.judged(&verdict);
    }
}

impl<'a, E: Egress + Drop, R: Wait> Outbox for MemberOutbox<'a, E, R> {
    ghost state = { λ o. o.outbox };

    fn send(&mut self, to: Endpoint, bytes: &[u8]) -> Result<(), Failed>
        ensures device_failed { CountsFailure result self.old.outbox.failures self.new.outbox.failures }
        ensures sent_once { Takes self.old.outbox.taken self.new.outbox.taken (taken_by result to bytes.now) }
        ensures logged { self.new.log ≡ after_send result self.old.log }
    {
        let sent = self.outbox.send(to, bytes);
        if sent.is_err() {
            self.log.send_failed();
        }
        sent
    }

    fn judged(&mut self, verdict: &Verdict)
        ensures unchanged { self.new.outbox ≡ self.old.outbox }
        ensures logged { Logs (with_verdict verdict.now) self.old.log self.new.log }
        ensures in_place { IsTrue (begins_no_run verdict.now self.old.log) → self.new.log ≡ with_verdict verdict.now self.old.log }
    {
        if !self.log.delivered_again(verdict) {
            self.begin_run(*verdict);
        }
    }

    fn no_members(&mut self, group: Endpoint)
        ensures unchanged { self.new.outbox ≡ self.old.outbox }
        ensures logged { Logs (with_no_members group) self.old.log self.new.log }
    {
        self.make_room();
        self.log.no_members(group);
    }

    fn hand_on(&mut self)
        ensures unchanged { self.new.outbox ≡ self.old.outbox }
        ensures handed_on { self.new.log ≡ emptied self.old.log }
    {
        self.empty_log();
    }
}
