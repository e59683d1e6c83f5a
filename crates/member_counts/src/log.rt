//! The counts of a worker that are not yet in the table (docs/SWITCH.md, "Counters by member").

ghost use Rattle.std.specs.Prelude.{◌≡◌, ◌⊎◌, ◌<◌, ◌≤◌, ◌↔◌, ◌++◌, ◌∷◌, IfOk, IsSome, IsTrue, None, Some, [], false, length, vec_capacity};
ghost use Rattle.member_counts.specs.Counts.{no_counts, plus};
ghost use Rattle.member_counts.specs.Log.{begins_no_run, cleared, delivers_again, earlier_runs, has_key, last_run, marked_failed, new_log, with_counts, with_no_members, with_verdict};
ghost use Rattle.member_counts.specs.body.Runs.{IsPacked, group_number, has_run, is_sent, whole};
ghost use Rattle.member_counts.specs.declared.log.Run.{Run};
ghost use Rattle.member_counts.specs.declared.packed.TheConstants.{NOTHING};

use crate::counts::{Counts, one_delivered, one_dropped};
use crate::key::CountKey;
use crate::numbers::{NO_MEMBER, group_number, has_numbers, number_of};
use crate::packed::{NOTHING, packed_one, take_back, unpacked};
use ipv4_fields::Endpoint;
use packet_verdict::Verdict;
use std::alloc::{AllocError, Global};
use std::marker::Model;

/// The counts of consecutive packets with one key.
#[derive(Clone, Copy, Debug, PartialEq, Eq)]
pub struct Run {
    pub key: CountKey,
    pub counts: Counts,
}

impl Run {
    // The value of `last` in a new log: its key is not a member's.
    fn nothing() -> Run
        ensures member { result.key.member ≡ None }
        ensures group { group_number result.key.group ≡ 0 }
        ensures address { result.key.group.address ≡ 0 }
        ensures counts { result.counts ≡ no_counts }
    {
        let group = Endpoint {
            address: 0,
            port: 0,
        };
        let member = None;
        Run {
            key: CountKey { group, member },
            counts: Counts::none(),
        }
    }
}

// Returns the last run with the packed packets.
fn whole(last: &Run, packed: u128) -> Run
    requires { IsPacked packed }
    ensures { result ≡ whole last.now packed }
{
    Run {
        key: last.key,
        counts: last.counts.plus(unpacked(packed)),
    }
}

// Removes the counts of the last run, if it has some.
#[inline(always)]
fn forget(last: &mut Run, has_counts: &mut bool)
    requires { has_counts.old ≡ false → last.old.counts ≡ no_counts }
    ensures last { last.new ≡ record last.old { counts = no_counts } }
    ensures forgot { has_counts.new ≡ false }
{
    if *has_counts {
        last.counts = Counts::none();
        *has_counts = false;
    }
}

// Tests whether there is a last run.
fn has_run(has_counts: bool, packed: u128) -> bool
    ensures { result ≡ has_run has_counts packed }
{
    has_counts || packed % 0x1_0000_0000_0000_0000 != 0xFFFF_FFFF_FFFF_FFFF
}

// Returns the value of `ended` after a packet that is not packed: its send can fail, or not.
fn ended_after(sent: bool) -> u128
    ensures sent { is_sent NOTHING result ≡ sent }
    ensures bounded { result ≤ NOTHING }
{
    if sent { 0 } else { NOTHING }
}

// Adds a run to those before the last one. It is not inlined, as the first run of a log does not need it.
#[inline(never)]
fn keep(earlier: &mut Vec<Run>, run: &Run)
    requires { length earlier.old.items < vec_capacity earlier.old }
    ensures kept { earlier.new.items ≡ earlier.old.items ++ run.now ∷ [] }
    ensures capacity { vec_capacity earlier.old ≤ vec_capacity earlier.new }
{
    let Ok(()) = earlier.push(*run) else {
        unreachable!()
    };
}

/// The runs that a worker has not added to the table, and the number of runs for which there is room.
/// The reason: docs/INTERNALS.md, "A log adds up runs".
#[derive(Drop)]
pub struct VerdictLog {
    // The runs before the last one.
    earlier: Vec<Run>,
    // The last run, without the packets that are packed. It is beside the others, since nearly every packet is counted in it. An empty log
    // keeps its key, since the next packet mostly has the same one.
    last: Run,
    // Whether `last` has counts.
    has_counts: bool,
    // The delivered packets that are not in `last`, and their bytes, in one number.
    packed: u128,
    // The numbers of the last run's member and group, so that a packet's are compared with them at once.
    member: u64,
    group: u64,
    // A send can fail if `packed` is another number than this. So a packet of the same member need not store that it was sent.
    ended: u128,
    room: usize,
}

impl Model for VerdictLog {
    ghost use Rattle.std.specs.Prelude.{◌≡◌, ◌-◌, ◌<◌, ◌≤◌, ◌^◌, None, false, length, vec_capacity};
    ghost use Rattle.member_counts.specs.Counts.{no_counts};
    ghost use Rattle.member_counts.specs.Log.{Log};
    ghost use Rattle.member_counts.specs.body.Runs.{IsPacked, group_number, has_run, is_sent, number_of, runs, whole};

    ghost Value = { Log };

    ghost view = { λ log. record {
      entries = runs log.earlier.items (has_run log.has_counts log.packed) (whole log.last log.packed);
      room = log.room;
      sent = is_sent log.packed log.ended;
      kept = log.last.key;
    } };

    ghost invariant = { λ log. (length (runs log.earlier.items (has_run log.has_counts log.packed) (whole log.last log.packed)) ≤ log.room)
        × (log.room ≤ vec_capacity log.earlier)
        × (has_run log.has_counts log.packed ≡ false → (length log.earlier.items ≡ 0) × (log.packed ≡ 2 ^ 65 - 1) × (log.ended ≡ 2 ^ 65 - 1))
        × (log.has_counts ≡ false → log.last.counts ≡ no_counts)
        × (log.room ≡ 0 → log.last.key.member ≡ None)
        × (log.member ≡ number_of log.last.key.member)
        × (log.group ≡ group_number log.last.key.group)
        × (log.last.key.group.address < 2 ^ 32)
        × (log.ended ≤ log.packed)
        × (IsPacked log.packed) };
}

impl VerdictLog {
    /// Makes an empty log, and takes the memory for `room` runs. No other call takes memory.
    pub fn new(alloc: Global, room: usize) -> Result<VerdictLog, AllocError>
        ensures empty { IfOk result (λ log. log ≡ new_log room) }
    {
        Ok(VerdictLog {
            earlier: Vec::with_capacity(alloc, room)?,
            last: Run::nothing(),
            has_counts: false,
            packed: NOTHING,
            member: NO_MEMBER,
            group: 0,
            ended: NOTHING,
            room,
        })
    }

    /// Tests whether there is no room for a run.
    #[inline]
    pub fn is_full(&self) -> bool
        ensures { IsTrue result ↔ (self.now.room ≤ length self.now.entries) }
    {
        let runs = self.earlier.len() + usize::from(has_run(self.has_counts, self.packed));
        self.room <= runs
    }

    /// Tests whether nothing is logged.
    pub fn is_empty(&self) -> bool
        ensures empty { IsTrue result ↔ (self.now.entries ≡ []) }
        ensures nothing_sent { self.now.entries ≡ [] → self.now.sent ≡ false }
    {
        !has_run(self.has_counts, self.packed)
    }

    /// Lends the runs before the last one, in their order.
    pub fn earlier(&self) -> &[Run]
        ensures { result.now ≡ earlier_runs self.now.entries }
    {
        self.earlier.as_slice()
    }

    /// Returns the last run. `None` if nothing is logged.
    #[inline]
    pub fn last(&self) -> Option<Run>
        ensures { result ≡ last_run self.now.entries }
    {
        if has_run(self.has_counts, self.packed) {
            Some(whole(&self.last, self.packed))
        } else {
            None
        }
    }

    // Lends the key of the last run, if there is one.
    #[inline(always)]
    pub(crate) fn last_key(&self) -> &CountKey
        ensures { (last : Run) → last_run self.now.entries ≡ Some last → result.now ≡ last.key }
    {
        &self.last.key
    }

    // Adds the counts of the last run, if there is one, to others. It does not make the run, as most runs have only packets that are packed.
    #[inline(always)]
    pub(crate) fn add_last_to(&self, sum: &mut Counts)
        ensures { (last : Run) → last_run self.now.entries ≡ Some last → sum.new ≡ plus sum.old last.counts }
    {
        if self.has_counts {
            sum.add(&self.last.counts);
            sum.add(&unpacked(self.packed));
            return;
        }
        sum.add(&unpacked(self.packed));
    }

    // Begins a run.
    #[inline(always)]
    fn begin(&mut self, run: Run, sent: bool)
        requires room { length self.old.entries < self.old.room }
        requires bounded { plus no_counts run.counts ≡ run.counts }
        ensures { self.new ≡ record self.old { entries = self.old.entries ++ run ∷ []; sent = sent; kept = run.key } }
    {
        if has_run(self.has_counts, self.packed) {
            keep(&mut self.earlier, &whole(&self.last, self.packed));
        }
        self.last = run;
        self.has_counts = true;
        self.packed = NOTHING;
        self.member = number_of(run.key.member);
        self.group = group_number(&run.key.group);
        self.ended = ended_after(sent);
    }

    // Adds counts to the last run, if it has the key; or to the empty run of an empty log that keeps the key. Returns whether it did.
    #[inline(never)]
    fn add_again(&mut self, key: &CountKey, counts: Counts, sent: bool) -> bool
        requires { plus no_counts counts ≡ counts }
        ensures again { (0 < self.old.room) ⊎ IsSome key.now.member → result ≡ has_key key.now self.old }
        ensures counted { IsTrue result → self.new ≡ with_counts key.now counts sent self.old }
        ensures unchanged { result ≡ false → self.new ≡ self.old }
    {
        if self.room == 0 {
            return false;
        }
        if self.last.key != *key {
            return false;
        }
        self.last.counts = whole(&self.last, self.packed).counts.plus(counts);
        self.has_counts = true;
        self.packed = NOTHING;
        self.ended = ended_after(sent);
        true
    }

    // Adds counts to the last run, if it has the key; otherwise begins a run.
    #[inline(always)]
    fn add(&mut self, key: CountKey, counts: Counts, sent: bool)
        requires room { length self.old.entries < self.old.room }
        requires bounded { plus no_counts counts ≡ counts }
        ensures { self.new ≡ with_counts key counts sent self.old }
    {
        if self.add_again(&key, counts, sent) {
            return;
        }
        self.begin(Run { key, counts }, sent);
    }

    /// Counts a packet that is delivered to the member of the last run, or, if the log is empty, to that of the last run before it was
    /// cleared. Returns whether it did. It needs no room; if it returns false, call `judged_again`, or make room and call `judged`.
    #[inline(always)]
    pub fn delivered_again(&mut self, verdict: &Verdict) -> bool
        ensures again { result ≡ delivers_again verdict.now self.old }
        ensures counted { IsTrue result → self.new ≡ with_verdict verdict.now self.old }
        ensures unchanged { result ≡ false → self.new ≡ self.old }
    {
        let Verdict::Deliver {
            group,
            member,
            to: _,
            bytes,
        } = *verdict
        else {
            return false;
        };
        if !has_numbers(self.member, self.group, &group, member) {
            return false;
        }
        let one = packed_one(bytes);
        let sum = self.packed.wrapping_add(one);
        let is_over = sum < self.packed;
        self.packed = sum;
        if is_over {
            take_back(&mut self.packed, one);
            let key = self.last.key;
            return self.add_again(&key, one_delivered(bytes), true);
        }
        true
    }

    /// Counts a verdict if it needs no room: it names no member, or the member of the last run, or, if the log is empty, that of the last
    /// run before it was cleared. Returns whether it is counted. If it returns false, make room and call `judged`.
    pub fn judged_again(&mut self, verdict: &Verdict) -> bool
        ensures needs_no_room { result ≡ begins_no_run verdict.now self.old }
        ensures counted { IsTrue result → self.new ≡ with_verdict verdict.now self.old }
        ensures unchanged { result ≡ false → self.new ≡ self.old }
    {
        match *verdict {
            Verdict::Malformed | Verdict::NoGroup | Verdict::NoMembers => true,
            Verdict::Dropped { group, member } => {
                let key = CountKey {
                    group,
                    member: Some(member),
                };
                self.add_again(&key, one_dropped(), false)
            }
            Verdict::Deliver { .. } => self.delivered_again(verdict),
        }
    }

    /// Counts a verdict if it names a member.
    pub fn judged(&mut self, verdict: &Verdict)
        requires { length self.old.entries < self.old.room }
        ensures { self.new ≡ with_verdict verdict.now self.old }
    {
        match *verdict {
            Verdict::Malformed | Verdict::NoGroup | Verdict::NoMembers => {}
            Verdict::Dropped { group, member } => {
                let key = CountKey {
                    group,
                    member: Some(member),
                };
                self.add(key, one_dropped(), false);
            }
            Verdict::Deliver {
                group,
                member,
                to: _,
                bytes,
            } => {
                let key = CountKey {
                    group,
                    member: Some(member),
                };
                self.add(key, one_delivered(bytes), true);
            }
        }
    }

    /// Counts a packet for a group that had no member.
    pub fn no_members(&mut self, group: Endpoint)
        requires { length self.old.entries < self.old.room }
        ensures { self.new ≡ with_no_members group self.old }
    {
        let key = CountKey {
            group,
            member: None,
        };
        let counts = Counts {
            no_members: 1,
            ..Counts::none()
        };
        self.add(key, counts, false);
    }

    /// Counts that the send of the last packet that was counted failed, once, if that packet was delivered. An empty log stays as it is.
    pub fn send_failed(&mut self)
        ensures { self.new ≡ marked_failed self.old }
    {
        if self.ended == self.packed {
            return;
        }
        let counts = Counts {
            send_failed: 1,
            ..Counts::none()
        };
        self.last.counts = whole(&self.last, self.packed).counts.plus(counts);
        self.has_counts = true;
        self.packed = NOTHING;
        self.ended = ended_after(false);
    }

    /// Removes all runs.
    #[inline]
    pub fn clear(&mut self)
        ensures { self.new ≡ cleared self.old }
    {
        self.earlier.clear();
        forget(&mut self.last, &mut self.has_counts);
        self.packed = NOTHING;
        self.ended = NOTHING;
    }
}
