//! The counts of all workers, by key (docs/SWITCH.md, "Counters by member").

ghost use Rattle.std.specs.Prelude.{◌≡◌, ◌≤◌, IsSome, IsTrue, None, Some, [], length};
ghost use Rattle.std.specs.List.{IsDistinct, filter};
ghost use Rattle.std.specs.Map.{keys_of};
ghost use Rattle.member_counts.specs.Counts.{no_counts};
ghost use Rattle.member_counts.specs.Key.{has, same_key};
ghost use Rattle.member_counts.specs.Log.{is_for, last_run};
ghost use Rattle.member_counts.specs.Table.{Conserves, CountsLog, group_counts, kept_after, kept_at, member_counts, settled, without_lacking};
ghost use Rattle.member_counts.specs.body.Step.{AddsAt, GrowsEach};
ghost use Rattle.member_counts.specs.declared.log.Run.{Run};

use crate::counts::{Counts, GroupCounts, MemberCounts};
use crate::key::{CountKey, has};
use crate::log::{Run, VerdictLog};
use crate::{KEPT_LIMIT, ROOM_LIMIT};
use ipv4_fields::Endpoint;
use member_group::{Config, Group};
use std::alloc::Global;
use std::collections::BTreeMap;
use std::marker::Model;

/// The counts of each kept key, and the sum of the counts that are gone.
#[derive(Drop)]
pub struct MemberTable {
    entries: BTreeMap<CountKey, Counts>,
    gone: Counts,
}

impl Model for MemberTable {
    ghost use Rattle.std.specs.Prelude.{◌≤◌, length};
    ghost use Rattle.member_counts.specs.declared.TheConstants.{ROOM_LIMIT};
    ghost use Rattle.member_counts.specs.Table.{Table};

    ghost Value = { Table };

    ghost view = { λ table. record { entries = table.entries.entries; gone = table.gone } };

    ghost invariant = { λ table. length table.entries.entries ≤ ROOM_LIMIT };
}

impl MemberTable {
    /// Makes a table in which nothing is counted. Takes no memory: `count` takes it from `alloc` later.
    pub fn new(alloc: Global) -> MemberTable
        ensures { result ≡ record { entries = []; gone = no_counts } }
    {
        MemberTable {
            entries: BTreeMap::new(alloc),
            gone: Counts::none(),
        }
    }

    /// Returns the number of keys that are kept. No key is kept twice.
    pub fn len(&self) -> usize
        ensures len { result ≡ length self.now.entries }
        ensures room { result ≤ ROOM_LIMIT }
        ensures once { IsDistinct same_key (keys_of self.now.entries) }
    {
        self.entries.len()
    }

    // Adds the counts of a run at its key, or to what is gone if the key is not kept and there is no room for it.
    fn add(&mut self, run: &Run)
        ensures adds { AddsAt run.now.key run.now.counts self.old self.new }
        ensures conserved { GrowsEach self.old run.now.counts self.new }
    {
        if let Some(sum) = self.entries.get_mut(&run.key) {
            sum.add(&run.counts);
            return;
        }
        self.add_new(run);
    }

    // The same for the last run of a log, which is made only if its key is not kept.
    #[inline(always)]
    fn add_last(&mut self, log: &VerdictLog, run: &Run)
        requires { last_run log.now.entries ≡ Some run.now }
        ensures adds { AddsAt run.now.key run.now.counts self.old self.new }
        ensures conserved { GrowsEach self.old run.now.counts self.new }
    {
        if let Some(sum) = self.entries.get_mut(log.last_key()) {
            log.add_last_to(sum);
            return;
        }
        self.add_new_last(log);
    }

    #[cold]
    #[inline(never)]
    fn add_new_last(&mut self, log: &VerdictLog)
        requires { (run : Run) → last_run log.now.entries ≡ Some run → kept_at run.key self.old ≡ None }
        ensures adds { (run : Run) → last_run log.now.entries ≡ Some run → AddsAt run.key run.counts self.old self.new }
        ensures conserved { (run : Run) → last_run log.now.entries ≡ Some run → GrowsEach self.old run.counts self.new }
    {
        if let Some(last) = log.last() {
            self.add_new(&last);
        }
    }

    // Adds the counts of a run whose key is not kept. It is not inlined, as most keys are.
    #[cold]
    #[inline(never)]
    fn add_new(&mut self, run: &Run)
        requires { kept_at run.now.key self.old ≡ None }
        ensures adds { AddsAt run.now.key run.now.counts self.old self.new }
        ensures conserved { GrowsEach self.old run.now.counts self.new }
    {
        if self.entries.len() < ROOM_LIMIT && self.entries.insert(run.key, run.counts).is_ok() {
            return;
        }
        self.gone = self.gone.plus(run.counts);
    }

    /// Adds each run of a log at its key.
    ///
    /// A key that is not kept needs room: fewer than `ROOM_LIMIT` keys, and memory. Without room its run is added to what is gone.
    pub fn count(&mut self, log: &VerdictLog)
        ensures counts { CountsLog self.old log.now.entries self.new }
        ensures kept_exact { (key : CountKey) → IsSome (kept_at key self.old)
            → kept_at key self.new ≡ kept_after (kept_at key self.old) (filter (is_for key) log.now.entries) }
        ensures conserved { Conserves self.old log.now.entries self.new }
    {
        for entry in log.earlier() {
            self.add(entry);
        }
        if let Some(last) = log.last() {
            self.add_last(log, &last);
        }
    }

    // Removes the keys that the groups lack, and adds their counts to what is gone.
    fn remove_lacking(&mut self, groups: &[Group<Global>])
        ensures removed { self.new ≡ without_lacking groups.now self.old }
        ensures once { IsDistinct same_key (keys_of self.new.entries) }
    {
        let mut gone = self.gone;
        for (key, counts) in self.entries.iter() {
            if !has(groups, key) {
                gone = gone.plus(*counts);
            }
        }
        self.entries.retain(|key, _counts| has(groups, key));
        self.gone = gone;
    }

    /// If more than `KEPT_LIMIT` keys are kept, removes those that the configuration lacks, and adds their counts to what is gone.
    /// Otherwise changes nothing.
    pub fn settle(&mut self, config: &Config<Global>)
        ensures settled { self.new ≡ settled config.now self.old }
        ensures current_kept { (key : CountKey) → IsTrue (has config.now key) → kept_at key self.new ≡ kept_at key self.old }
        ensures conserved { Conserves self.old [] self.new }
        ensures limited { length self.new.entries ≤ KEPT_LIMIT }
    {
        if self.entries.len() <= KEPT_LIMIT {
            return;
        }
        self.remove_lacking(config.groups());
    }

    /// Returns the counts of a member, zeros if its key is not kept.
    pub fn member(&self, group: Endpoint, member: u32) -> MemberCounts
        ensures { result ≡ member_counts group member self.now }
    {
        let key = CountKey {
            group,
            member: Some(member),
        };
        match self.entries.get(&key) {
            Some(counts) => counts.member_part(),
            None => Counts::none().member_part(),
        }
    }

    /// Returns the counts of a group: the sum over its kept keys, also those of members that left.
    pub fn group(&self, group: Endpoint) -> GroupCounts
        ensures { result ≡ group_counts group self.now }
    {
        let mut sum = Counts::none();
        for (key, counts) in self.entries.iter() {
            if key.group == group {
                sum = sum.plus(*counts);
            }
        }
        sum.group_part()
    }

    /// Returns the sum of the counts that are gone.
    pub fn gone(&self) -> Counts
        ensures { result ≡ self.now.gone }
    {
        self.gone
    }
}
