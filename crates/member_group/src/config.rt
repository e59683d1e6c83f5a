//! Configurations: groups in rising order of key.

ghost use Rattle.std.specs.Prelude.{◌≡◌, ◌+◌, ◌<◌, ◌≤◌, ◌++◌, Err, IfErr, IfNone, IfOk, IfSome, IsOkUnless, None, OnErr, OnOk, Some, [], length, slice_index_or, slice_set};
ghost use Rattle.member_group.specs.Charge.{charge_of, members_of};
ghost use Rattle.member_group.specs.Command.{after, with_group, without_group};
ghost use Rattle.member_group.specs.Group.{IsConfig, IsGroup, group_of, has_key};
ghost use Rattle.member_group.specs.Map.{ChangesTheMapAtItsKey, IsOneListAMap, KeepsTheMapElsewhere};
ghost use Rattle.member_group.specs.Place.{IsGapFor, IsOnlyAt};
ghost use Rattle.member_group.specs.Refusal.{IsAnswer, first_refusal};
ghost use Rattle.member_group.specs.body.InPlace.{IsOnGroup};
ghost use Rattle.member_group.specs.declared.TheConstants.{GROUP_LIMIT};
ghost use Rattle.member_group.specs.declared.command.Command.TheVariants as command;
ghost use Rattle.member_group.specs.declared.refusal.Refusal.TheVariants as refusal_of;

mod in_place;

use crate::command::Command;
use crate::group::Group;
use crate::place::place_of_key;
use crate::refusal::Refusal;
use crate::{GROUP_LIMIT, HEAD_WORDS};
use bpf_verify::{OutOfMemory, Program};
use ipv4_fields::Endpoint;
use std::alloc::{Allocator, Global};
use std::marker::Model;

/// A configuration of the switch: a map from keys to groups, in the memory of one allocator.
#[derive(Drop)]
pub struct Config<A: Allocator = Global> {
    groups: Vec<Group<A>, A>,
}

impl<A: Allocator> Model for Config<A> {
    ghost use Rattle.std.specs.Prelude.{List};
    ghost use Rattle.bpf_verify.specs.Program.{ProgramValue};
    ghost use Rattle.member_group.specs.Group.{GroupOf, IsConfig};

    ghost Value = { List (GroupOf ProgramValue) };

    ghost view = { λ c. c.groups.items };

    ghost invariant = { λ c. IsConfig c.groups.items };
}

impl<A: Allocator> Config<A> {
    /// Makes the configuration without groups. Takes no memory: `apply` takes it from `alloc` later.
    pub fn new(alloc: A) -> Config<A>
        ensures empty { result ≡ [] }
    {
        Config {
            groups: Vec::new(alloc),
        }
    }

    /// Lends the groups, in rising order of `address * 65536 + port`.
    pub fn groups(&self) -> &[Group<A>]
        ensures groups { result.now ≡ self.now }
        ensures config { IsConfig self.now }
    {
        self.groups.as_slice()
    }

    /// Returns the number of members of all groups.
    pub fn members(&self) -> usize
        ensures members { result ≡ members_of self.now }
    {
        let mut members = 0;
        for group in self.groups() {
            members += group.members().len();
        }
        members
    }

    /// Returns the charge: 2, plus 4 for each group, plus 4 for each member, plus the charges of the programs.
    pub fn charge(&self) -> u64
        ensures charge_exact { result ≡ charge_of self.now }
        ensures config { IsConfig self.now }
    {
        let mut charge = HEAD_WORDS as u64;
        for group in self.groups() {
            charge += group.charge();
        }
        charge
    }

    /// Lends the allocator.
    pub fn allocator(&self) -> &A {
        self.groups.allocator()
    }
}

fn append_groups<A: Allocator + Clone>(
    to: &mut Vec<Group<A>, A>,
    from: &[Group<A>],
) -> Result<(), OutOfMemory>
    ensures appended { OnOk result (to.new.items ≡ to.old.items ++ from.now) }
{
    for group in from {
        to.push(group.copy()?)?;
    }
    Ok(())
}

// The results of the commands: another configuration, which shares the groups that it keeps.
impl<A: Allocator + Clone> Config<A> {
    fn room_for_groups(&self, count: usize) -> Result<Vec<Group<A>, A>, OutOfMemory>
        ensures empty { IfOk result (λ groups. groups.items ≡ []) }
    {
        Vec::with_capacity(self.groups.allocator().clone()?, count)
    }

    fn place_of_group(&self, key: Endpoint) -> Result<usize, Refusal>
        ensures found { IfOk result (IsOnlyAt (has_key key) self.now) }
        ensures absent { IfErr result (λ refusal. (refusal ≡ refusal_of.NoGroup) × (group_of key self.now ≡ None)) }
        ensures config { IsConfig self.now }
    {
        match place_of_key(self.groups(), key) {
            Ok(at) => Ok(at),
            Err(_gap) => Err(Refusal::NoGroup),
        }
    }

    // A copy, with room for this many groups more.
    fn copy_with_room(&self, more: usize) -> Result<Config<A>, OutOfMemory>
        requires few { more ≤ 1 }
        ensures copied { IfOk result (λ copy. copy ≡ self.now) }
    {
        let old = self.groups();
        let mut groups = self.room_for_groups(old.len() + more)?;
        append_groups(&mut groups, old)?;
        Ok(Config { groups })
    }

    // This configuration with another group, of the same key, at a place.
    fn with_group_at(&self, at: usize, group: Group<A>) -> Result<Config<A>, OutOfMemory>
        requires inside { at < length self.now }
        requires same_key { (slice_index_or self.now at group).key ≡ group.key }
        requires group { IsGroup group }
        ensures changed { IfOk result (λ config. config ≡ slice_set self.now at group) }
    {
        let mut next = self.copy_with_room(0)?;
        next.groups[at] = group;
        Ok(next)
    }

    // This configuration without the group at a place, which is the key's.
    fn without_group(&self, at: usize, key: Endpoint) -> Result<Config<A>, OutOfMemory>
        requires only { IsOnlyAt (has_key key) self.now at }
        ensures changed { IfOk result (λ config. config ≡ without_group key self.now) }
    {
        let old = self.groups();
        let mut groups = self.room_for_groups(old.len() - 1)?;
        append_groups(&mut groups, &old[..at])?;
        append_groups(&mut groups, &old[at + 1..])?;
        Ok(Config { groups })
    }

    // The place of the gap for the key of a group that may be added.
    fn gap_for(&self, key: Endpoint) -> Result<usize, Refusal>
        ensures gap { IfOk result (IsGapFor key self.now) }
        ensures added { IfOk result (λ _. (length self.now < GROUP_LIMIT) × (first_refusal (command.AddGroup key) self.now ≡ None)) }
        ensures refused { IfErr result (λ refusal. first_refusal (command.AddGroup key) self.now ≡ Some refusal) }
    {
        let at = match place_of_key(self.groups(), key) {
            Ok(_taken) => return Err(Refusal::GroupExists),
            Err(gap) => gap,
        };
        if self.groups().len() >= GROUP_LIMIT {
            return Err(Refusal::TooManyGroups);
        }
        Ok(at)
    }

    // Adds a group without members in the gap for its key.
    fn insert_group(&mut self, at: usize, key: Endpoint) -> Result<(), OutOfMemory>
        requires room { length self.old < GROUP_LIMIT }
        requires gap { IsGapFor key self.old at }
        ensures changed { OnOk result (self.new ≡ with_group key self.old) }
        ensures kept { OnErr result (self.new ≡ self.old) }
    {
        let group = Group::new(key, self.allocator().clone()?)?;
        self.groups.insert(at, group)?;
        Ok(())
    }

    fn add_group(&self, key: Endpoint) -> Result<Config<A>, Refusal>
        ensures answer { IsAnswer (first_refusal (command.AddGroup key) self.now) (after (command.AddGroup key) self.now) result }
    {
        let at = self.gap_for(key)?;
        let mut next = self.copy_with_room(1)?;
        next.insert_group(at, key)?;
        Ok(next)
    }

    fn remove_group(&self, key: Endpoint) -> Result<Config<A>, Refusal>
        ensures answer { IsAnswer (first_refusal (command.RemoveGroup key) self.now) (after (command.RemoveGroup key) self.now) result }
    {
        let at = self.place_of_group(key)?;
        Ok(self.without_group(at, key)?)
    }

    // The configuration after a command on the group of a key.
    fn apply_to_group<B: Allocator>(
        &self,
        key: Endpoint,
        command: &Command<Program<B>>,
    ) -> Result<Config<A>, Refusal>
        requires { IsOnGroup key command.now }
        ensures answer { IsAnswer (first_refusal command.now self.now) (after command.now self.now) result }
    {
        let at = self.place_of_group(key)?;
        let group = self.groups()[at].changed(command)?;
        Ok(self.with_group_at(at, group)?)
    }

    /// Returns the configuration after a command. This one does not change, even if the command is refused.
    ///
    /// `Err` is the first refusal of the command in the order of docs/SWITCH.md; otherwise `OutOfMemory` if an
    /// allocation is refused. The changed group has copies of the programs that it keeps; the other groups are shared.
    pub fn apply<B: Allocator>(&self, command: &Command<Program<B>>) -> Result<Config<A>, Refusal>
        ensures applies { IfOk result (λ config. config ≡ after command.now self.now) }
        ensures refuses_first { IfSome (first_refusal command.now self.now) (λ refusal. result ≡ Err refusal) }
        ensures only_memory { IfNone (first_refusal command.now self.now) (IsOkUnless result refusal_of.OutOfMemory) }
    {
        match command {
            Command::AddGroup { key } => self.add_group(*key),
            Command::RemoveGroup { key } => self.remove_group(*key),
            Command::Join { key, .. }
            | Command::Leave { key, .. }
            | Command::SetSelector { key, .. }
            | Command::ClearSelector { key }
            | Command::SetFilter { key, .. }
            | Command::ClearFilter { key, .. }
            | Command::LockFilter { key, .. } => self.apply_to_group(*key, command),
        }
    }
}

/// Law: the groups of a configuration are a finite map from keys to groups, and each command changes the map only at
/// its own key.
#[tactic(auto, using(crate::proofs::MapLemmas::changes_at_its_key, crate::proofs::MapLemmas::keeps_elsewhere, crate::proofs::MapLemmas::one_list_a_map))]
pub fn configurations_are_maps()
    ensures changed_at_key { ChangesTheMapAtItsKey }
    ensures kept_elsewhere { KeepsTheMapElsewhere }
    ensures one_list_a_map { IsOneListAMap }
{}
