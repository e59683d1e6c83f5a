//! Changes of a configuration in place, for many commands one after the other.

ghost use Rattle.std.specs.Prelude.{◌≡◌, IfNone, IfOk, IfSome, IsOkUnless, OnErr, OnOk, Err};
ghost use Rattle.member_group.specs.Command.{after};
ghost use Rattle.member_group.specs.Refusal.{IsAnswer, first_refusal};
ghost use Rattle.member_group.specs.body.InPlace.{IsOnGroup};
ghost use Rattle.member_group.specs.declared.command.Command.TheVariants as command;
ghost use Rattle.member_group.specs.declared.refusal.Refusal.TheVariants as refusal_of;

use super::Config;
use crate::command::Command;
use crate::refusal::Refusal;
use bpf_verify::{OutOfMemory, Program};
use ipv4_fields::Endpoint;
use std::alloc::Allocator;

impl<A: Allocator + Clone> Config<A> {
    /// Makes a copy, which `change` may change. The two share their groups, with their programs.
    pub fn copy(&self) -> Result<Config<A>, OutOfMemory>
        ensures copied { IfOk result (λ copy. copy ≡ self.now) }
    {
        self.copy_with_room(0)
    }

    fn add_in_place(&mut self, key: Endpoint) -> Result<(), Refusal>
        ensures answer { IsAnswer (first_refusal (command.AddGroup key) self.old) tt result }
        ensures changed { OnOk result (self.new ≡ after (command.AddGroup key) self.old) }
        ensures kept { OnErr result (self.new ≡ self.old) }
    {
        let at = self.gap_for(key)?;
        self.insert_group(at, key)?;
        Ok(())
    }

    fn remove_in_place(&mut self, key: Endpoint) -> Result<(), Refusal>
        ensures answer { IsAnswer (first_refusal (command.RemoveGroup key) self.old) tt result }
        ensures changed { OnOk result (self.new ≡ after (command.RemoveGroup key) self.old) }
        ensures kept { OnErr result (self.new ≡ self.old) }
    {
        let at = self.place_of_group(key)?;
        let _gone = self.groups.remove(at);
        Ok(())
    }

    // Changes the group of a key.
    fn change_group<B: Allocator>(
        &mut self,
        key: Endpoint,
        command: &Command<Program<B>>,
    ) -> Result<(), Refusal>
        requires { IsOnGroup key command.now }
        ensures answer { IsAnswer (first_refusal command.now self.old) tt result }
        ensures changed { OnOk result (self.new ≡ after command.now self.old) }
        ensures kept { OnErr result (self.new ≡ self.old) }
    {
        let at = self.place_of_group(key)?;
        let group = &mut self.groups[at];
        group.change(command)
    }

    /// Changes this configuration as a command says. A refused command leaves it unchanged.
    ///
    /// `Err` is that of `apply`. A group that no other configuration has gains or loses a member in place. A shared group is replaced by a
    /// new one, so other configurations do not change.
    /// Why there is `change` beside `apply`: docs/INTERNALS.md, "Configurations share groups".
    pub fn change<B: Allocator>(&mut self, command: &Command<Program<B>>) -> Result<(), Refusal>
        ensures applies { OnOk result (self.new ≡ after command.now self.old) }
        ensures refuses_first { IfSome (first_refusal command.now self.old) (λ refusal. result ≡ Err refusal) }
        ensures only_memory { IfNone (first_refusal command.now self.old) (IsOkUnless result refusal_of.OutOfMemory) }
        ensures kept { OnErr result (self.new ≡ self.old) }
    {
        match command {
            Command::AddGroup { key } => self.add_in_place(*key),
            Command::RemoveGroup { key } => self.remove_in_place(*key),
            Command::Join { key, .. }
            | Command::Leave { key, .. }
            | Command::SetSelector { key, .. }
            | Command::ClearSelector { key }
            | Command::SetFilter { key, .. }
            | Command::ClearFilter { key, .. }
            | Command::LockFilter { key, .. } => self.change_group(*key, command),
        }
    }
}
