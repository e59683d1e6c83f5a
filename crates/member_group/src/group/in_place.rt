//! Changes of a group in place. A group that configurations share is not written to; a new group replaces it.

ghost use Rattle.std.specs.Prelude.{◌≡◌, ◌<◌, IfErr, IfOk, OnErr, OnOk, Ok, Err, None, length};
ghost use Rattle.member_group.specs.declared.TheConstants.{MEMBER_LIMIT};
ghost use Rattle.member_group.specs.Command.{joined, left};
ghost use Rattle.member_group.specs.Group.{IsGroup};
ghost use Rattle.member_group.specs.Place.{last_in_gap};
ghost use Rattle.member_group.specs.Refusal.{IsAnswer, first_of, join_causes, member_causes};
ghost use Rattle.member_group.specs.body.InPlace.{causes_of, changed_by};

use super::{Group, Parts};
use crate::command::Command;
use crate::counted::{charge_of_program, words_of_program};
use crate::member::Member;
use crate::place::place_of_member;
use crate::refusal::Refusal;
use crate::{MEMBER_LIMIT, MEMBER_WORDS};
use bpf_verify::{OutOfMemory, Program};
use ipv4_fields::Endpoint;
use std::alloc::Allocator;
use std::sync::Arc;

impl<A: Allocator> Parts<A> {
    fn add_member(&mut self, id: u32, to: Endpoint) -> Result<(), OutOfMemory>
        requires group { IsGroup self.old }
        requires room { length self.old.members < MEMBER_LIMIT }
        ensures changed { OnOk result (self.new ≡ joined id to self.old) }
        ensures kept { OnErr result (self.new ≡ self.old) }
    {
        self.members.push(Member {
            id,
            to,
            filter: None,
            locked: false,
        })?;
        self.charge += MEMBER_WORDS as u64;
        Ok(())
    }

    // The last member takes the place of the one that leaves.
    fn remove_member(&mut self, at: usize)
        requires inside { at < length self.old.members }
        ensures changed { self.new ≡ record { key = self.old.key; selector = self.old.selector; members = last_in_gap at self.old.members } }
    {
        let gone = self.members.swap_remove(at);
        self.charge -= MEMBER_WORDS as u64 + charge_of_program(&gone.filter);
        self.words -= words_of_program(&gone.filter);
    }
}

impl<A: Allocator + Clone> Group<A> {
    fn add_member(&mut self, id: u32, to: Endpoint) -> Result<(), OutOfMemory>
        requires group { IsGroup self.old }
        requires room { length self.old.members < MEMBER_LIMIT }
        ensures changed { OnOk result (self.new ≡ joined id to self.old) }
        ensures kept { OnErr result (self.new ≡ self.old) }
    {
        if let Some(parts) = Arc::get_mut(&mut self.parts) {
            return parts.add_member(id, to);
        }
        *self = self.with_member(id, to)?;
        Ok(())
    }

    fn remove_member(&mut self, at: usize) -> Result<(), OutOfMemory>
        requires group { IsGroup self.old }
        requires inside { at < length self.old.members }
        ensures changed { OnOk result (self.new ≡ record { key = self.old.key; selector = self.old.selector; members = last_in_gap at self.old.members }) }
        ensures kept { OnErr result (self.new ≡ self.old) }
    {
        if let Some(parts) = Arc::get_mut(&mut self.parts) {
            parts.remove_member(at);
            return Ok(());
        }
        *self = self.without_member(at)?;
        Ok(())
    }

    fn join_in_place(&mut self, id: u32, to: Endpoint) -> Result<(), Refusal>
        requires group { IsGroup self.old }
        ensures answer { IsAnswer (first_of (join_causes id self.old)) tt result }
        ensures changed { OnOk result (self.new ≡ joined id to self.old) }
        ensures kept { OnErr result (self.new ≡ self.old) }
        ensures group { IsGroup self.new }
    {
        if let Some(_taken) = place_of_member(self.members(), id) {
            return Err(Refusal::MemberExists);
        }
        if self.members().len() >= MEMBER_LIMIT {
            return Err(Refusal::GroupFull);
        }
        Ok(self.add_member(id, to)?)
    }

    fn leave_in_place(&mut self, id: u32) -> Result<(), Refusal>
        requires group { IsGroup self.old }
        ensures answer { IsAnswer (first_of (member_causes id self.old)) tt result }
        ensures changed { OnOk result (self.new ≡ left id self.old) }
        ensures kept { OnErr result (self.new ≡ self.old) }
        ensures group { IsGroup self.new }
    {
        let Some(at) = place_of_member(self.members(), id) else {
            return Err(Refusal::NoMember);
        };
        Ok(self.remove_member(at)?)
    }

    // This group becomes another one, if that could be made.
    fn become_next(&mut self, next: Result<Group<A>, Refusal>) -> Result<(), Refusal>
        requires group { IsGroup self.old }
        requires next { IfOk next IsGroup }
        ensures done { IfOk next (λ group. (result ≡ Ok tt) × (self.new ≡ group)) }
        ensures refused { IfErr next (λ refusal. (result ≡ Err refusal) × (self.new ≡ self.old)) }
        ensures group { IsGroup self.new }
    {
        *self = next?;
        Ok(())
    }

    /// Changes the group as a command on it says. A refused command leaves it unchanged.
    pub(crate) fn change<B: Allocator>(
        &mut self,
        command: &Command<Program<B>>,
    ) -> Result<(), Refusal>
        requires group { IsGroup self.old }
        ensures answer { IsAnswer (first_of (causes_of command.now self.old)) tt result }
        ensures changed { OnOk result (self.new ≡ changed_by command.now self.old) }
        ensures kept { OnErr result (self.new ≡ self.old) }
        ensures group { IsGroup self.new }
    {
        match command {
            Command::Join { member, to, .. } => self.join_in_place(*member, *to),
            Command::Leave { member, .. } => self.leave_in_place(*member),
            _ => {
                let next = self.changed(command);
                self.become_next(next)
            },
        }
    }
}
