//! Groups, and the changes that commands make in one of them.

ghost use Rattle.std.specs.Prelude.{◌≡◌, ◌+◌, ◌*◌, ◌<◌, ◌≤◌, ◌^◌, IfOk, None, Some, [], length, slice_set, ℕ};
ghost use Rattle.std.specs.List.{sum_by};
ghost use Rattle.std.specs.Option.{option_map};
ghost use Rattle.bpf_verify.specs.declared.TheConstants.{MAX_INSTRUCTIONS};
ghost use Rattle.member_group.specs.Charge.{charge_of_group, programs_of_group};
ghost use Rattle.member_group.specs.declared.TheConstants.{MEMBER_LIMIT};
ghost use Rattle.member_group.specs.Command.{joined, left, locked, with_filter, with_selector};
ghost use Rattle.member_group.specs.Group.{IsGroup, has_id};
ghost use Rattle.member_group.specs.Place.{IsOnlyAt, last_in_gap};
ghost use Rattle.member_group.specs.Refusal.{IsAnswer, clear_filter_causes, clear_selector_causes, first_of, join_causes, member_causes, set_filter_causes};
ghost use Rattle.member_group.specs.body.InPlace.{causes_of, changed_by};

mod in_place;

use crate::MEMBER_LIMIT;
use crate::command::Command;
use crate::counted::{charge_of_parts, words_of_parts};
use crate::member::{
    Member, append_members, append_with_last_in_gap, append_with_member_at, copy_member,
    copy_program,
};
use crate::place::place_of_member;
use crate::refusal::Refusal;
use bpf_verify::{OutOfMemory, Program};
use ipv4_fields::Endpoint;
use std::alloc::Allocator;
use std::marker::Model;
use std::sync::Arc;

// The parts of a group, its charge, and the number of words of its programs. The two numbers are kept because a
// publication asks each group for them.
#[derive(Drop)]
struct Parts<A: Allocator> {
    key: Endpoint,
    selector: Option<Program<A>>,
    members: Vec<Member<Program<A>>, A>,
    charge: u64,
    words: usize,
}

impl<A: Allocator> Model for Parts<A> {
    ghost use Rattle.bpf_verify.specs.Program.{ProgramValue};
    ghost use Rattle.member_group.specs.Group.{GroupOf};
    ghost use Rattle.member_group.specs.body.Counted.{IsCounted};

    ghost Value = { GroupOf ProgramValue };

    ghost view = { λ g. record { key = g.key; selector = g.selector; members = g.members.items } };

    ghost invariant = { λ g. IsCounted (record { key = g.key; selector = g.selector; members = g.members.items }) g.charge g.words };
}

impl<A: Allocator> Parts<A> {
    fn charge(&self) -> u64
        ensures charge { result ≡ charge_of_group self.now }
        ensures bounded { result < 2 ^ 32 }
    {
        self.charge
    }

    fn words(&self) -> usize
        ensures words { result ≡ sum_by (λ program. length program.words) (programs_of_group self.now) }
        ensures limited { result ≤ (1 + MEMBER_LIMIT) * MAX_INSTRUCTIONS }
    {
        self.words
    }
}

/// A group: its key, its selector if it has one, and its members in the order of their indexes.
///
/// Configurations share the groups that they have in common, with their programs. A group that is shared never changes.
#[derive(Drop)]
pub struct Group<A: Allocator> {
    parts: Arc<Parts<A>, A>,
}

impl<A: Allocator> Model for Group<A> {
    ghost use Rattle.bpf_verify.specs.Program.{ProgramValue};
    ghost use Rattle.member_group.specs.Group.{GroupOf};
    ghost use Rattle.std.specs.Arc.{arc_value};

    ghost Value = { GroupOf ProgramValue };

    ghost view = { λ g. arc_value g.parts };
}

impl<A: Allocator> Group<A> {
    /// Returns the key.
    pub fn key(&self) -> Endpoint
        ensures key { result ≡ self.now.key }
    {
        self.parts.key
    }

    /// Lends the selector.
    pub fn selector(&self) -> Option<&Program<A>>
        ensures selector { option_map (λ program. program.now) result ≡ self.now.selector }
    {
        self.parts.selector.as_ref()
    }

    /// Lends the members, in the order of their indexes.
    pub fn members(&self) -> &[Member<Program<A>>]
        ensures members { result.now ≡ self.now.members }
    {
        self.parts.members.as_slice()
    }

    /// Returns the number of words of all its programs. The number is kept with the group, not counted again.
    pub fn program_words(&self) -> usize
        ensures words { result ≡ sum_by (λ program. length program.words) (programs_of_group self.now) }
        ensures limited { result ≤ (1 + MEMBER_LIMIT) * MAX_INSTRUCTIONS }
    {
        self.parts.words()
    }

    pub(crate) fn charge(&self) -> u64
        ensures charge { result ≡ charge_of_group self.now }
        ensures bounded { result < 2 ^ 32 }
    {
        self.parts.charge()
    }
}

// The results of the commands: another group, with copies of the programs that it keeps.
impl<A: Allocator + Clone> Group<A> {
    fn allocator(&self) -> &A {
        self.parts.members.allocator()
    }

    fn of(
        key: Endpoint,
        selector: Option<Program<A>>,
        members: Vec<Member<Program<A>>, A>,
    ) -> Result<Group<A>, OutOfMemory>
        requires few { length members.items ≤ MEMBER_LIMIT }
        ensures parts { IfOk result (λ group. group ≡ record { key = key; selector = selector; members = members.items }) }
    {
        let charge = charge_of_parts(&selector, &members);
        let words = words_of_parts(&selector, &members);
        let alloc = members.allocator().clone()?;
        let parts = Parts {
            key,
            selector,
            members,
            charge,
            words,
        };
        Ok(Group {
            parts: Arc::new(alloc, parts)?,
        })
    }

    pub(crate) fn new(key: Endpoint, alloc: A) -> Result<Group<A>, OutOfMemory>
        ensures empty { IfOk result (λ group. group ≡ record { key = key; selector = None; members = [] }) }
    {
        Group::of(key, None, Vec::new(alloc))
    }

    fn room_for_members(&self, count: usize) -> Result<Vec<Member<Program<A>>, A>, OutOfMemory>
        ensures empty { IfOk result (λ members. members.items ≡ []) }
    {
        Vec::with_capacity(self.allocator().clone()?, count)
    }

    // This group's key and selector, with other members.
    fn with_members(&self, members: Vec<Member<Program<A>>, A>) -> Result<Group<A>, OutOfMemory>
        requires few { length members.items ≤ MEMBER_LIMIT }
        ensures changed { IfOk result (λ group. group ≡ record { key = self.now.key; selector = self.now.selector; members = members.items }) }
    {
        let selector = copy_program(&self.parts.selector, self.allocator())?;
        Group::of(self.key(), selector, members)
    }

    // This group's key and members, with another selector, or none.
    fn with_selector(&self, selector: Option<Program<A>>) -> Result<Group<A>, OutOfMemory>
        requires few { length self.now.members ≤ MEMBER_LIMIT }
        ensures changed { IfOk result (λ group. group ≡ with_selector selector self.now) }
    {
        let mut members = self.room_for_members(self.members().len())?;
        append_members(&mut members, self.members())?;
        Group::of(self.key(), selector, members)
    }

    // The same group once more, for another configuration: nothing of it is copied.
    pub(crate) fn copy(&self) -> Result<Group<A>, OutOfMemory>
        ensures copied { IfOk result (λ copy. copy ≡ self.now) }
    {
        Ok(Group {
            parts: Arc::try_clone(&self.parts)?,
        })
    }

    fn with_member(&self, id: u32, to: Endpoint) -> Result<Group<A>, OutOfMemory>
        requires room { length self.now.members < MEMBER_LIMIT }
        ensures changed { IfOk result (λ group. group ≡ joined id to self.now) }
    {
        let mut members = self.room_for_members(self.members().len() + 1)?;
        append_members(&mut members, self.members())?;
        members.push(Member {
            id,
            to,
            filter: None,
            locked: false,
        })?;
        self.with_members(members)
    }

    // The last member takes the place of the one that is removed.
    fn without_member(&self, at: usize) -> Result<Group<A>, OutOfMemory>
        requires few { length self.now.members ≤ MEMBER_LIMIT }
        requires inside { at < length self.now.members }
        ensures changed { IfOk result (λ group. group ≡ record { key = self.now.key; selector = self.now.selector; members = last_in_gap at self.now.members }) }
    {
        let mut members = self.room_for_members(self.members().len() - 1)?;
        append_with_last_in_gap(&mut members, self.members(), at)?;
        self.with_members(members)
    }

    // Another member at a place.
    fn with_member_at(&self, at: usize, member: Member<Program<A>>) -> Result<Group<A>, OutOfMemory>
        requires few { length self.now.members ≤ MEMBER_LIMIT }
        requires inside { at < length self.now.members }
        ensures changed { IfOk result (λ group. group ≡ record { key = self.now.key; selector = self.now.selector; members = slice_set self.now.members at member }) }
    {
        let mut members = self.room_for_members(self.members().len())?;
        append_with_member_at(&mut members, self.members(), at, member)?;
        self.with_members(members)
    }

    // Another filter, or none, for the member at a place.
    fn with_filter(&self, at: usize, filter: Option<Program<A>>) -> Result<Group<A>, OutOfMemory>
        requires few { length self.now.members ≤ MEMBER_LIMIT }
        requires inside { at < length self.now.members }
        ensures changed { (id : ℕ) → IsOnlyAt (has_id id) self.now.members at → IfOk result (λ group. group ≡ with_filter id filter self.now) }
    {
        let member = &self.members()[at];
        self.with_member_at(
            at,
            Member {
                id: member.id,
                to: member.to,
                filter,
                locked: member.locked,
            },
        )
    }

    // The member at a place, locked.
    fn with_lock(&self, at: usize) -> Result<Group<A>, OutOfMemory>
        requires few { length self.now.members ≤ MEMBER_LIMIT }
        requires inside { at < length self.now.members }
        ensures changed { (id : ℕ) → IsOnlyAt (has_id id) self.now.members at → IfOk result (λ group. group ≡ locked id self.now) }
    {
        let member = copy_member(&self.members()[at], self.allocator())?;
        self.with_member_at(
            at,
            Member {
                id: member.id,
                to: member.to,
                filter: member.filter,
                locked: true,
            },
        )
    }

    fn join(&self, id: u32, to: Endpoint) -> Result<Group<A>, Refusal>
        requires group { IsGroup self.now }
        ensures answer { IsAnswer (first_of (join_causes id self.now)) (joined id to self.now) result }
        ensures group { IfOk result IsGroup }
    {
        if let Some(_taken) = place_of_member(self.members(), id) {
            return Err(Refusal::MemberExists);
        }
        if self.members().len() >= MEMBER_LIMIT {
            return Err(Refusal::GroupFull);
        }
        Ok(self.with_member(id, to)?)
    }

    fn leave(&self, id: u32) -> Result<Group<A>, Refusal>
        requires group { IsGroup self.now }
        ensures answer { IsAnswer (first_of (member_causes id self.now)) (left id self.now) result }
        ensures group { IfOk result IsGroup }
    {
        let Some(at) = place_of_member(self.members(), id) else {
            return Err(Refusal::NoMember);
        };
        Ok(self.without_member(at)?)
    }

    fn set_selector<B: Allocator>(&self, program: &Program<B>) -> Result<Group<A>, Refusal>
        requires group { IsGroup self.now }
        ensures answer { IsAnswer None (with_selector (Some program.now) self.now) result }
        ensures group { IfOk result IsGroup }
    {
        let selector = program.clone_in(self.allocator().clone()?)?;
        Ok(self.with_selector(Some(selector))?)
    }

    fn clear_selector(&self) -> Result<Group<A>, Refusal>
        requires group { IsGroup self.now }
        ensures answer { IsAnswer (first_of (clear_selector_causes self.now)) (with_selector None self.now) result }
        ensures group { IfOk result IsGroup }
    {
        if self.parts.selector.is_none() {
            return Err(Refusal::NoProgram);
        }
        Ok(self.with_selector(None)?)
    }

    fn set_filter<B: Allocator>(&self, id: u32, program: &Program<B>) -> Result<Group<A>, Refusal>
        requires group { IsGroup self.now }
        ensures answer { IsAnswer (first_of (set_filter_causes id self.now)) (with_filter id (Some program.now) self.now) result }
        ensures group { IfOk result IsGroup }
    {
        let Some(at) = place_of_member(self.members(), id) else {
            return Err(Refusal::NoMember);
        };
        if self.members()[at].locked {
            return Err(Refusal::Locked);
        }
        let filter = program.clone_in(self.allocator().clone()?)?;
        Ok(self.with_filter(at, Some(filter))?)
    }

    fn clear_filter(&self, id: u32) -> Result<Group<A>, Refusal>
        requires group { IsGroup self.now }
        ensures answer { IsAnswer (first_of (clear_filter_causes id self.now)) (with_filter id None self.now) result }
        ensures group { IfOk result IsGroup }
    {
        let Some(at) = place_of_member(self.members(), id) else {
            return Err(Refusal::NoMember);
        };
        let member = &self.members()[at];
        if member.locked {
            return Err(Refusal::Locked);
        }
        if member.filter.is_none() {
            return Err(Refusal::NoProgram);
        }
        Ok(self.with_filter(at, None)?)
    }

    fn lock_filter(&self, id: u32) -> Result<Group<A>, Refusal>
        requires group { IsGroup self.now }
        ensures answer { IsAnswer (first_of (member_causes id self.now)) (locked id self.now) result }
        ensures group { IfOk result IsGroup }
    {
        let Some(at) = place_of_member(self.members(), id) else {
            return Err(Refusal::NoMember);
        };
        Ok(self.with_lock(at)?)
    }

    /// Returns the group after a command on it. A command that adds or removes a group leaves it as it is.
    pub(crate) fn changed<B: Allocator>(
        &self,
        command: &Command<Program<B>>,
    ) -> Result<Group<A>, Refusal>
        requires group { IsGroup self.now }
        ensures answer { IsAnswer (first_of (causes_of command.now self.now)) (changed_by command.now self.now) result }
        ensures group { IfOk result IsGroup }
    {
        match command {
            Command::AddGroup { .. } | Command::RemoveGroup { .. } => Ok(self.copy()?),
            Command::Join { member, to, .. } => self.join(*member, *to),
            Command::Leave { member, .. } => self.leave(*member),
            Command::SetSelector { program, .. } => self.set_selector(program),
            Command::ClearSelector { .. } => self.clear_selector(),
            Command::SetFilter {
                member,
                program,
                ..
            } => self.set_filter(*member, program),
            Command::ClearFilter { member, .. } => self.clear_filter(*member),
            Command::LockFilter { member, .. } => self.lock_filter(*member),
        }
    }
}
