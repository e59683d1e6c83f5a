//! Commands that change a configuration.

use bpf_verify::Program;
use ipv4_fields::Endpoint;
use std::alloc::Global;

/// A command on a configuration, over programs `P`. `key` names the group, `member` is the number of a member of it.
#[derive(Drop)]
pub enum Command<P = Program<Global>> {
    /// Adds a group without members and without a selector.
    AddGroup {
        key: Endpoint,
    },
    /// Removes a group with its members and programs.
    RemoveGroup {
        key: Endpoint,
    },
    /// Adds a member without a filter, not locked, after the members that the group has.
    Join {
        key: Endpoint,
        member: u32,
        to: Endpoint,
    },
    /// Removes a member with its filter and its lock. The last member takes its place.
    Leave {
        key: Endpoint,
        member: u32,
    },
    /// Gives the group a selector, in place of any that it has.
    SetSelector {
        key: Endpoint,
        program: P,
    },
    /// Removes the selector.
    ClearSelector {
        key: Endpoint,
    },
    /// Gives a member a filter, in place of any that it has. The member must not be locked.
    SetFilter {
        key: Endpoint,
        member: u32,
        program: P,
    },
    /// Removes a member's filter. The member must not be locked.
    ClearFilter {
        key: Endpoint,
        member: u32,
    },
    /// Locks a member: its filter, or that it has none, stays as it is until the member leaves or the group is removed
    /// (socket(7), SO_LOCK_FILTER). A member may be locked again.
    LockFilter {
        key: Endpoint,
        member: u32,
    },
}
