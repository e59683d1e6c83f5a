//! Locks of members: the members that have one after commands.

use super::commands::{Act, LOCKED_BARE, ONE_MEMBER, RET_ZERO, Returns, after_each, has_members};

// The members of the one group after commands, in order, each with whether it is locked.
static LOCKS: [(&[Act], &[(u32, bool)]); 7] = [
    (ONE_MEMBER, &[(1, false)]),
    (LOCKED_BARE, &[(1, true)]),
    // Locked again, and beside a selector.
    (
        &[
            Act::Add(53),
            Act::Join(53, 1),
            Act::Lock(53, 1),
            Act::Lock(53, 1),
            Act::Select(53, Returns(1, RET_ZERO)),
        ],
        &[(1, true)],
    ),
    // A member that joins after a locked one.
    (
        &[
            Act::Add(53),
            Act::Join(53, 1),
            Act::Lock(53, 1),
            Act::Join(53, 2),
        ],
        &[(1, true), (2, false)],
    ),
    // The member that is moved into the gap keeps its own.
    (
        &[
            Act::Add(53),
            Act::Join(53, 1),
            Act::Join(53, 2),
            Act::Lock(53, 2),
            Act::Leave(53, 1),
        ],
        &[(2, true)],
    ),
    (
        &[
            Act::Add(53),
            Act::Join(53, 1),
            Act::Join(53, 2),
            Act::Lock(53, 1),
            Act::Leave(53, 1),
        ],
        &[(2, false)],
    ),
    // It ends with the member, and with the group.
    (
        &[
            Act::Add(53),
            Act::Join(53, 1),
            Act::Lock(53, 1),
            Act::Leave(53, 1),
            Act::Join(53, 1),
            Act::Filter(53, 1, Returns(2, RET_ZERO)),
            Act::Unfilter(53, 1),
            Act::Lock(53, 1),
            Act::Remove(53),
            Act::Add(53),
            Act::Join(53, 1),
        ],
        &[(1, false)],
    ),
];

#[test]
fn locks_are_the_members(rt: HostRuntime) {
    for (acts, members) in &LOCKS {
        assert!(rt; has_members(&after_each(&rt, rt.alloc(), acts), members));
    }
}
