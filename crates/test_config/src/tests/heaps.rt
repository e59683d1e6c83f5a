//! Calls whose memory comes from heaps of every size: how far it lasts.

use linked_list_allocator::LocalHeap;
use std::alloc::Global;
use std::process::Abort;

/// Makes calls in this many heaps, each of one block more than the one before, so that each allocation is once the first
/// that is refused. `steps_in` returns how far memory lasts, or none if a result is wrong or another fault is returned:
/// no less than in a smaller heap, and each heap has its memory back afterwards. Returns how far the last heap lasts.
pub fn steps_in_heaps<R: Abort, F: Fn(&R, Global, &LocalHeap) -> Option<usize>>(
    rt: &R,
    alloc: Global,
    heaps: usize,
    steps_in: F,
) -> usize
    requires { F.IsAlwaysCallable steps_in }
{
    let mut size = 64usize;
    let mut least = 0;
    for _ in 0..heaps {
        let heap = LocalHeap::new(alloc, size).expect(rt, "memory");
        let steps = steps_in(rt, alloc, &heap).expect(rt, "only memory is refused");
        assert!(rt;
            least <= steps && heap.used() == 0,
            "a heap of {size} bytes"
        );
        least = steps;
        size = size.saturating_add(16);
    }
    least
}
