//! A stack of the parser: a list whose last element is the top.

ghost use Rattle.std.specs.Prelude.{◌≡◌, ◌++◌, ◌∷◌, OnOk, [], length};
ghost use Rattle.filter_parse.specs.body.Stack.{below_top, from_top, top_of};

use crate::OutOfMemory;
use smallvec::SmallVec;
use std::alloc::Allocator;

// Short texts need no memory for a stack.
#[derive(Drop)]
pub(crate) struct Stack<'a, T: Copy + Default + Drop, A: Allocator> {
    // The reason: docs/INTERNALS.md, "Short texts are parsed without memory".
    entries: SmallVec<T, 16, &'a A>,
}

impl<'a, T: Copy + Default + Drop, A: Allocator> Stack<'a, T, A> {
    pub(crate) fn new(alloc: &'a A) -> Stack<'a, T, A>
        ensures { result.entries.items ≡ [] }
    {
        Stack {
            entries: SmallVec::new(alloc),
        }
    }

    pub(crate) fn push(&mut self, entry: T) -> Result<(), OutOfMemory>
        ensures top { OnOk result (from_top self.new ≡ entry ∷ from_top self.old) }
        ensures last { OnOk result (self.new.entries.items ≡ self.old.entries.items ++ entry ∷ []) }
    {
        if self.entries.len() < self.entries.capacity() {
            self.entries.push_reserved(entry);
            return Ok(());
        }
        self.grow_and_push(entry)
    }

    // Separate from `push`, which would otherwise save registers for this call even if there is room.
    #[cold]
    #[inline(never)]
    fn grow_and_push(&mut self, entry: T) -> Result<(), OutOfMemory>
        ensures top { OnOk result (from_top self.new ≡ entry ∷ from_top self.old) }
        ensures last { OnOk result (self.new.entries.items ≡ self.old.entries.items ++ entry ∷ []) }
    {
        self.entries.push(entry)?;
        Ok(())
    }

    pub(crate) fn pop(&mut self) -> Option<T>
        ensures top { result ≡ top_of (from_top self.old) }
        ensures below { from_top self.new ≡ below_top (from_top self.old) }
    {
        self.entries.pop()
    }

    pub(crate) fn top(&self) -> Option<T>
        ensures { result ≡ top_of (from_top self.now) }
    {
        self.entries.as_slice().last().copied()
    }

    /// Returns the entries, the top last.
    pub(crate) fn entries(&self) -> &[T]
        ensures { result.now ≡ self.now.entries.items }
    {
        self.entries.as_slice()
    }
}
