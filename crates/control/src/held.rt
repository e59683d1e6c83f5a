//! The request of a script that is being read: a line, or a block with its lines.

ghost use Rattle.std.specs.Prelude.{◌≡◌, ◌≢◌, ◌++◌, IfOk, List, OnOk, [], ℕ};
ghost use Rattle.ipv4_fields.specs.Cut.{Lacks};
ghost use Rattle.control.specs.body.Held.{Holds, HoldsAfterLine, IsCountAfter, IsHeldUpTo, IsLastHeld, IsWithoutLf};

use control_line::{BLOCK_LIMIT, LINE_LIMIT, read_head};
use std::alloc::{AllocError, Global};

// How many bytes of a line are held at most: one more than it may have.
const LINE_ROOM: usize = LINE_LIMIT + 1;

// How many bytes of a block are held at most after its first line. One byte more than its lines may have shows that they are too long,
// also if an LF at the end of the script is dropped.
const BLOCK_ROOM: usize = BLOCK_LIMIT + 2;

/// The bytes of a request that were read. If the request is too long, only enough bytes are kept to show that.
#[derive(Drop)]
pub(crate) struct Held {
    pub(crate) bytes: Vec<u8>,
    // How many more bytes may be held.
    room: usize,
    // How many lines of a block have not ended. 0 if there is no block.
    due: u32,
}

// How many lines a block has after this line. 0 if the line begins no block.
fn lines_after(line: &[u8]) -> u32
    ensures { IsCountAfter line.now result }
{
    match read_head(line) {
        Some(head) => head.count,
        None => 0,
    }
}

// Takes the LF off the end of a text, if it has one.
fn drop_lf(text: &mut Vec<u8>)
    ensures { IsWithoutLf text.old.items text.new.items }
{
    if text.ends_with(b"\n".as_slice()) {
        text.truncate(text.len() - 1);
    }
}

impl Held {
    pub(crate) fn new(alloc: Global) -> Held
        ensures { Holds [] result }
    {
        Held {
            bytes: Vec::new(alloc),
            room: LINE_ROOM,
            due: 0,
        }
    }

    fn push(&mut self, bytes: &[u8]) -> Result<(), AllocError>
        ensures held { OnOk result ((most : ℕ) (text : List ℕ) → IsHeldUpTo most text self.old → IsHeldUpTo most (text ++ bytes.now) self.new) }
        ensures due { OnOk result (self.new.due ≡ self.old.due) }
    {
        let bytes = &bytes[..bytes.len().min(self.room)];
        self.bytes.extend_from_slice(bytes)?;
        self.room -= bytes.len();
        Ok(())
    }

    /// Adds a part of a line.
    pub(crate) fn add(&mut self, bytes: &[u8]) -> Result<(), AllocError>
        requires { Lacks 10 bytes.now }
        ensures { OnOk result ((part : List ℕ) → Holds part self.old → Holds (part ++ bytes.now) self.new) }
    {
        self.push(bytes)
    }

    /// Ends a line. Returns whether the request ends with it. If it does not, its next line begins.
    pub(crate) fn end_line(&mut self) -> Result<bool, AllocError>
        ensures { IfOk result (λ whole. (part : List ℕ) → Holds part self.old → HoldsAfterLine whole part self.new) }
    {
        if self.due == 0 {
            return self.end_first_line();
        }
        if self.due == 1 {
            return Ok(true);
        }
        self.due -= 1;
        self.push(b"\n")?;
        Ok(false)
    }

    // The same for a line outside of blocks, which may begin a block.
    fn end_first_line(&mut self) -> Result<bool, AllocError>
        requires { self.old.due ≡ 0 }
        ensures { IfOk result (λ whole. (part : List ℕ) → Holds part self.old → HoldsAfterLine whole part self.new) }
    {
        let count = lines_after(&self.bytes);
        if count == 0 {
            return Ok(true);
        }
        self.due = count;
        self.room = BLOCK_ROOM;
        self.push(b"\n")?;
        Ok(false)
    }

    /// Ends the script. An LF after which a block lacks lines is dropped.
    pub(crate) fn end_script(&mut self)
        ensures { (part : List ℕ) → Holds part self.old → self.old.bytes.items ≢ [] → IsLastHeld part self.new.bytes.items }
    {
        drop_lf(&mut self.bytes);
    }

    /// Begins the next request.
    pub(crate) fn clear(&mut self)
        ensures { Holds [] self.new }
    {
        self.bytes.clear();
        self.room = LINE_ROOM;
        self.due = 0;
    }
}
