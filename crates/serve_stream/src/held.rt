//! The incoming request of a client: a line, or a block with its lines.

ghost use Rattle.std.specs.Prelude.{◌≡◌, ◌+◌, ◌<◌, ◌≤◌, ◌++◌, ◌∷◌, IfOk, List, MatchOption, MatchResult, [], length, ℕ};
ghost use Rattle.ipv4_fields.specs.Cut.{IsSplitAt, Lacks};
ghost use Rattle.control_line.specs.Block.{HasHead, IsHead, head_text};
ghost use Rattle.serve_stream.specs.body.Held.{Holds, IsAdded, IsEndWithoutHead, IsFault, IsLineEnd, IsTaken, IsTakenNoMore};
ghost use Rattle.serve_stream.specs.declared.held.HoldFault.TheVariants as hold_fault;

use crate::bad_head::names_block;
use control_line::{BLOCK_LIMIT, LINE_LIMIT, read_head};
use memchr::memchr;
use std::alloc::Global;

/// Why no more of a request is held.
#[derive(Clone, Copy, Debug, PartialEq, Eq)]
pub(crate) enum HoldFault {
    /// It is too long.
    TooLong,
    /// Memory was refused.
    OutOfMemory,
}

/// The effect of the end of a line.
#[derive(Clone, Copy, Debug, PartialEq, Eq)]
pub(crate) enum LineEnd {
    /// The request goes on.
    More,
    /// The request is whole.
    Request,
    /// The request is whole: a line that was meant to begin a block, and does not.
    BadHead,
}

/// The bytes of a request so far.
#[derive(Drop)]
pub(crate) struct Held {
    pub(crate) bytes: Vec<u8>,
    // The number of bytes that the request may still have.
    room: usize,
    // The number of lines of a block that have not ended. 0 if there is no block.
    due: u32,
}

// Splits a text at its first LF.
fn split_line(text: &[u8]) -> Option<(&[u8], &[u8])>
    ensures { MatchOption result (Lacks 10 text.now) (λ parts. IsSplitAt 10 text.now parts.0.now parts.1.now) }
{
    let end = memchr(b'\n', text)?;
    Some((&text[..end], &text[end + 1..]))
}

// Returns the effect of the end of a line that is not the first line of a block.
fn end_without_head(line: &[u8]) -> LineEnd
    ensures { IsEndWithoutHead line.now result }
{
    if names_block(line) {
        LineEnd::BadHead
    } else {
        LineEnd::Request
    }
}

impl Held {
    pub(crate) fn new(alloc: Global) -> Held
        ensures holds { Holds result }
        ensures none { result.bytes.items ≡ [] }
    {
        Held {
            bytes: Vec::new(alloc),
            room: LINE_LIMIT,
            due: 0,
        }
    }

    fn push(&mut self, bytes: &[u8]) -> Result<(), HoldFault>
        ensures { MatchResult result
            (λ done. IsAdded bytes.now self.old self.new)
            (λ fault. fault ≡ hold_fault.TooLong → self.old.room < length bytes.now) }
    {
        if bytes.len() > self.room {
            return Err(HoldFault::TooLong);
        }
        let Ok(()) = self.bytes.extend_from_slice(bytes) else {
            return Err(HoldFault::OutOfMemory);
        };
        self.room -= bytes.len();
        Ok(())
    }

    // Adds a part of a line.
    fn add(&mut self, bytes: &[u8]) -> Result<(), HoldFault>
        requires { Lacks 10 bytes.now }
        ensures { Holds self.old → MatchResult result
            (λ done. Holds self.new × (self.new.bytes.items ≡ self.old.bytes.items ++ bytes.now))
            (λ fault. IsFault fault (self.old.bytes.items ++ bytes.now)) }
    {
        self.push(bytes)
    }

    // Ends a line.
    fn end_line(&mut self) -> Result<LineEnd, HoldFault>
        ensures { Holds self.old → MatchResult result
            (λ end. IsLineEnd end self.old self.new)
            (λ fault. IsFault fault (self.old.bytes.items ++ 10 ∷ [])) }
    {
        if self.due == 0 {
            return self.end_first_line();
        }
        if self.due == 1 {
            return Ok(LineEnd::Request);
        }
        self.due -= 1;
        self.push(b"\n")?;
        Ok(LineEnd::More)
    }

    // The same of a line outside of blocks, which may begin one.
    fn end_first_line(&mut self) -> Result<LineEnd, HoldFault>
        requires { self.old.due ≡ 0 }
        ensures { Holds self.old → MatchResult result
            (λ end. IsLineEnd end self.old self.new)
            (λ fault. IsFault fault (self.old.bytes.items ++ 10 ∷ [])) }
    {
        let Some(head) = read_head(&self.bytes) else {
            return Ok(end_without_head(&self.bytes));
        };
        if head.count == 0 {
            return Ok(LineEnd::Request);
        }
        self.due = head.count;
        self.room = BLOCK_LIMIT;
        self.push(b"\n")?;
        Ok(LineEnd::More)
    }

    /// Takes bytes up to the end of a line, or all if no line ends in them. Returns their number, and the effect of the
    /// line's end.
    pub(crate) fn take(&mut self, bytes: &[u8]) -> Result<(usize, LineEnd), HoldFault>
        ensures within { IfOk result (λ taken. taken.0 ≤ length bytes.now) }
        ensures some { IfOk result (λ taken. 0 < length bytes.now → 0 < taken.0) }
        ensures taken { Holds self.old → MatchResult result
            (λ taken. IsTaken bytes.now self.old self.new taken.0 taken.1)
            (λ fault. IsTakenNoMore fault bytes.now self.old) }
    {
        let Some((line, _)) = split_line(bytes) else {
            self.add(bytes)?;
            return Ok((bytes.len(), LineEnd::More));
        };
        self.add(line)?;
        Ok((line.len() + 1, self.end_line()?))
    }

    /// Begins the next request.
    pub(crate) fn clear(&mut self)
        ensures holds { Holds self.new }
        ensures none { self.new.bytes.items ≡ [] }
    {
        self.bytes.clear();
        self.room = LINE_LIMIT;
        self.due = 0;
    }
}
