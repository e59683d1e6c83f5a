//! The bytes of one read of a stream that are not taken yet.

ghost use Rattle.std.specs.Prelude.{◌≡◌, ◌≤◌, IfOk, List, [], drop, length, ℕ};
ghost use Rattle.serve_stream.specs.Stream.{Logs, events_of_read, given};

use crate::stream::{Arrived, Stream};
use control_line::OutOfMemory;
use std::alloc::Global;
use std::marker::Model;

/// The most bytes of one read.
const READ_ROOM: usize = 16_384;

/// Bytes that came and are not taken yet.
#[derive(Drop)]
pub(crate) struct Unread {
    room: Vec<u8>,
    next: usize,
    end: usize,
}

impl Model for Unread {
    ghost use Rattle.std.specs.Prelude.{List, ℕ, ◌≤◌, slice_range, vec_len};

    ghost Value = { List ℕ };

    ghost view = { λ unread. slice_range unread.room.items unread.next unread.end };

    ghost invariant = { λ unread. (unread.next ≤ unread.end) × (unread.end ≤ vec_len unread.room) };
}

impl Unread {
    pub(crate) fn new(alloc: Global) -> Result<Unread, OutOfMemory>
        ensures { IfOk result (λ unread. unread ≡ []) }
    {
        Ok(Unread {
            room: vec![in alloc; 0; READ_ROOM]?,
            next: 0,
            end: 0,
        })
    }

    pub(crate) fn bytes(&self) -> &[u8]
        ensures { result.now ≡ self.now }
    {
        &self.room[self.next..self.end]
    }

    /// Takes the first bytes.
    pub(crate) fn skip(&mut self, count: usize)
        requires { count ≤ length self.old }
        ensures { self.new ≡ drop count self.old }
    {
        self.next += count;
    }

    /// Reads once. The bytes that were here are dropped.
    pub(crate) fn read<S: Stream>(&mut self, stream: &mut S) -> Arrived
        ensures { (room : List ℕ) × Logs (S.log stream.old) (S.log stream.new) (events_of_read result room) × (self.new ≡ given (events_of_read result room)) }
    {
        let arrived = stream.read(&mut self.room);
        self.next = 0;
        self.end = match arrived {
            Arrived::Bytes(count) => count,
            _ => 0,
        };
        arrived
    }
}
