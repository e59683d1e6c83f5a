//! A source and an outbox in memory.

ghost use Rattle.std.specs.Prelude.{◌≡◌, ◌++◌, ◌∷◌, IfOk, OnErr, OnOk, [], false, flat_map, length, option_map, slice_get, true};
ghost use Rattle.dispatch.specs.Device.{Sent};

use crate::OutOfMemory;
use crate::device::{Failed, Outbox, Source};
use ipv4_fields::Endpoint;
use std::alloc::Global;
use std::collections::VecDeque;
use std::marker::Model;

/// Datagrams in memory, which come in their order. Contracts see their bytes.
#[derive(Drop)]
pub struct Datagrams {
    waiting: VecDeque<Vec<u8>>,
}

impl Model for Datagrams {
    ghost use Rattle.std.specs.Prelude.{List, map, ℕ};

    ghost Value = { List (List ℕ) };

    ghost view = { λ d. map (λ datagram. datagram.items) d.waiting.items };
}

impl Datagrams {
    pub fn new(alloc: Global) -> Datagrams
        ensures none { result ≡ [] }
    {
        Datagrams {
            waiting: VecDeque::new(alloc),
        }
    }

    /// Appends a datagram to the others.
    pub fn push(&mut self, datagram: Vec<u8>) -> Result<(), OutOfMemory>
        ensures behind { OnOk result (self.new ≡ self.old ++ datagram.items ∷ []) }
        ensures kept { OnErr result (self.new ≡ self.old) }
    {
        self.waiting.push_back(datagram).map_err(|_| OutOfMemory)
    }
}

/// It never fails.
impl Source for Datagrams {
    ghost use Rattle.std.specs.Prelude.{None, Some};

    ghost state = { λ d. record { failures = 0; coming = Some d; given = None } };

    fn next(&mut self, buf: &mut [u8]) -> Result<Option<usize>, Failed> {
        let Some(datagram) = self.waiting.pop_front() else {
            return Ok(None);
        };
        let size = datagram.len().min(buf.len());
        buf[..size].copy_from_slice(&datagram[..size]);
        Ok(Some(size))
    }
}

// The destination of one send's bytes, and their number.
#[derive(Clone, Copy, Debug)]
pub(crate) struct Extent {
    pub(crate) to: Endpoint,
    pub(crate) len: usize,
}

/// Keeps what it is sent in memory that was reserved before: a send past its room fails.
///
/// Contracts see the sends, and how often one failed. After 2^64 - 1 failed sends they no longer see what was sent.
#[derive(Drop)]
pub struct Sends {
    extents: Vec<Extent>,
    bytes: Vec<u8>,
    failures: u64,
}

impl Model for Sends {
    ghost use Rattle.std.specs.Prelude.{◌≡◌, length};
    ghost use Rattle.dispatch.specs.Memory.{SendsValue, len_of, sent_in};

    ghost Value = { SendsValue };

    ghost view = { λ s. record { sent = sent_in s.extents.items s.bytes.items; failures = s.failures } };

    ghost invariant = { λ s. len_of s.extents.items ≡ length s.bytes.items };
}

impl Sends {
    /// Makes room for `sends` sends, and for `bytes` bytes in all of them.
    pub fn with_room(alloc: Global, sends: usize, bytes: usize) -> Result<Sends, OutOfMemory>
        ensures none { IfOk result (λ outbox. outbox ≡ record { sent = []; failures = 0 }) }
    {
        Ok(Sends {
            extents: Vec::with_capacity(alloc, sends)?,
            bytes: Vec::with_capacity(alloc, bytes)?,
            failures: 0,
        })
    }

    /// Returns how many sends it keeps.
    pub fn count(&self) -> usize
        ensures count { result ≡ length self.now.sent }
    {
        self.extents.len()
    }

    /// Returns the destination of send `i`, counted from 0.
    pub fn to(&self, i: usize) -> Option<Endpoint>
        ensures to { result ≡ option_map (λ (sent : Sent). sent.to) (slice_get self.now.sent i) }
    {
        Some(self.extents.get(i)?.to)
    }

    /// Returns the bytes of all sends, one after the other.
    pub fn bytes(&self) -> &[u8]
        ensures bytes { result.now ≡ flat_map (λ (sent : Sent). sent.bytes) self.now.sent }
    {
        &self.bytes
    }

    // Keeps one send more, if there is room for it.
    fn keep(&mut self, to: Endpoint, bytes: &[u8]) -> bool
        ensures kept { result ≡ true
            → self.new ≡ record self.old { sent = self.old.sent ++ record { to = to; bytes = bytes.now } ∷ [] } }
        ensures full { result ≡ false → self.new ≡ self.old }
    {
        if self.extents.capacity() <= self.extents.len() {
            return false;
        }
        if self.bytes.capacity() - self.bytes.len() < bytes.len() {
            return false;
        }
        let len = bytes.len();
        let _ = self.bytes.extend_from_slice(bytes);
        let _ = self.extents.push(Extent { to, len });
        true
    }
}

impl Outbox for Sends {
    ghost use Rattle.dispatch.specs.Memory.{outbox_of};

    ghost state = { λ s. outbox_of s };

    fn send(&mut self, to: Endpoint, bytes: &[u8]) -> Result<(), Failed> {
        if self.keep(to, bytes) || self.failures == u64::MAX {
            return Ok(());
        }
        self.failures += 1;
        Err(Failed)
    }
}
