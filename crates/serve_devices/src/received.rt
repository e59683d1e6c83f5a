//! One receive, in memory that is used again.

ghost use Rattle.std.specs.Prelude.{◌≡◌, ◌↔◌, ◌++◌, IfOk, IfSome, IsErr, None, OnErr, OnOk, Some, drop, length, min, take};

use dispatch::Failed;
use std::alloc::{AllocError, Global};
use std::marker::Model;

/// One receive: a datagram, or none if it failed. Contracts see the datagram's bytes.
///
/// It keeps its memory from one datagram to the next.
#[derive(Drop)]
pub struct Received {
    bytes: Vec<u8>,
    failed: bool,
}

impl Model for Received {
    ghost use Rattle.std.specs.Prelude.{List, None, Option, Some, if◌then◌else◌, ℕ};

    ghost Value = { Option (List ℕ) };

    ghost view = { λ r. if r.failed then None else Some r.bytes.items };
}

impl Received {
    /// Returns a receive that failed. Takes no memory.
    pub fn new(alloc: Global) -> Received
        ensures failed { result ≡ None }
    {
        Received {
            bytes: Vec::new(alloc),
            failed: true,
        }
    }

    /// Makes it the receive of this datagram or, if memory for it is refused, a receive that failed.
    pub fn fill(&mut self, datagram: &[u8]) -> Result<(), AllocError>
        ensures filled { OnOk result (self.new ≡ Some datagram.now) }
        ensures failed { OnErr result (self.new ≡ None) }
    {
        self.bytes.clear();
        let filled = self.bytes.extend_from_slice(datagram);
        self.failed = filled.is_err();
        filled
    }

    /// Makes it a receive that failed.
    pub fn fail(&mut self)
        ensures failed { self.new ≡ None }
    {
        self.failed = true;
    }

    /// Copies the datagram into the front of the buffer, cut to it, and returns the number of copied bytes.
    pub fn open(&self, buf: &mut [u8]) -> Result<usize, Failed>
        ensures failed { IsErr result ↔ (self.now ≡ None) }
        ensures size { IfOk result (λ size. IfSome self.now (λ datagram. size ≡ min (length datagram) (length buf.old))) }
        ensures copied { IfOk result (λ size. IfSome self.now (λ datagram. buf.new ≡ take size datagram ++ drop size buf.old)) }
        ensures kept { OnErr result (buf.new ≡ buf.old) }
    {
        if self.failed {
            return Err(Failed);
        }
        let size = self.bytes.len().min(buf.len());
        buf[..size].copy_from_slice(&self.bytes[..size]);
        Ok(size)
    }
}
