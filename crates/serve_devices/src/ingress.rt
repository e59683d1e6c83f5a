//! Receiving datagrams (docs/SWITCH.md, "Devices of a server").

ghost use Rattle.std.specs.Prelude.{◌≡◌, ◌≤◌, IfOk, IfSome, List, None, Option, length, ℕ};
ghost use Rattle.serve_devices.specs.Ingress.{GivesReceive, HasGiven, IsEnded};

use crate::given::Given;
use dispatch::Failed;

/// A device that receives datagrams. Contracts see the receives that are still to come and those that it has given, in
/// order, each if they are known: each a datagram, whole, or a failure.
pub trait Ingress {
    ghost coming: { Self → Option (List (Option (List ℕ))) };

    ghost past: { Self → Option (List (Option (List ℕ))) };

    /// Waits for the next datagram, writes it into the front of `buf`, and returns its size. A longer one is cut to the buffer. `None` if no
    /// more come.
    fn receive(&mut self, buf: &mut [u8]) -> Option<Result<usize, Failed>>
        ensures within { IfSome result (λ received. IfOk received (λ size. size ≤ length buf.new)) }
        ensures given { GivesReceive buf.new result (coming self.old) (coming self.new) }
        ensures in_order { HasGiven buf.new result (past self.old) (past self.new) }
        ensures end { result ≡ None → IsEnded (coming self.new) };

    /// Receives the next datagram as `receive` does, but does not wait: `None` if there is none yet, or no more come.
    fn try_receive(&mut self, buf: &mut [u8]) -> Option<Result<usize, Failed>>
        ensures within { IfSome result (λ received. IfOk received (λ size. size ≤ length buf.new)) }
        ensures given { GivesReceive buf.new result (coming self.old) (coming self.new) }
        ensures in_order { HasGiven buf.new result (past self.old) (past self.new) };

    /// Closes the device, and returns what it gave, if that is known.
    fn close(self) -> Given
        ensures same { result ≡ past self };
}
