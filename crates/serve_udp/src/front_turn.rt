//! A turn of the front: what it receives is handed to the workers in turn (docs/COMMANDS.md, "serve").

ghost use Rattle.std.specs.Prelude.{◌≡◌, List, Option, length};
ghost use Rattle.serve_udp.specs.FrontTurn.{CameBy, FrontEvent, IsFrontTurn, IsWithin};
ghost use Rattle.serve_udp.specs.body.FrontTurns.{HandsOne};

use serve_devices::WorkerQueues;
use std::sync::Wait;

/// The most receives that the front has before control has its turn.
pub const FRONT_TURN: usize = 64;

/// The result of a receive of the front.
#[derive(Clone, Copy)]
pub enum Arrived {
    /// A datagram of this many bytes.
    Datagram(usize),
    /// No datagram has come.
    Nothing,
    /// The receive failed.
    Failed,
}

/// A wire that brings the datagrams of the front. Contracts see its receives in their order, if they are known.
pub trait FrontWire {
    ghost log: { Self → Option (List FrontEvent) };

    /// Receives the next datagram into the front of `buf`, and does not wait. A longer one is cut to the buffer.
    fn receive(&mut self, buf: &mut [u8]) -> Arrived
        ensures within { IsWithin (length buf.new) result }
        ensures logged { CameBy (log self.old) (log self.new) result buf.new };
}

// Receives once, and hands what came to the worker whose turn it is. False if nothing has come.
fn hand_one<F: FrontWire, R: Wait>(
    rt: &R,
    wire: &mut F,
    queues: &mut WorkerQueues,
    buf: &mut [u8],
) -> bool
    ensures { HandsOne (length buf.old) (F.log wire.old) (F.log wire.new) queues.old queues.new result }
{
    match wire.receive(buf) {
        Arrived::Datagram(size) => {
            queues.arrive(rt, Some(&buf[..size]));
            true
        }
        Arrived::Nothing => false,
        Arrived::Failed => {
            queues.arrive(rt, None);
            true
        }
    }
}

/// Receives from the front up to `FRONT_TURN` times, and hands each datagram, and each receive that failed, to the workers in turn.
/// Stops once nothing has come, and then returns false.
pub fn hand_datagrams<F: FrontWire, R: Wait>(
    rt: &R,
    wire: &mut F,
    queues: &mut WorkerQueues,
    buf: &mut [u8],
) -> bool
    ensures handed_on { IsFrontTurn (length buf.old) (F.log wire.old) (F.log wire.new) queues.old queues.new result }
{
    for _receive in 0..FRONT_TURN {
        if !hand_one(rt, wire, queues, buf) {
            return false;
        }
    }
    true
}
