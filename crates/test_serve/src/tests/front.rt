//! Turns of the front, over a wire in memory.

use dispatch::Failed;
use serve_devices::{Ingress, QueueIngress, WorkerQueues, open_queue};
use serve_udp::{Arrived, FRONT_TURN, FrontWire, hand_datagrams};
use std::alloc::Global;
use std::process::Abort;
use std::sync::Wait;

// The number of the receive that fails.
const FAILED: u8 = 2;

// A wire with so many receives. Each but one brings a datagram of one byte, its number.
#[derive(Drop)]
struct Numbers {
    next: u8,
    end: u8,
}

impl FrontWire for Numbers {
    ghost use Rattle.std.specs.Prelude.{None};

    ghost log = { λ _. None };

    fn receive(&mut self, buf: &mut [u8]) -> Arrived {
        let number = self.next;
        if number >= self.end {
            return Arrived::Nothing;
        }
        self.next = number + 1;
        match buf.first_mut() {
            Some(first) if number != FAILED => {
                *first = number;
                Arrived::Datagram(1)
            }
            _ => Arrived::Failed,
        }
    }
}

// The queues of one worker, and its end.
fn one_queue<R: Abort + Wait>(rt: &R, alloc: Global) -> (QueueIngress<'_, R>, WorkerQueues) {
    let (ingress, queue) = open_queue(rt, alloc).expect(rt, "a queue");
    let mut queues = Vec::new(alloc);
    queues.push(queue).expect(rt, "memory");
    (ingress, WorkerQueues::new(alloc, queues))
}

// The receives of these numbers were handed on, in order, and no other.
fn come_in_order<R: Abort + Wait>(rt: &R, ingress: &mut QueueIngress<'_, R>, from: u8, end: u8) {
    let mut buf = [0; 4];
    for number in from..end {
        let received = ingress.try_receive(&mut buf);
        if number == FAILED {
            assert!(rt; received == Some(Err(Failed)), "receive {number}");
        } else {
            assert!(rt;
                (received, buf[0]) == (Some(Ok(1)), number),
                "receive {number}"
            );
        }
    }
    assert!(rt; ingress.try_receive(&mut buf).is_none());
}

// The first turn ends after 64 receives, one of which failed, and the second one once nothing has come.
#[test]
fn turn_of_the_front_has_64_receives(rt: HostRuntime) {
    let (mut ingress, mut queues) = one_queue(&rt, rt.alloc());
    let mut wire = Numbers { next: 0, end: 70 };
    let mut buf = [0; 8];
    assert!(rt; FRONT_TURN == 64);
    assert!(rt; hand_datagrams(&rt, &mut wire, &mut queues, &mut buf));
    come_in_order(&rt, &mut ingress, 0, 64);
    assert!(rt; !hand_datagrams(&rt, &mut wire, &mut queues, &mut buf));
    come_in_order(&rt, &mut ingress, 64, 70);
    assert!(rt; !hand_datagrams(&rt, &mut wire, &mut queues, &mut buf));
    come_in_order(&rt, &mut ingress, 70, 70);
}
