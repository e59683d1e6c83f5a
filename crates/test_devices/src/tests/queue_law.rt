//! The law of a queue, after receives.

ghost use Rattle.serve_devices.specs.Queues.{AreOneQueue};

use serve_devices::{Ingress, QueueIngress, WorkerQueue, WorkerQueues, given_first, open_queue};
use std::alloc::Global;
use std::process::Abort;
use std::sync::Wait;

// Puts a datagram for the worker of a queue.
fn put<R: Abort + Wait>(
    rt: &R,
    alloc: Global,
    end: &QueueIngress<'_, R>,
    queue: WorkerQueue,
    datagram: &[u8],
) -> WorkerQueue
    requires one_queue { AreOneQueue end.now queue }
    ensures one_queue { AreOneQueue end.now result }
{
    let mut queues = Vec::new(alloc);
    queues.push(queue).expect(rt, "memory");
    let mut all = WorkerQueues::new(alloc, queues);
    all.arrive(rt, Some(datagram));
    all.into_queues().pop().expect(rt, "the queue")
}

// The end's receives are a prefix of those that were put: before a receive, after one, and after a call that found none.
#[test]
fn given_stays_first(rt: HostRuntime) {
    let alloc = rt.alloc();
    let (end, queue) = open_queue(&rt, alloc).expect(&rt, "a queue");
    let queue = put(&rt, alloc, &end, queue, &[1]);
    let queue = put(&rt, alloc, &end, queue, &[2, 2]);
    let (mut end, queue) = given_first(end, queue);
    let mut buf = [0; 3];
    assert!(rt; (end.receive(&mut buf), buf) == (Some(Ok(1)), [1, 0, 0]));
    let (mut end, queue) = given_first(end, queue);
    assert!(rt; (end.try_receive(&mut buf), buf) == (Some(Ok(2)), [2, 2, 0]));
    assert!(rt; end.try_receive(&mut buf).is_none());
    let _ = given_first(end, queue);
}
