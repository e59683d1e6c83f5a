//! The queues by which the thread that receives hands its receives to each worker in turn.

ghost use Rattle.std.specs.Prelude.{◌≡◌, ◌<◌, ◌⊎◌, IfOk, IsErr, IsSome, OnOk, [], vec_len};
ghost use Rattle.std.specs.Option.{option_map};
ghost use Rattle.serve_devices.specs.Channel.{HasPut, IsFirstOf};
ghost use Rattle.serve_devices.specs.Queues.{AreOneQueue, Arrives, HandsOn, HasEnded, IsOpen, IsSameIngress, IsSameQueue, given_by, next_turn, put_for};
ghost use Rattle.serve_devices.specs.declared.member_outbox.TheConstants.{LOG_ROOM};
ghost use Rattle.serve_devices.specs.declared.worker_source.TheConstants.{RECEIVE_LIMIT};

use crate::channel::{ChannelReceiver, ChannelSender, Gone, open_channel, taken_first};
use crate::queue_ingress::QueueIngress;
use crate::received::Received;
use crate::worker_source::RECEIVE_LIMIT;
use std::alloc::{AllocError, Global};
use std::marker::Model;
use std::sync::Wait;

/// The most receives that wait for a worker, and the most opened receives that wait to be used again.
pub const QUEUE_PLACES: usize = 64;

/// Law: the limits, as numbers. It runs nothing.
pub fn limits_as_numbers()
    ensures receives { RECEIVE_LIMIT ≡ 140737488355327 }
    ensures places { QUEUE_PLACES ≡ 64 }
    ensures log_room { LOG_ROOM ≡ 64 }
{}

/// The channel to one worker, and the channel back for the receives that it has opened.
#[derive(Drop)]
pub struct WorkerQueue {
    arriving: ChannelSender<Received>,
    opened: ChannelReceiver<Received>,
    // Set once a put has failed: its worker has ended.
    ended: Option<Gone>,
}

/// Opens a worker's queue, of `QUEUE_PLACES` places each way, with its end. Takes its memory from the allocator.
pub fn open_queue<R: Wait>(
    rt: &R,
    alloc: Global,
) -> Result<(QueueIngress<'_, R>, WorkerQueue), AllocError>
    ensures one_queue { IfOk result (λ ends. AreOneQueue ends.0 ends.1) }
    ensures open { IfOk result (λ ends. IsOpen ends.1) }
    ensures none_put { IfOk result (λ ends. put_for ends.1 ≡ []) }
    ensures none_given { IfOk result (λ ends. given_by ends.0 ≡ []) }
{
    let (arriving, at_worker) = open_channel(alloc, QUEUE_PLACES)?;
    let (from_worker, opened) = open_channel(alloc, QUEUE_PLACES)?;
    let queue = WorkerQueue {
        arriving,
        opened,
        ended: None,
    };
    Ok((QueueIngress::new(rt, at_worker, from_worker), queue))
}

/// Law: what the end of a queue has given is, in order, the first of what was put for its worker. It takes both, and
/// gives them back.
pub fn given_first<'a, R: Wait>(
    ingress: QueueIngress<'a, R>,
    queue: WorkerQueue,
) -> (QueueIngress<'a, R>, WorkerQueue)
    requires one_queue { AreOneQueue ingress queue }
    ensures first { IsFirstOf (given_by ingress.entry) (put_for queue) }
    ensures same_ingress { IsSameIngress ingress.entry result.0 }
    ensures same_queue { IsSameQueue queue result.1 }
{
    let WorkerQueue {
        arriving,
        opened,
        ended,
    } = queue;
    let (ingress, arriving) = ingress.beside(arriving);
    let queue = WorkerQueue {
        arriving,
        opened,
        ended,
    };
    (ingress, queue)
}

impl WorkerQueue {
    // A receive that was opened, or a new one.
    fn spare<R: Wait>(&mut self, rt: &R, alloc: Global) -> Received
        ensures arriving { self.new.arriving ≡ self.old.arriving }
        ensures ended { self.new.ended ≡ self.old.ended }
    {
        match self.opened.poll(rt) {
            Some(received) => received,
            None => Received::new(alloc),
        }
    }

    // A datagram as a receive, or one that failed.
    fn received<R: Wait>(
        &mut self,
        rt: &R,
        alloc: Global,
        datagram: Option<&[u8]>,
    ) -> Result<Received, AllocError>
        ensures received { IfOk result (λ received. received ≡ option_map (λ bytes. bytes.now) datagram.entry) }
        ensures refused { IsErr result → IsSome (option_map (λ bytes. bytes.now) datagram.entry) }
        ensures arriving { self.new.arriving ≡ self.old.arriving }
        ensures ended { self.new.ended ≡ self.old.ended }
    {
        let mut received = self.spare(rt, alloc);
        match datagram {
            Some(datagram) => received.fill(datagram)?,
            None => received.fail(),
        }
        Ok(received)
    }

    // Waits for a place, but not for a worker that ended.
    fn arrive<R: Wait>(
        &mut self,
        rt: &R,
        alloc: Global,
        datagram: Option<&[u8]>,
    ) -> Result<(), AllocError>
        ensures arrives { Arrives self.old self.new (option_map (λ bytes. bytes.now) datagram.entry) }
        ensures put { OnOk result (HasPut self.old.arriving self.new.arriving (option_map (λ bytes. bytes.now) datagram.entry) ⊎ HasEnded self.new) }
    {
        if self.ended.is_some() {
            return Ok(());
        }
        let Ok(received) = self.received(rt, alloc, datagram) else {
            return Err(AllocError);
        };
        if let Err(gone) = self.arriving.put(rt, received) {
            self.ended = Some(gone);
        }
        Ok(())
    }
}

/// The queues of all workers. Contracts see each with what was put for its worker, and whose turn it is.
#[derive(Drop)]
pub struct WorkerQueues {
    alloc: Global,
    queues: Vec<WorkerQueue>,
    turn: usize,
}

impl Model for WorkerQueues {
    ghost use Rattle.std.specs.Prelude.{◌<◌, vec_len};
    ghost use Rattle.serve_devices.specs.Queues.{QueuesValue};

    ghost Value = { QueuesValue };

    ghost view = { λ q. record { queues = q.queues.items; turn = q.turn } };

    ghost invariant = { λ q. q.turn < vec_len q.queues };
}

impl WorkerQueues {
    /// Returns the queues; it is the first worker's turn. The allocator is that of the receives.
    pub fn new(alloc: Global, queues: Vec<WorkerQueue>) -> WorkerQueues
        requires some { 0 < vec_len queues }
        ensures first { result ≡ record { queues = queues.items; turn = 0 } }
    {
        WorkerQueues {
            alloc,
            queues,
            turn: 0,
        }
    }

    /// Returns the queues, each with what was put for its worker.
    pub fn into_queues(self) -> Vec<WorkerQueue>
        ensures same { result.items ≡ self.queues }
    {
        let WorkerQueues { queues, .. } = self;
        queues
    }

    /// Hands a datagram, or none for a receive that failed, to the worker whose turn it is, and waits for a place.
    ///
    /// A receive for a worker that ended is dropped, and so is a datagram for which memory was refused; each takes a
    /// turn.
    pub fn arrive<R: Wait>(&mut self, rt: &R, datagram: Option<&[u8]>)
        ensures turn { self.new.turn ≡ next_turn self.old }
        ensures handed_on { HandsOn self.old self.new (option_map (λ bytes. bytes.now) datagram.entry) }
    {
        let turn = self.turn;
        let _ = self.queues[turn].arrive(rt, self.alloc, datagram);
        self.turn = (turn + 1) % self.queues.len();
    }
}
