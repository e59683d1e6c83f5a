//! The ways from the front to the workers (docs/COMMANDS.md, "How it receives").

ghost use Rattle.std.specs.Prelude.{◌≡◌, ◌≤◌, ◌+◌, ◌++◌, ◌∷◌, IfErr, IfOk, None, OnOk, Some, [], length, option_map, vec_len};
ghost use Rattle.serve_devices.specs.Devices.{new_source};
ghost use Rattle.serve_devices.specs.Ingress.{cut_to};
ghost use Rattle.serve_udp.specs.declared.sockets.TheConstants.{LONGEST_DATAGRAM};
ghost use Rattle.serve_udp.specs.body.Jobs.{AreNewSources};

use crate::sockets::LONGEST_DATAGRAM;
use command_line::Failure;
use mio::net;
use serve_devices::{
    Ingress, QueueIngress, SocketIngress, StopReceiving, WorkerQueue, WorkerQueues, WorkerSource,
    open_queue,
};
use std::alloc::Global;
use std::net::UdpSocket;
use std::sync::Wait;
use std::sync::atomic::AtomicBool;

/// The socket at the front, if the caller's thread receives, and the queues by which it hands datagrams on.
#[derive(Drop)]
pub struct QueuedFront {
    pub socket: net::UdpSocket,
    pub queues: WorkerQueues,
    /// It is not known to be empty.
    pub is_ready: bool,
}

/// The receivers at the front: the caller's thread, if there is a front for it, and otherwise the workers.
///
/// When it is dropped no more datagrams come to the workers, so that they end.
#[derive(Drop)]
pub struct Receiving<'a> {
    pub front: Option<QueuedFront>,
    pub stop: StopReceiving<'a>,
}

/// The sources of all workers, and the receivers.
#[derive(Drop)]
pub struct Intake<'a, I: Ingress + Drop> {
    pub sources: Vec<WorkerSource<I>>,
    pub receiving: Receiving<'a>,
}

// Room for the longest datagram.
fn new_room(alloc: Global) -> Result<Vec<u8>, Failure>
    ensures room { IfOk result (λ room. length room.items ≡ LONGEST_DATAGRAM) }
    ensures failed { IfErr result (λ failure. failure ≡ Failure.OutOfMemory) }
{
    let Ok(room) = vec![in alloc; 0; LONGEST_DATAGRAM] else {
        return Err(Failure::OutOfMemory);
    };
    Ok(room)
}

// Makes a worker's source.
fn add_source<I: Ingress + Drop>(
    alloc: Global,
    ingress: I,
    sources: &mut Vec<WorkerSource<I>>,
) -> Result<(), Failure>
    requires silent { I.coming ingress ≡ None }
    ensures added { OnOk result (sources.new.items ≡ sources.old.items
        ++ new_source LONGEST_DATAGRAM None (option_map (cut_to LONGEST_DATAGRAM) (I.past ingress)) ∷ []) }
    ensures failed { IfErr result (λ failure. failure ≡ Failure.OutOfMemory) }
{
    let room = new_room(alloc)?;
    let source = WorkerSource::new(ingress, room);
    let Ok(()) = sources.push(source) else {
        return Err(Failure::OutOfMemory);
    };
    Ok(())
}

// Makes a worker's source, and the queue by which it is handed datagrams.
fn add_queue<'a, R: Wait>(
    rt: &'a R,
    alloc: Global,
    sources: &mut Vec<WorkerSource<QueueIngress<'a, R>>>,
    queues: &mut Vec<WorkerQueue>,
) -> Result<(), Failure>
    ensures added { OnOk result (sources.new.items ≡ sources.old.items ++ new_source LONGEST_DATAGRAM None (Some []) ∷ []) }
    ensures queued { OnOk result (vec_len queues.new ≡ vec_len queues.old + 1) }
    ensures failed { IfErr result (λ failure. failure ≡ Failure.OutOfMemory) }
{
    let Ok((ingress, queue)) = open_queue(rt, alloc) else {
        return Err(Failure::OutOfMemory);
    };
    add_source(alloc, ingress, sources)?;
    let Ok(()) = queues.push(queue) else {
        return Err(Failure::OutOfMemory);
    };
    Ok(())
}

/// Returns the sources of workers to whom the caller's thread hands the datagrams.
pub fn queued_intake<'a, R: Wait>(
    rt: &'a R,
    alloc: Global,
    socket: net::UdpSocket,
    stopped: &'a AtomicBool,
    workers: usize,
) -> Result<Intake<'a, QueueIngress<'a, R>>, Failure>
    requires some { 1 ≤ workers }
    ensures sources { IfOk result (λ intake. AreNewSources (Some []) workers intake.sources.items) }
    ensures failed { IfErr result (λ failure. failure ≡ Failure.OutOfMemory) }
{
    let mut sources = Vec::new(alloc);
    let mut queues: Vec<WorkerQueue> = Vec::new(alloc);
    for _worker in 0..workers {
        add_queue(rt, alloc, &mut sources, &mut queues)?;
    }
    Ok(Intake {
        sources,
        receiving: Receiving {
            front: Some(QueuedFront {
                socket,
                queues: WorkerQueues::new(alloc, queues),
                is_ready: true,
            }),
            stop: StopReceiving {
                stopped,
                sockets: &[],
            },
        },
    })
}

/// Returns the sources of workers that receive for themselves, each from one of the sockets, until the flag is set.
pub fn direct_intake<'a, R: Wait>(
    rt: &'a R,
    alloc: Global,
    sockets: &'a [UdpSocket],
    stopped: &'a AtomicBool,
    workers: usize,
) -> Result<Intake<'a, SocketIngress<'a, R>>, Failure>
    requires sockets { workers ≤ length sockets.now }
    ensures sources { IfOk result (λ intake. AreNewSources None workers intake.sources.items) }
    ensures failed { IfErr result (λ failure. failure ≡ Failure.OutOfMemory) }
{
    let mut sources = Vec::new(alloc);
    for worker in 0..workers {
        let ingress = SocketIngress::new(rt, &sockets[worker], stopped);
        add_source(alloc, ingress, &mut sources)?;
    }
    Ok(Intake {
        sources,
        receiving: Receiving {
            front: None,
            stop: StopReceiving { stopped, sockets },
        },
    })
}
