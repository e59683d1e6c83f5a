//! The caller's thread of the service: it hands over the datagrams that come to it, and answers control, until it is
//! asked to stop.

use crate::sockets::Sockets;
use dispatch::{NamedTally, TallyName};
use read_section::Operator;
use serve_control::{Log, LogLines, SharedTotals};
use serve_devices::SharedCounts;
use std::alloc::Global;
use std::sync::Wait;

/// Why the service receives no more.
#[derive(Clone, Copy)]
pub enum Ended {
    /// It was asked to stop.
    Stopped,
    /// The sockets could not be waited for.
    PollFailed,
}

/// The sockets that receive, with the operator. When it is dropped no more datagrams come to the workers, so that they
/// end.
#[derive(Drop)]
pub struct Receiver<'a> {
    pub sockets: Sockets<'a>,
    pub operator: Operator,
}

impl Receiver<'_> {
    /// Receives until it is asked to stop. It may wait, for the sockets and for a place in a worker's queue.
    pub fn receive<N: TallyName, L: LogLines, R: Wait>(
        &mut self,
        rt: &R,
        alloc: Global,
        named: &mut NamedTally<N>,
        counts: &SharedCounts,
        log: &mut Log<L>,
    ) -> Ended {
        let mut totals = SharedTotals { rt, counts };
        for _ in rt.forever() {
            if self.sockets.wait().is_err() {
                return Ended::PollFailed;
            }
            self.sockets.receive(rt);
            if self
                .sockets
                .answer_control(alloc, &mut self.operator, named, &mut totals, log)
            {
                return Ended::Stopped;
            }
        }
        unreachable!()
    }
}
